//! Numbers as bytes, the lowest byte first.
ghost use Rattle.std.specs.Prelude.{◌≡◌, ◌≤◌, length};
ghost use Rattle.ir_mem.specs.Bytes.{from_little, to_little};

/// The number that at most eight bytes are.
pub(crate) fn little(bytes: &[u8]) -> u64
    requires { length bytes.now ≤ 8 }
    ensures { result ≡ from_little bytes.now }
{
    let mut number = 0;
    for place in (0..bytes.len()).rev() {
        number = number * 256 + u64::from(bytes[place]);
    }
    number
}

/// Writes the lowest bytes of a number over these.
pub(crate) fn put_little(bytes: &mut [u8], number: u64)
    ensures { bytes.new ≡ to_little (length bytes.old) number }
{
    let mut rest = number;
    for place in 0..bytes.len() {
        bytes[place] = (rest % 256) as u8;
        rest /= 256;
    }
}
