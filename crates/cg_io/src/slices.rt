ghost use Rattle.std.specs.Prelude.{◌≡◌, ◌++◌, length, min, take, drop};

/// Copies a prefix of `from` over the start of `to`, at most `most` bytes, and answers how many.
pub(crate) fn copy_prefix(from: &[u8], to: &mut [u8], most: usize) -> usize
    ensures count { result ≡ min most (min (length to.old) (length from.now)) }
    ensures copied { to.new ≡ take result from.now ++ drop result to.old }
    ensures prefix { take result to.new ≡ take result from.now }
    ensures all { from.now ≡ take result to.new ++ drop result from.now }
{
    let count = most.min(to.len()).min(from.len());
    to[..count].copy_from_slice(&from[..count]);
    count
}
