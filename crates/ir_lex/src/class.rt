//! Classes of bytes.
ghost use Rattle.std.specs.Prelude.{◌≡◌, ◌≤◌, length};
ghost use Rattle.ir_lex.specs.Characters.{is_in, is_name_byte, run};

/// A class of bytes.
#[derive(Clone, Copy)]
pub(crate) enum Class {
    /// `0` to `9`.
    Digit,
    /// `0` to `9`, `A` to `F` and `a` to `f`.
    Hexadecimal,
    /// What a name may hold without quotes: letters, digits, `-`, `$`, `.` and `_`.
    Name,
    /// What a string may hold: all but the quote.
    Quoted,
    /// What a comment may hold: all but the line feed.
    Comment,
}

// Each byte that a name may hold without quotes stands at its own place, and a comma at every other.
static NAME_BYTES: [u8; 256] = *b"\
    ,,,,,,,,,,,,,,,,,,,,,,,,,,,,,,,,\
    ,,,,$,,,,,,,,-.,0123456789,,,,,,\
    ,ABCDEFGHIJKLMNOPQRSTUVWXYZ,,,,_\
    ,abcdefghijklmnopqrstuvwxyz,,,,,\
    ,,,,,,,,,,,,,,,,,,,,,,,,,,,,,,,,\
    ,,,,,,,,,,,,,,,,,,,,,,,,,,,,,,,,\
    ,,,,,,,,,,,,,,,,,,,,,,,,,,,,,,,,\
    ,,,,,,,,,,,,,,,,,,,,,,,,,,,,,,,,";

/// Whether a name may hold a byte without quotes.
fn is_name_byte(byte: u8) -> bool
    ensures { result ≡ is_name_byte byte }
{
    NAME_BYTES[byte as usize] != b','
}

impl Class {
    /// Whether a byte is of this class.
    pub(crate) fn holds(self, byte: u8) -> bool
        ensures { result ≡ is_in self byte }
    {
        match self {
            Class::Digit => byte.is_ascii_digit(),
            Class::Hexadecimal => byte.is_ascii_hexdigit(),
            Class::Name => is_name_byte(byte),
            Class::Quoted => byte != b'"',
            Class::Comment => byte != b'\n',
        }
    }
}

/// How many bytes of a class stand at the start.
pub(crate) fn run_len(bytes: &[u8], class: Class) -> usize
    ensures value { result ≡ run class bytes.now }
    ensures within { result ≤ length bytes.now }
{
    let mut at = 0;
    while at < bytes.len() && class.holds(bytes[at]) {
        at += 1;
    }
    at
}
