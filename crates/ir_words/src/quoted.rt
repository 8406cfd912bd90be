//! Names in quotes, with their escapes read (LangRef, "Identifiers").
ghost use Rattle.std.specs.Prelude.{◌≡◌, ◌≤◌, take};
ghost use Rattle.ir_lex.specs.Escapes.{unescaped};

use ir_lex::{escape_byte, escape_len, rest_of};

/// How many bytes of a name tell its class: more than a name has that is known.
pub(crate) const TELLING: usize = 40;

/// Writes the bytes that a name in quotes stands for, as many as tell its class, and answers how many.
pub(crate) fn unescape(quoted: &[u8], name: &mut [u8; TELLING]) -> usize
    ensures value { take result name.new ≡ take 40 (unescaped quoted.now) }
    ensures within { result ≤ 40 }
{
    let mut at = 0;
    let mut len = 0;
    while at < quoted.len() && len < TELLING {
        let rest = rest_of(quoted, at);
        name[len] = escape_byte(rest);
        len += 1;
        at += escape_len(rest);
    }
    len
}
