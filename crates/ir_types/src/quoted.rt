//! What the bytes between quotes stand for (LangRef, "Identifiers").
ghost use Rattle.std.specs.Prelude.{◌≡◌, IfOk};
ghost use Rattle.ir_lex.specs.Escapes.{unescaped};

use ir_lex::{escape_byte, escape_len, rest_of};
use std::alloc::{AllocError, Global};

/// The bytes that these stand for once their escapes are read.
pub fn unescaped(alloc: Global, quoted: &[u8]) -> Result<Vec<u8>, AllocError>
    ensures { IfOk result (λ bytes. bytes.items ≡ unescaped quoted.now) }
{
    let mut bytes = Vec::new(alloc);
    let mut at = 0;
    while at < quoted.len() {
        let rest = rest_of(quoted, at);
        bytes.push(escape_byte(rest))?;
        at += escape_len(rest);
    }
    Ok(bytes)
}
