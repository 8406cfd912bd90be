//! Names of symbols as the assembly spells them, written at the end of a text.
ghost use Rattle.std.specs.Prelude.{◌≡◌, ◌++◌, OnOk};
ghost use Rattle.std.specs.List.{flat_map};
ghost use Rattle.rv_isa.specs.Symbol.{escaped, spelled};

use crate::instruction::push_text;
use asm_line::is_bare;
use std::alloc::AllocError;

/// Writes a name: as it is where it may stand without quotes, else with escapes between quotes.
pub fn push_name(out: &mut Vec<u8>, name: &[u8]) -> Result<(), AllocError>
    ensures { OnOk result (out.new.items ≡ out.old.items ++ spelled name.now) }
{
    if is_bare(name) {
        return out.extend_from_slice(name);
    }
    push_text(out, "\"")?;
    push_escapes(out, name)?;
    push_text(out, "\"")
}

/// Writes the bytes of a name as they stand between quotes.
fn push_escapes(out: &mut Vec<u8>, name: &[u8]) -> Result<(), AllocError>
    ensures { OnOk result (out.new.items ≡ out.old.items ++ flat_map escaped name.now) }
{
    for byte in name {
        push_escape(out, *byte)?;
    }
    Ok(())
}

fn push_escape(out: &mut Vec<u8>, byte: u8) -> Result<(), AllocError>
    ensures { OnOk result (out.new.items ≡ out.old.items ++ escaped byte) }
{
    match byte {
        b'"' => push_text(out, "\\\""),
        b'\\' => push_text(out, "\\\\"),
        0x20..=0x7e => out.extend_from_slice(&[byte]),
        _ => out.extend_from_slice(&[
            b'\\',
            b'0' + byte / 64,
            b'0' + byte / 8 % 8,
            b'0' + byte % 8,
        ]),
    }
}
