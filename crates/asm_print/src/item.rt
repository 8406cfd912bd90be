//! Items of a text.
ghost use Rattle.std.specs.Prelude.{◌≡◌, ◌++◌, [], ◌∷◌, All, OnOk};
ghost use Rattle.rv_isa.specs.Encoding.{IsInst};
ghost use Rattle.rv_isa.specs.declared.statement.Statement.{Statement};
ghost use Rattle.asm_print.specs.Items.{export_of, items_text, statements_text};

use crate::instruction::{push_code, push_text};
use crate::name::push_name;
use rv_isa::Inst;
use std::alloc::AllocError;

/// Writes a symbol of the text section, which other objects see where it is exported, and its code.
pub fn push_item(
    out: &mut Vec<u8>,
    name: &[u8],
    exported: bool,
    code: &[Inst],
) -> Result<(), AllocError>
    requires { All IsInst code.now }
    ensures { OnOk result (out.new.items ≡ out.old.items
        ++ items_text (record { name = name.now; exported = exported; code = code.now } ∷ [])) }
{
    push_section(out)?;
    push_export(out, name, exported)?;
    push_alignment(out)?;
    push_definition(out, name)?;
    push_code(out, code)?;
    Ok(())
}

fn push_section(out: &mut Vec<u8>) -> Result<(), AllocError>
    ensures { OnOk result (out.new.items ≡ out.old.items ++ statements_text (Statement.Text ∷ [])) }
{
    push_text(out, "\t.text\n")
}

/// Writes the line that exports a name, where it is exported.
fn push_export(out: &mut Vec<u8>, name: &[u8], exported: bool) -> Result<(), AllocError>
    ensures { OnOk result (out.new.items ≡ out.old.items ++ statements_text (export_of exported name.now)) }
{
    if !exported {
        return Ok(());
    }
    push_text(out, "\t.globl\t")?;
    push_name(out, name)?;
    push_text(out, "\n")
}

fn push_alignment(out: &mut Vec<u8>) -> Result<(), AllocError>
    ensures { OnOk result (out.new.items ≡ out.old.items ++ statements_text (Statement.Align ∷ [])) }
{
    push_text(out, "\t.p2align\t2\n")
}

fn push_definition(out: &mut Vec<u8>, name: &[u8]) -> Result<(), AllocError>
    ensures { OnOk result (out.new.items ≡ out.old.items ++ statements_text (Statement.Define name.now ∷ [])) }
{
    push_name(out, name)?;
    push_text(out, ":\n")
}
