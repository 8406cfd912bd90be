//! The text of the part.
ghost use Rattle.std.specs.Prelude.{◌≡◌, ◌++◌, ◌∷◌, [], OnOk, IfOk, All, map, IsTrue};
ghost use Rattle.std.specs.List.{filter};
ghost use Rattle.asm_print.specs.Items.{items_text};
ghost use Rattle.asm_print.specs.Resolving.{Resolves};
ghost use Rattle.cg_built.specs.Built.{IsBuiltFunction};
ghost use Rattle.cg_built.specs.Unbuilt.{IsBuilt};
ghost use Rattle.cg_built.specs.Definitions.{has_body};
ghost use Rattle.cg_part.specs.Text.{declared_symbols, defined_symbols, item_of, part_text};

use crate::code::code_of;
use asm_print::push_item;
use ir_naming::bytes_of;
use ir_syntax::{Function, Module};
use std::alloc::{AllocError, Global};

/// The text of the one part: the functions that a module of the built set defines, in its order.
pub fn text_of(alloc: Global, m: &Module) -> Result<Vec<u8>, AllocError>
    requires { IsBuilt m.now }
    ensures text { IfOk result (λ text. text.items ≡ part_text m.now) }
    // Each symbol that the module defines stands in it, no other does, and it needs none from elsewhere.
    ensures resolves { IfOk result (λ text. Resolves (defined_symbols m.now) (declared_symbols m.now) (text.items ∷ [])) }
{
    let mut out = Vec::new(alloc);
    push_functions(alloc, &mut out, m.functions.as_slice())?;
    Ok(out)
}

fn push_functions(
    alloc: Global,
    out: &mut Vec<u8>,
    functions: &[Function],
) -> Result<(), AllocError>
    requires { All IsBuiltFunction (filter has_body functions.now) }
    ensures { OnOk result (out.new.items
        ≡ out.old.items ++ items_text (map item_of (filter has_body functions.now))) }
{
    for function in functions {
        push_definition(alloc, out, function)?;
    }
    Ok(())
}

/// Writes a function that is defined; one that is declared has no text.
fn push_definition(alloc: Global, out: &mut Vec<u8>, function: &Function) -> Result<(), AllocError>
    requires { IsTrue (has_body function.now) → IsBuiltFunction function.now }
    ensures { OnOk result (out.new.items
        ≡ out.old.items ++ items_text (map item_of (filter has_body (function.now ∷ [])))) }
{
    if function.blocks.is_some() {
        push_function(alloc, out, function)
    } else {
        Ok(())
    }
}

fn push_function(alloc: Global, out: &mut Vec<u8>, function: &Function) -> Result<(), AllocError>
    requires { IsBuiltFunction function.now }
    ensures { OnOk result (out.new.items ≡ out.old.items ++ items_text (item_of function.now ∷ [])) }
{
    let code = code_of(alloc, function)?;
    push_item(out, bytes_of(&function.name), true, &code)?;
    Ok(())
}
