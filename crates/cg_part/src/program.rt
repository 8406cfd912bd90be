//! The linked image of a module.
ghost use Rattle.std.specs.Prelude.{◌∷◌, [], IfOk, IfErr};
ghost use Rattle.asm_read.specs.Assembly.{Assembles};
ghost use Rattle.cg_built.specs.Unbuilt.{IsBuilt};
ghost use Rattle.cg_part.specs.Linking.{AreUnlinked, IsImageOf};
ghost use Rattle.cg_part.specs.Text.{part_text};

use crate::text::text_of;
use asm_read::{AsmRefusal, Object, assemble};
use ir_syntax::Module;
use obj_link::{Image, Unlinked, link_distinct};
use std::alloc::{AllocError, Global};

/// The image of a module: its text, assembled and linked with the runtime. The text is never refused by the
/// assembler, and defines no name of the runtime.
///
/// # Errors
///
/// Those of the linker, of which a module without a `main` gets `Undefined`.
pub fn program_of(alloc: Global, m: &Module) -> Result<Image, Unlinked>
    requires { IsBuilt m.now }
    ensures image { IfOk result (IsImageOf (part_text m.now ∷ [])) }
    ensures unlinked { IfErr result (AreUnlinked (part_text m.now ∷ [])) }
{
    match object_of(alloc, m) {
        Ok(object) => link_distinct(alloc, &[object]),
        Err(_) => Err(Unlinked::NoMemory),
    }
}

/// The object of the module's text.
fn object_of(alloc: Global, m: &Module) -> Result<Object, AllocError>
    requires { IsBuilt m.now }
    ensures { IfOk result (Assembles (part_text m.now)) }
{
    let text = text_of(alloc, m)?;
    match assemble(alloc, &text) {
        Ok(object) => Ok(object),
        Err(AsmRefusal::NoMemory) => Err(AllocError),
        Err(AsmRefusal::Line { .. }) => unreachable!(),
    }
}
