//! The function that a run begins with.
ghost use Rattle.std.specs.Prelude.{◌≡◌, ◌||◌, option_copied};
ghost use Rattle.ir_check.specs.Hosts.{takes_none};
ghost use Rattle.cg_built.specs.Main.{defines_main, fits_main, has_main, is_main, is_ptr, takes_words, the_main};

use crate::linkage::is_external;
use ir_check::is_i32;
use ir_naming::bytes_of;
use ir_syntax::{Function, Module, Param, TyText, TypeTree};

/// Whether a `main` is defined that other modules see.
pub fn defines_main(m: &Module) -> bool
    ensures { result ≡ defines_main m.now }
{
    the_main(m).is_some()
}

/// Whether such a `main` is defined, of type `i32 ()` or `i32 (i32, ptr)`.
pub fn has_main(m: &Module) -> bool
    ensures { result ≡ has_main m.now }
{
    match the_main(m) {
        Some(function) => fits(function),
        None => false,
    }
}

fn the_main(m: &Module) -> Option<&Function>
    ensures { option_copied result ≡ the_main m.now }
{
    m.functions
        .as_slice()
        .iter()
        .find(|function| is_main(function))
}

fn is_main(function: &Function) -> bool
    ensures { result ≡ is_main function.now }
{
    function.blocks.is_some()
        & is_external(function.linkage)
        & (bytes_of(&function.name) == b"main".as_slice())
}

fn fits(function: &Function) -> bool
    ensures { result ≡ fits_main function.now }
{
    is_i32(&function.result) & fit(function.params.as_slice())
}

fn fit(params: &[Param]) -> bool
    ensures { result ≡ (takes_none params.now || takes_words params.now) }
{
    match params {
        [] => true,
        [count, words] => is_i32(&count.ty) & is_ptr(&words.ty),
        _ => false,
    }
}

fn is_ptr(ty: &Option<TyText>) -> bool
    ensures { result ≡ is_ptr ty.now }
{
    match ty {
        Some(ty) => matches!(ty.tree(), TypeTree::Ptr),
        None => false,
    }
}
