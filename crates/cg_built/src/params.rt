//! Parameters of functions.
ghost use Rattle.std.specs.Prelude.{◌≡◌};
ghost use Rattle.cg_built.specs.Params.{place_of};

use ir_ident::Name;
use ir_syntax::Param;

/// The place of the parameter of a name, counted from 0.
pub fn place_among(name: &Name, params: &[Param]) -> Option<usize>
    ensures { result ≡ place_of name.now params.now }
{
    params.iter().position(|param| param.name.is_same(name))
}
