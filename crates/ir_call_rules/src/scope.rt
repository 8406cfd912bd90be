//! What the rules on the calls of one function look up.
use ir_aliases::AliasEnds;
use ir_ident::NameMap;
use ir_scope::Scalar;

/// What names stand for in a function.
#[derive(Drop)]
pub(crate) struct Scope<'a> {
    /// The types of local names.
    pub(crate) locals: &'a NameMap<'a, Scalar>,
    /// The module, and the functions that its aliases stand for.
    pub(crate) ends: &'a AliasEnds<'a>,
}
