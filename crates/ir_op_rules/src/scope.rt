//! What the rules on the parts of one function look up.
use ir_ident::NameMap;
use ir_scope::Scalar;
use ir_sizes::NamedTypes;
use ir_syntax::TyText;

/// What the names in a function stand for, and what it returns.
#[derive(Drop)]
pub(crate) struct Scope<'a> {
    /// The types of local names.
    pub(crate) locals: &'a NameMap<'a, Scalar>,
    /// The named types.
    pub(crate) types: &'a NamedTypes<'a>,
    /// The type of what the function returns; none for `void`.
    pub(crate) returned: &'a Option<TyText>,
}
