//! What a function says before its body.
use ir_ident::NameUse;
use ir_syntax::{Params, TyText, Visibility};

/// The prototype of a function (LangRef, "Functions").
#[derive(Drop)]
pub struct Prototype {
    /// How it is seen from outside.
    pub visibility: Visibility,
    /// The type of what it returns; none for `void`.
    pub result: Option<TyText>,
    /// Its name.
    pub name: NameUse,
    /// Its parameters.
    pub params: Params,
}
