//! The combinators of the grammar of textual LLVM IR, each a relation and an online reader, and
//! what every reader of a part of it uses.
#![tactic(auto)]

mod bracket;
mod commas;
mod element;
mod enclosed;
mod end;
mod found;
mod repeated;
mod token;

pub use bracket::Bracket;
pub use commas::{
    read_commas, read_commas_some, read_each_after_comma, skip_commas, skip_each_after_comma,
};
pub use element::{Element, Fold};
pub use enclosed::skip_enclosed;
pub use end::End;
pub use found::push_found;
pub use repeated::{append_each, fold_each, read_each, skip_each};
pub use token::{bad, word};
