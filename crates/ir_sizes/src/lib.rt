//! Types of textual LLVM IR measured, and those that have no size (LangRef, "Structure Type" and "Data Layout").
#![tactic(auto)]

mod extent;
mod measured;
mod named;
mod replaced;
mod rounds;
mod sized;
mod table;

pub use extent::Extent;
pub use named::NamedTypes;
pub use rounds::table_of;
pub use sized::{extent_of, tree_extent_of, unsized_lines};
pub use table::Table;
