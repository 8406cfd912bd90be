//! What the names of a module of textual LLVM IR stand for (LangRef, "Identifiers"): global names for items, local names for
//! values of a type; which operands a type has; and which alignments are written rightly.
#![tactic(auto)]

mod align;
mod globals;
mod item;
mod locals;
mod operands;
mod results;
mod scalar;

pub use align::is_aligned;
pub use globals::global_items;
pub use item::GlobalItem;
pub use locals::local_scalars;
pub use operands::{operand_fits, value_fits};
pub use results::op_scalar;
pub use scalar::{Scalar, maybe_scalar, scalar_of};
