//! Where a running function keeps its values: a slot for each name, operands as slots and constants.
#![tactic(auto)]

mod input;
mod names;
mod slots;
mod source;
mod width;

pub use input::{Input, Inputs};
pub use slots::SlotMap;
pub use source::Source;
pub use width::Width;
