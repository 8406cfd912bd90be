//! Instructions prepared for running: operands are slots and constants, types are widths, strides and alignments, and a callee is
//! known by its place.
#![tactic(auto)]

mod accesses;
mod align;
mod application;
mod calls;
mod code;
mod computation;
mod copying;
mod elements;
mod host;
mod operands;
mod operation;
mod pair;
mod place;
mod preparing;
mod steps;
mod values;

pub use align::Align;
pub use application::Application;
pub use code::Code;
pub use computation::Computation;
pub use copying::Copying;
pub use operation::Operation;
pub use pair::Pair;
pub use place::Place;
pub use preparing::code_of;
pub use steps::{Step, Steps};
