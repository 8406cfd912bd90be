//! Operations on values, as the meaning of a module has them: on numbers those of integers, with poison and undefined behaviour.
#![tactic(auto)]

mod addresses;
mod arithmetic;
mod choices;
mod functions;
mod sign;

pub use addresses::{added, scaled};
pub use arithmetic::{binary, compared};
pub use choices::{cast, selected};
pub use functions::applied;
