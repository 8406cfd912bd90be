//! A module whose variables have addresses: where global names lead, what constants stand for, and the layouts of types.
#![tactic(auto)]

mod addresses;
mod constants;
mod loaded;

pub use constants::{bits_of, narrowed};
pub use loaded::LoadedModule;
