//! The modules of textual LLVM IR that are compiled today, and the first line of any other that is not built yet.
#![tactic(auto)]

mod built;
mod linkage;
mod params;
mod start;

pub use built::unbuilt;
pub use params::place_among;
pub use start::{defines_main, has_main};
