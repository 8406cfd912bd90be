//! The whole compiler: it reads a module, and answers with its assembly, with a run of it, or with a refusal.
#![tactic(auto)]

mod answer;
mod compile;
mod execute;
mod run;
mod serve;
mod status;
mod symbol;
mod tell;

pub use run::run_llc;
pub use status::Status;
