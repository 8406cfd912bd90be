//! Tests of the readers of textual LLVM IR: texts, and what is read of them.
#![tactic(auto)]

#[cfg(test)]
mod cuts;
#[cfg(test)]
mod places;
#[cfg(test)]
mod rows;
#[cfg(test)]
mod tables;
#[cfg(test)]
mod told;
