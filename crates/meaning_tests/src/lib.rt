//! Tests of the meaning of modules, with values from outside. They stand apart from the crates that they call, since a
//! crate with tests is proved twice.
#![tactic(auto)]

#[cfg(test)]
mod codes;
#[cfg(test)]
mod memories;
#[cfg(test)]
mod programs;
#[cfg(test)]
mod script;
#[cfg(test)]
mod slots;
#[cfg(test)]
mod variables;
#[cfg(test)]
mod ways;
