//! Tests of the whole program over memory, and of the texts and the images of modules. They stand apart from the crates
//! that they call, since a crate with tests is proved twice.
#![tactic(auto)]

#[cfg(test)]
mod compiling;
#[cfg(test)]
mod limits;
#[cfg(test)]
mod memory;
#[cfg(test)]
mod programs;
#[cfg(test)]
mod refusals;
#[cfg(test)]
mod running;
#[cfg(test)]
mod streams;
