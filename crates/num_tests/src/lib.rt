//! Tests of the operations on integers, with values from outside. They stand apart from the crate that they call, since a
//! crate with tests is proved twice.
#![tactic(auto)]

#[cfg(test)]
mod bits;
#[cfg(test)]
mod call;
#[cfg(test)]
mod choices;
#[cfg(test)]
mod comparisons;
#[cfg(test)]
mod counts;
#[cfg(test)]
mod quotients;
#[cfg(test)]
mod row;
#[cfg(test)]
mod sums;
