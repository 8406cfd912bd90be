//! Tests of `ty_core`, of types at worked values, and of the checks of modules, on modules at each limit and just beyond it:
//! texts, and what is told of them.
#![tactic(auto)]

#[cfg(test)]
mod layout_tests;
#[cfg(test)]
mod limits_tests;
#[cfg(test)]
mod mention_tests;
pub mod modules;
#[cfg(test)]
mod plan_tests;
#[cfg(test)]
mod planned_tests;
#[cfg(test)]
mod repeated_tests;
#[cfg(test)]
mod sized_tests;
