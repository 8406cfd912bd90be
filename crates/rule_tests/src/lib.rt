//! Tests of the rules that modules keep: texts that keep and that break each rule, at each limit and just beyond it, and what
//! is told of them.
#![tactic(auto)]

#[cfg(test)]
mod alias_tests;
#[cfg(test)]
mod call_tests;
#[cfg(test)]
mod defined_tests;
#[cfg(test)]
mod gep_tests;
#[cfg(test)]
mod given_tests;
#[cfg(test)]
mod global_tests;
#[cfg(test)]
mod op_tests;
#[cfg(test)]
mod phi_tests;
#[cfg(test)]
mod prune_tests;
#[cfg(test)]
mod unname_tests;
