//! Tests of the tokens of textual LLVM IR, of their classes, and of what the readers of its parts make of them.
#![tactic(auto)]

#[cfg(test)]
mod classes;
#[cfg(test)]
mod parts;
#[cfg(test)]
mod tokens;
