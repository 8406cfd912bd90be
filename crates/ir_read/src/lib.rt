//! The reader of modules of textual LLVM IR (LLVM Language Reference Manual, "Module Structure").
#![tactic(auto)]

mod module;
mod reading;

pub use ir_entities::{Entities, Entity};
pub use module::{read_module, texts_have_one_answer};
pub use reading::read_entities;
