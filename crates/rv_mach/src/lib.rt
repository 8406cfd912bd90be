//! The machine that runs linked images: the instructions of [`rv_isa::Op`] over an image and a stack,
//! with calls of its environment that put a byte, get a byte and exit.
//!
//! Sections are of the RISC-V Instruction Set Manual, Volume I: Unprivileged Architecture.
#![tactic(auto)]

mod action;
mod effect;
mod laws;
mod machine;
mod memory;
mod place;
mod size;
mod stop;
mod values;

pub use laws::{
    images_stay, places_are_few, registers_are_set, registers_stay_whole, runs_join,
    runs_show_their_way, stopped_machine_stays, straight_code_runs, words_are_code,
};
pub use machine::Machine;
pub use stop::{Stop, TrapKind};
