//! Instructions of RV64IM: their fields and their 32-bit words; and the statements of assembly, with their spelling.
//!
//! Sections are of the RISC-V Instruction Set Manual, Volume I: Unprivileged Architecture.
#![tactic(auto)]

mod decoding;
mod encoding;
mod entries;
mod inst;
mod op;
mod register;
mod row;
mod shape;
mod statement;
mod symbol;

pub use encoding::{decode, decoding_is_undone, encode, encoding_is_undone, words_fit};
pub use entries::{mnemonic, row_of, shape_of};
pub use inst::{Inst, Line, UNIMP};
pub use op::Op;
pub use register::{A0, A1, A7, RA, SP, T0, T1, ZERO, register_name};
pub use row::Row;
pub use shape::Shape;
pub use statement::Statement;
pub use symbol::SymName;
