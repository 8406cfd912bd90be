//! The memory of a program of textual LLVM IR that is interpreted: live blocks of plain bytes (LangRef, "Memory Model of
//! LLVM IR", "Global Variables", and the instructions 'alloca', 'load' and 'store').
//!
//! A block has a base, its bytes and a writable mark. Where two blocks are not empty they share no address; an empty block
//! may stand anywhere. An access is of one block alone.
#![tactic(auto)]

mod block;
mod bytes;
mod laws;
mod little;
mod memory;
mod place_end;
mod placing;
mod search;

pub use block::Block;
pub use bytes::Bytes;
pub use laws::{free_keeps_stores, free_undoes_place, memories_stay};
pub use memory::Memory;
pub use place_end::PlaceEnd;
