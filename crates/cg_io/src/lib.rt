//! Reading and writing the outside, with each failure counted.
//!
//! A [`Source`] gives bytes and a [`Sink`] takes them. Both count their failures, and a call answers
//! that it failed only where that count rose, so no program can make a failure up. [`read_all`] reads
//! a source to its end and [`write_all`] writes all of a text. [`MemSource`] and [`MemSink`] are in
//! memory and fail at chosen calls; [`StdSource`] and [`StdSink`] stand for the real streams.
#![tactic(auto)]

mod errors;
mod memory;
mod slices;
mod standard;
mod streams;
mod whole;

pub use errors::{Failed, ReadEnd, WriteFault};
pub use memory::{MemSink, MemSource};
pub use standard::{StdSink, StdSource};
pub use std::alloc::AllocError as NoMemory;
pub use streams::{Sink, Source};
pub use whole::{read_all, write_all};
