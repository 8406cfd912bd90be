//! The bytes of a block.
ghost use Rattle.std.specs.Prelude.{◌≡◌, ◌+◌, ◌≤◌, ◌++◌, IfOk, length, replicate, take, drop};
ghost use Rattle.ir_mem.specs.Bytes.{to_little};

use crate::little::put_little;
use std::alloc::{AllocError, Global};
use std::marker::Model;

/// The bytes of a block. Contracts see a list.
#[derive(Drop)]
pub struct Bytes {
    bytes: Vec<u8>,
}

impl Model for Bytes {
    ghost use Rattle.std.specs.Prelude.{List, ℕ};

    ghost Value = { List ℕ };

    ghost view = { λ b. b.bytes.items };
}

impl Bytes {
    /// So many bytes, all the same.
    pub fn filled(alloc: Global, size: usize, fill: u8) -> Result<Bytes, AllocError>
        ensures { IfOk result (λ bytes. bytes ≡ replicate size fill) }
    {
        let bytes = vec![in alloc; fill; size]?;
        Ok(Bytes { bytes })
    }

    /// These bytes.
    pub fn from_vec(bytes: Vec<u8>) -> Bytes
        ensures { result ≡ bytes.items }
    {
        Bytes { bytes }
    }

    /// The bytes in order.
    pub fn as_slice(&self) -> &[u8]
        ensures { result.now ≡ self.now }
    {
        self.bytes.as_slice()
    }

    /// How many bytes there are.
    pub fn len(&self) -> usize
        ensures { result ≡ length self.now }
    {
        self.bytes.len()
    }

    /// Writes bytes from a place on.
    pub(crate) fn write(&mut self, from: usize, bytes: &[u8])
        requires { from + length bytes.now ≤ length self.old }
        ensures { self.new ≡ take from self.old ++ bytes.now ++ drop (from + length bytes.now) self.old }
    {
        self.bytes[from..from + bytes.len()].copy_from_slice(bytes);
    }

    /// Writes the lowest bytes of a number from a place on, the lowest first.
    pub(crate) fn put(&mut self, from: usize, size: usize, number: u64)
        requires { from + size ≤ length self.old }
        ensures { self.new ≡ take from self.old ++ to_little size number ++ drop (from + size) self.old }
    {
        put_little(&mut self.bytes[from..from + size], number);
    }
}
