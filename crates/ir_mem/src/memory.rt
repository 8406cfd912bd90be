//! The memory of a program.
ghost use Rattle.std.specs.Prelude.{◌≡◌, ◌<◌, ◌≤◌, true, [], if◌then◌else◌, is_some, option_map, option_copied, IfNone, length, OnOk, OnErr, MatchResult, IsTrue};
ghost use Rattle.std.specs.List.{list_any};
ghost use Rattle.ir_mem.specs.Bytes.{to_little};
ghost use Rattle.ir_mem.specs.Memory.{IsMemory, block_at, bytes_from, can_access, holds, loaded, stored, with_bytes};
ghost use Rattle.ir_mem.specs.Placing.{IsNotPlaced, begins, can_place, freed, fresh, placed, sealed};

use crate::block::Block;
use crate::bytes::Bytes;
use crate::little::little;
use crate::place_end::PlaceEnd;
use crate::placing::can_place;
use crate::search::{begun, holder, last_at};
use std::alloc::Global;
use std::marker::Model;

/// The live blocks of a program, in the order of their bases, and those of one base in the order in which they were
/// placed. Contracts see a list.
pub struct Memory {
    blocks: Vec<Block>,
}

impl Model for Memory {
    ghost use Rattle.std.specs.Prelude.{List};
    ghost use Rattle.std.specs.Coded.{coded_list};
    ghost use Rattle.ir_mem.specs.declared.block.Block.{Block};
    ghost use Rattle.ir_mem.specs.contracts.block.Block as block;
    ghost use Rattle.ir_mem.specs.Memory.{IsMemory};

    ghost Value = { List Block };

    ghost coded = { coded_list block.the_row.coded };

    ghost view = { λ m. m.blocks.items };

    ghost invariant = { λ m. IsMemory m.blocks.items };
}

impl Drop for Memory {
    fn drop(self) {
        let Memory { blocks } = self;
        drop(blocks);
    }
}

impl Memory {
    /// A memory without blocks.
    pub fn new(alloc: Global) -> Memory
        ensures { result ≡ [] }
    {
        Memory {
            blocks: Vec::new(alloc),
        }
    }

    /// The live blocks: none wraps, and each precedes those behind it.
    pub fn blocks(&self) -> &[Block]
        ensures value { result.now ≡ self.now }
        ensures memory { IsMemory self.now }
    {
        self.blocks.as_slice()
    }

    /// Places a writable block, each byte of which is `fill`. A memory that has no place for it, or that gets no memory
    /// for its bytes, is as it was.
    pub fn place(
        &mut self,
        alloc: Global,
        at: u64,
        size: u64,
        align: u64,
        fill: u8,
    ) -> Result<(), PlaceEnd>
        requires { 0 < align }
        ensures cause { MatchResult result
            (λ _. IsTrue (can_place self.old at size align))
            (IsNotPlaced self.old at size align) }
        ensures ok { OnOk result (self.new ≡ placed (fresh at size fill) self.old) }
        ensures err { OnErr result (self.new ≡ self.old) }
    {
        if !can_place(self.blocks.as_slice(), at, size, align) {
            return Err(PlaceEnd::Taken { at });
        }
        let Ok(bytes) = Bytes::filled(alloc, size as usize, fill) else {
            return Err(PlaceEnd::NoMemory);
        };
        let block = Block {
            base: at,
            bytes,
            writable: true,
        };
        let place = begun(self.blocks.as_slice(), at);
        match self.blocks.insert(place, block) {
            Ok(()) => Ok(()),
            Err(_) => Err(PlaceEnd::NoMemory),
        }
    }

    /// Places a block that has these bytes, and that a store may change or not. A memory that has no place for it, or that
    /// gets no memory, is as it was.
    pub fn place_bytes(
        &mut self,
        at: u64,
        align: u64,
        bytes: Vec<u8>,
        writable: bool,
    ) -> Result<(), PlaceEnd>
        requires { 0 < align }
        ensures cause { MatchResult result
            (λ _. IsTrue (can_place self.old at (length bytes.items) align))
            (IsNotPlaced self.old at (length bytes.items) align) }
        ensures ok { OnOk result (self.new ≡ placed (record { base = at; bytes = bytes.items; writable = writable }) self.old) }
        ensures err { OnErr result (self.new ≡ self.old) }
    {
        let bytes = Bytes::from_vec(bytes);
        if !can_place(self.blocks.as_slice(), at, bytes.len() as u64, align) {
            return Err(PlaceEnd::Taken { at });
        }
        let block = Block {
            base: at,
            bytes,
            writable,
        };
        let place = begun(self.blocks.as_slice(), at);
        match self.blocks.insert(place, block) {
            Ok(()) => Ok(()),
            Err(_) => Err(PlaceEnd::NoMemory),
        }
    }

    /// Whether one live block holds a range that is not empty and, for a write, is writable.
    pub fn allows(&self, at: u64, size: u64, write: bool) -> bool
        requires { 0 < size }
        ensures { result ≡ can_access self.now at size write }
    {
        match holder(self.blocks.as_slice(), at, size) {
            Some(place) => !write | self.blocks[place].writable,
            None => false,
        }
    }

    /// The bytes of a range that is not empty, where one live block holds it.
    pub fn bytes(&self, at: u64, size: u64) -> Option<&[u8]>
        requires { 0 < size }
        ensures { option_copied result ≡ option_map (bytes_from at size) (block_at self.now at size) }
    {
        let place = holder(self.blocks.as_slice(), at, size)?;
        let block = &self.blocks[place];
        let from = (at - block.base) as usize;
        Some(&block.bytes.as_slice()[from..from + size as usize])
    }

    /// The number that the bytes of a range are, the lowest first, where one live block holds it.
    pub fn load(&self, at: u64, size: u8) -> Option<u64>
        requires some { 0 < size }
        requires few { size ≤ 8 }
        ensures { result ≡ loaded self.now at size }
    {
        let bytes = self.bytes(at, u64::from(size))?;
        Some(little(bytes))
    }

    /// Writes the lowest bytes of a number, the lowest first, where one live block holds the range and is writable; any
    /// other range changes nothing.
    pub fn store(&mut self, at: u64, size: u8, value: u64) -> Option<()>
        requires some { 0 < size }
        requires few { size ≤ 8 }
        ensures found { is_some result ≡ can_access self.old at size true }
        ensures stored { self.new ≡ stored at (to_little size value) self.old }
        ensures none { IfNone result (self.new ≡ self.old) }
    {
        let place = holder(self.blocks.as_slice(), at, u64::from(size))?;
        put_number(&mut self.blocks[place], at, size, value)
    }

    /// Writes bytes, at least one, where one live block holds their range and is writable; any other range changes nothing.
    pub fn write(&mut self, at: u64, bytes: &[u8]) -> Option<()>
        requires { 0 < length bytes.now }
        ensures found { is_some result ≡ can_access self.old at (length bytes.now) true }
        ensures stored { self.new ≡ stored at bytes.now self.old }
        ensures none { IfNone result (self.new ≡ self.old) }
    {
        let place = holder(self.blocks.as_slice(), at, bytes.len() as u64)?;
        put_bytes(&mut self.blocks[place], at, bytes)
    }

    /// Takes the writable mark from the last placed block that begins at an address.
    pub fn seal(&mut self, at: u64) -> Option<()>
        ensures found { is_some result ≡ list_any (begins at) self.old }
        ensures sealed { self.new ≡ sealed at self.old }
        ensures none { IfNone result (self.new ≡ self.old) }
    {
        let place = last_at(self.blocks.as_slice(), at)?;
        self.blocks[place].writable = false;
        Some(())
    }

    /// Removes the last placed block that begins at an address.
    pub fn free(&mut self, at: u64) -> Option<()>
        ensures found { is_some result ≡ list_any (begins at) self.old }
        ensures freed { self.new ≡ freed at self.old }
        ensures none { IfNone result (self.new ≡ self.old) }
    {
        let place = last_at(self.blocks.as_slice(), at)?;
        let block = self.blocks.remove(place);
        drop(block);
        Some(())
    }
}

/// Writes the lowest bytes of a number into a block that holds their range, if it is writable.
fn put_number(block: &mut Block, at: u64, size: u8, value: u64) -> Option<()>
    requires { holds at size block.old ≡ true }
    ensures found { is_some result ≡ block.old.writable }
    ensures put { block.new ≡ (if block.old.writable then with_bytes at (to_little size value) block.old else block.old) }
{
    if !block.writable {
        return None;
    }
    let from = (at - block.base) as usize;
    block.bytes.put(from, usize::from(size), value);
    Some(())
}

/// Writes bytes into a block that holds their range, if it is writable.
fn put_bytes(block: &mut Block, at: u64, bytes: &[u8]) -> Option<()>
    requires { holds at (length bytes.now) block.old ≡ true }
    ensures found { is_some result ≡ block.old.writable }
    ensures put { block.new ≡ (if block.old.writable then with_bytes at bytes.now block.old else block.old) }
{
    if block.writable {
        let from = (at - block.base) as usize;
        block.bytes.write(from, bytes);
        Some(())
    } else {
        None
    }
}
