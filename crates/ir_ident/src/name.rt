//! Names of globals, functions, parameters, results, blocks and types (LangRef, "Identifiers").
ghost use Rattle.std.specs.Prelude.{◌≡◌, ◌≤◌, IfOk, length, take};
ghost use Rattle.ir_ident.specs.Names.{same_name};
ghost use Rattle.ir_ident.specs.Spellings.{IsSpelling, spelled};

use crate::name_key::same_bytes;
use crate::number::ItemNumber;
use std::alloc::{AllocError, Global};
use std::marker::Model;

/// How many bytes of a name stand in the name itself.
const SHORT: usize = 22;

/// The bytes of a name, without its sigil, after its escapes are read. Contracts see a list.
#[derive(Drop)]
pub struct Identifier {
    spelling: Spelling,
}

/// Where the bytes of a name stand.
#[derive(Drop)]
enum Spelling {
    /// In the name itself; those behind its length do not count.
    Short { len: u8, bytes: [u8; SHORT] },
    /// On the heap.
    Long(Box<Vec<u8>>),
}

impl Model for Identifier {
    ghost use Rattle.std.specs.Prelude.{List, ℕ};
    ghost use Rattle.ir_ident.specs.Spellings.{IsSpelling, spelled};

    ghost Value = { List ℕ };

    ghost view = { λ n. spelled n.spelling };

    ghost invariant = { λ n. IsSpelling n.spelling };
}

impl Identifier {
    /// The name of these bytes.
    pub fn from_slice(alloc: Global, bytes: &[u8]) -> Result<Identifier, AllocError>
        ensures { IfOk result (λ n. n ≡ bytes.now) }
    {
        let spelling = if bytes.len() <= SHORT {
            short(bytes)
        } else {
            Spelling::Long(Box::new(alloc, bytes.to_vec(alloc)?)?)
        };
        Ok(Identifier { spelling })
    }

    /// The name's bytes.
    pub fn as_bytes(&self) -> &[u8]
        ensures { result.now ≡ self.now }
    {
        match &self.spelling {
            Spelling::Short { len, bytes } => prefix(bytes, *len),
            Spelling::Long(bytes) => bytes.as_slice(),
        }
    }
}

/// The spelling of few bytes.
fn short(from: &[u8]) -> Spelling
    requires { length from.now ≤ 22 }
    ensures value { spelled result ≡ from.now }
    ensures within { IsSpelling result }
{
    let mut bytes = [0; SHORT];
    let len = from.len();
    bytes[..len].copy_from_slice(from);
    Spelling::Short {
        len: len as u8,
        bytes,
    }
}

/// The first of these bytes.
fn prefix(bytes: &[u8; SHORT], len: u8) -> &[u8]
    requires { len ≤ 22 }
    ensures { result.now ≡ take len bytes.now }
{
    &bytes[..len as usize]
}

/// A name that the text writes, or the number of an unnamed item (LangRef, "Identifiers").
pub enum Name {
    /// A name of its own.
    Named(Identifier),
    /// Unnamed items are counted from 0, each kind in the order of the text.
    Unnamed(ItemNumber),
    /// No name is written: such an item takes the next number. A module that was read whole has none.
    Implicit,
}

impl Drop for Name {
    fn drop(self) {
        match self {
            Name::Named(bytes) => drop(bytes),
            Name::Unnamed(number) => drop(number),
            Name::Implicit => {}
        }
    }
}

impl Name {
    /// Whether this is the same name. One that is not written yet is no other's.
    pub fn is_same(&self, other: &Name) -> bool
        ensures { result ≡ same_name self.now other.now }
    {
        match (self, other) {
            (Name::Named(a), Name::Named(b)) => same_bytes(a.as_bytes(), b.as_bytes()),
            (Name::Unnamed(a), Name::Unnamed(b)) => a.is_same(b),
            _ => false,
        }
    }
}

/// A name where it is used: as an operand, a target, a callee, a base or a type.
#[derive(Drop)]
pub struct NameUse {
    /// The line of the name's own token.
    pub line: u32,
    /// The name.
    pub name: Name,
}

// Few names need the heap, so that a tree of them stays small.
const _: () = prove!(size_of::<NameUse>() <= 40);
