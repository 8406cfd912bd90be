//! A linked program.
ghost use Rattle.std.specs.Prelude.{◌≡◌};

use rv_isa::SymName;
use std::marker::Model;

/// The greatest size of an image, in bytes.
pub const MAX_IMAGE_BYTES: u64 = 67_108_864;

/// The bytes of an image. Contracts see a list.
#[derive(Drop)]
pub struct Bytes {
    bytes: Vec<u8>,
}

impl Model for Bytes {
    ghost use Rattle.std.specs.Prelude.{List, ℕ};

    ghost Value = { List ℕ };

    ghost view = { λ b. b.bytes.items };
}

impl Bytes {
    /// These bytes.
    pub fn from_vec(bytes: Vec<u8>) -> Bytes
        ensures { result ≡ bytes.items }
    {
        Bytes { bytes }
    }

    /// The bytes in order.
    pub fn as_slice(&self) -> &[u8]
        ensures { result.now ≡ self.now }
    {
        self.bytes.as_slice()
    }
}

/// A symbol and its address.
#[derive(Drop)]
pub struct SymbolAddress {
    /// Its name.
    pub name: SymName,
    /// Its address in the machine's memory.
    pub address: u64,
}

/// The addresses of an object's symbols, in their order. Contracts see a list.
#[derive(Drop)]
pub struct ObjectAddresses {
    symbols: Vec<SymbolAddress>,
}

impl Model for ObjectAddresses {
    ghost use Rattle.std.specs.Prelude.{List};
    ghost use Rattle.std.specs.Coded.{coded_list};
    ghost use Rattle.obj_link.specs.declared.image.SymbolAddress.{SymbolAddress};
    ghost use Rattle.obj_link.specs.contracts.image.SymbolAddress as symbol;

    ghost Value = { List SymbolAddress };

    ghost coded = { coded_list symbol.the_row.coded };

    ghost view = { λ a. a.symbols.items };
}

impl ObjectAddresses {
    /// These symbols, in their order.
    pub fn from_vec(symbols: Vec<SymbolAddress>) -> ObjectAddresses
        ensures { result ≡ symbols.items }
    {
        ObjectAddresses { symbols }
    }

    /// The symbols in order.
    pub fn as_slice(&self) -> &[SymbolAddress]
        ensures { result.now ≡ self.now }
    {
        self.symbols.as_slice()
    }
}

/// The addresses of all symbols: those of the runtime, then those of each object. Contracts see a
/// list.
#[derive(Drop)]
pub struct Addresses {
    objects: Vec<ObjectAddresses>,
}

impl Model for Addresses {
    ghost use Rattle.std.specs.Prelude.{List};
    ghost use Rattle.std.specs.Coded.{coded_list};
    ghost use Rattle.obj_link.specs.declared.image.SymbolAddress.{SymbolAddress};
    ghost use Rattle.obj_link.specs.contracts.image.SymbolAddress as symbol;

    ghost Value = { List (List SymbolAddress) };

    ghost coded = { coded_list (coded_list symbol.the_row.coded) };

    ghost view = { λ a. a.objects.items };
}

impl Addresses {
    /// These objects' symbols, in their order.
    pub fn from_vec(objects: Vec<ObjectAddresses>) -> Addresses
        ensures { result ≡ objects.items }
    {
        Addresses { objects }
    }

    /// The symbols of each object in order.
    pub fn as_slice(&self) -> &[ObjectAddresses]
        ensures { result.now ≡ self.now }
    {
        self.objects.as_slice()
    }
}

/// A linked program, as it lies in memory from address 0x10000 on.
#[derive(Drop)]
pub struct Image {
    /// The bytes, the first of them at address 0x10000.
    pub bytes: Bytes,
    /// The number of instructions, those of the runtime among them.
    pub instructions: u64,
    /// The addresses of the symbols of the runtime and of each object.
    pub addresses: Addresses,
}
