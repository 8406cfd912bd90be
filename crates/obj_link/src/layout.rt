//! Where the sections of each object lie, and the addresses of its symbols.
ghost use Rattle.std.specs.Prelude.{◌≡◌, ◌≤◌, ◌+◌, ◌-◌, ◌*◌, ◌%◌, ◌^◌, ◌+ℤ◌, ◌++◌, ℕ, ℤ, pos, negsuc, List, length, map, filter, min, IfOk, OnOk};
ghost use Rattle.obj_link.specs.Layout.{size_of, image_size, sections_of, low_64, address_in, addressed, addresses, globals};

use crate::image::{Addresses, ObjectAddresses, SymbolAddress};
use crate::inputs::Inputs;
use crate::sections::SectionAddresses;
use asm_read::{Object, ObjectSymbol};
use rv_isa::SymName;
use std::alloc::{AllocError, Global};

/// The address at which an image begins.
pub const IMAGE_BEGIN: u64 = 0x1_0000;

/// The size of the text of an object in bytes, or 2^64 - 1 where that is greater.
pub fn text_size(object: &Object) -> u64
    ensures { result ≡ min (size_of object.now) (2 ^ 64 - 1) }
{
    (object.words.as_slice().len() as u64).saturating_mul(4)
}

/// The size of the image in bytes, or 2^64 - 1 where that is greater.
pub fn total_size(inputs: &Inputs<'_>) -> u64
    ensures { result ≡ min (image_size inputs.now) (2 ^ 64 - 1) }
{
    let mut size = 0u64;
    for index in 0..inputs.len() {
        size = size.saturating_add(text_size(inputs.get(index)));
    }
    size
}

/// The addresses of the symbols of each object.
pub fn all_addresses(alloc: Global, inputs: &Inputs<'_>) -> Result<Addresses, AllocError>
    requires { image_size inputs.now ≤ 67108864 }
    ensures { IfOk result (λ a. a ≡ addresses inputs.now) }
{
    let mut objects = Vec::new(alloc);
    let mut text = IMAGE_BEGIN;
    for index in 0..inputs.len() {
        let object = inputs.get(index);
        objects.push(addresses_of(alloc, SectionAddresses { text }, object.symbols.as_slice())?)?;
        text += text_size(object);
    }
    Ok(Addresses::from_vec(objects))
}

/// The addresses of the global symbols.
pub fn global_addresses(alloc: Global, inputs: &Inputs<'_>) -> Result<ObjectAddresses, AllocError>
    requires { image_size inputs.now ≤ 67108864 }
    ensures { IfOk result (λ a. a ≡ globals inputs.now) }
{
    let mut found = Vec::new(alloc);
    let mut text = IMAGE_BEGIN;
    for index in 0..inputs.len() {
        let object = inputs.get(index);
        push_globals(
            alloc,
            &mut found,
            SectionAddresses { text },
            object.symbols.as_slice(),
        )?;
        text += text_size(object);
    }
    Ok(ObjectAddresses::from_vec(found))
}

fn addresses_of(
    alloc: Global,
    sections: SectionAddresses,
    symbols: &[ObjectSymbol],
) -> Result<ObjectAddresses, AllocError>
    ensures { IfOk result (λ a. a ≡ map (addressed sections) symbols.now) }
{
    let mut found = Vec::new(alloc);
    for symbol in symbols {
        found.push(address_of_symbol(alloc, sections, symbol)?)?;
    }
    Ok(ObjectAddresses::from_vec(found))
}

fn push_globals(
    alloc: Global,
    found: &mut Vec<SymbolAddress>,
    sections: SectionAddresses,
    symbols: &[ObjectSymbol],
) -> Result<(), AllocError>
    ensures { OnOk result (found.new.items
        ≡ found.old.items ++ map (addressed sections) (filter (λ s. s.global) symbols.now)) }
{
    for symbol in symbols {
        if symbol.global {
            found.push(address_of_symbol(alloc, sections, symbol)?)?;
        }
    }
    Ok(())
}

fn address_of_symbol(
    alloc: Global,
    sections: SectionAddresses,
    symbol: &ObjectSymbol,
) -> Result<SymbolAddress, AllocError>
    ensures { IfOk result (λ a. a ≡ addressed sections symbol.now) }
{
    let name = Vec::from_slice(alloc, symbol.name.as_bytes())?;
    Ok(SymbolAddress {
        name: SymName::from_vec(name),
        address: symbol_place(sections, symbol),
    })
}

/// The address of a symbol of an object whose sections begin here.
pub fn symbol_place(sections: SectionAddresses, symbol: &ObjectSymbol) -> u64
    ensures { result ≡ address_in sections symbol.now }
{
    moved_by(sections.of(symbol.section), symbol.offset)
}

/// The address at this distance from another one.
fn moved_by(begin: u64, offset: i128) -> u64
    ensures { result ≡ low_64 (pos begin +ℤ offset) }
{
    begin.wrapping_add(modulo_64(offset))
}

/// A number modulo 2^64.
fn modulo_64(number: i128) -> u64
    ensures { result ≡ low_64 number }
{
    (number.cast_unsigned() % 0x1_0000_0000_0000_0000) as u64
}
