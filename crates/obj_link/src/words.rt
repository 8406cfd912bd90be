//! The words and the bytes of an image.
ghost use Rattle.std.specs.Prelude.{◌≡◌, ◌≤◌, ◌+◌, ◌-◌, ◌/◌, ◌%◌, ◌^◌, ◌+ℤ◌, ◌-ℤ◌, ◌++◌, ℕ, ℤ, pos, negsuc, List, length, map, flat_map, find, unwrap_or, IfOk, OnOk};
ghost use Rattle.std.specs.Str.{bytes_eq};
ghost use Rattle.std.specs.Option.{option_copied};
ghost use Rattle.std.specs.Int.{to_le_bytes, w32};
ghost use Rattle.rv_isa.specs.Encoding.{IsInst, encoded};
ghost use Rattle.rv_isa.specs.Relocation.{IsLine, AreLines};
ghost use Rattle.obj_link.specs.Layout.{low_64, image_size, globals as all_globals};
ghost use Rattle.obj_link.specs.Words.{low_part, high_part, own_address, global_address, address_of, moved, line_word, words_at, image_bytes};

use crate::image::SymbolAddress;
use crate::inputs::Inputs;
use crate::layout::{IMAGE_BEGIN, symbol_place, text_size};
use crate::names::own_symbol;
use crate::sections::SectionAddresses;
use asm_read::ObjectSymbol;
use rv_isa::{Inst, Line, UNIMP, encode};
use std::alloc::{AllocError, Global};

/// Where the names of an object's lines are looked up.
#[derive(Clone, Copy)]
struct Scope<'a> {
    /// Where the object's sections begin.
    sections: SectionAddresses,
    /// The object's own symbols.
    symbols: &'a [ObjectSymbol],
    /// The global symbols of all objects.
    globals: &'a [SymbolAddress],
}

/// The bytes of the image.
pub fn bytes_of_image(
    alloc: Global,
    inputs: &Inputs<'_>,
    globals: &[SymbolAddress],
) -> Result<Vec<u8>, AllocError>
    requires size { image_size inputs.now ≤ 67108864 }
    requires globals { globals.now ≡ all_globals inputs.now }
    ensures { IfOk result (λ bytes. bytes.items ≡ image_bytes inputs.now) }
{
    let mut bytes = Vec::new(alloc);
    let mut text = IMAGE_BEGIN;
    for index in 0..inputs.len() {
        let object = inputs.get(index);
        let scope = Scope {
            sections: SectionAddresses { text },
            symbols: object.symbols.as_slice(),
            globals,
        };
        push_lines(&mut bytes, object.words.as_slice(), scope)?;
        text += text_size(object);
    }
    Ok(bytes)
}

/// Writes the words of an object's lines, the low byte of each first.
fn push_lines(bytes: &mut Vec<u8>, lines: &[Line], scope: Scope<'_>) -> Result<(), AllocError>
    requires { AreLines lines.now }
    ensures { OnOk result (bytes.new.items ≡ bytes.old.items
        ++ flat_map (to_le_bytes w32)
        (words_at scope.entry.sections scope.entry.symbols.now scope.entry.globals.now lines.now)) }
{
    for line in lines {
        bytes.extend_from_slice(&word_of_line(line, scope).to_le_bytes())?;
    }
    Ok(())
}

/// The word of a line, with the addresses of names in it.
fn word_of_line(line: &Line, scope: Scope<'_>) -> u32
    requires { IsLine line.now }
    ensures { result ≡ line_word
        (address_of scope.entry.sections scope.entry.symbols.now scope.entry.globals.now)
        line.now }
{
    match line {
        Line::Plain(inst) => encode(*inst),
        Line::High {
            inst,
            symbol,
            offset,
        } => encode(with_high(
            *inst,
            address(scope, symbol.as_bytes()).wrapping_add_signed(*offset),
        )),
        Line::Low {
            inst,
            symbol,
            offset,
        } => encode(with_low(
            *inst,
            address(scope, symbol.as_bytes()).wrapping_add_signed(*offset),
        )),
        Line::Unimp => UNIMP,
    }
}

fn with_high(inst: Inst, address: u64) -> Inst
    ensures { result ≡ record inst { imm = pos (high_part address) } }
{
    Inst {
        imm: upper_part(address),
        ..inst
    }
}

fn with_low(inst: Inst, address: u64) -> Inst
    ensures { result ≡ record inst { imm = low_part address } }
{
    Inst {
        imm: lower_part(address),
        ..inst
    }
}

/// The low 12 bits of an address, signed (`%lo`; RISC-V ELF psABI, R_RISCV_LO12_I).
fn lower_part(address: u64) -> i64
    ensures { result ≡ low_part address }
{
    let bits = (address % 0x1000) as i64;
    if bits < 0x800 { bits } else { bits - 0x1000 }
}

/// The low 20 bits of the rest over 4096 (`%hi`; RISC-V ELF psABI, R_RISCV_HI20).
fn upper_part(address: u64) -> i64
    ensures { result ≡ pos (high_part address) }
{
    (address.wrapping_add(0x800) / 0x1000 % 0x10_0000) as i64
}

/// The address that a name stands for.
fn address(scope: Scope<'_>, name: &[u8]) -> u64
    ensures { result
        ≡ address_of scope.entry.sections scope.entry.symbols.now scope.entry.globals.now name.now }
{
    match own_symbol(scope.symbols, name) {
        Some(symbol) => symbol_place(scope.sections, symbol),
        None => match global_symbol(scope.globals, name) {
            Some(symbol) => symbol.address,
            None => 0,
        },
    }
}

fn global_symbol<'a>(globals: &'a [SymbolAddress], name: &[u8]) -> Option<&'a SymbolAddress>
    ensures { option_copied result ≡ find (λ s. bytes_eq s.name name.now) globals.now }
{
    globals.iter().find(|symbol| symbol.name.as_bytes() == name)
}
