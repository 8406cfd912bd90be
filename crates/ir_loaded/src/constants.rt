//! What constants stand for (LangRef, "Constants").
ghost use Rattle.std.specs.Prelude.{◌≡◌, ◌+◌, ◌<◌, ◌≤◌, ◌%◌, ◌^◌};
ghost use Rattle.ir_loaded.specs.Pairs.{constant_of, loaded};
ghost use Rattle.ir_sem.specs.Operands.{bits_of, constant_address, narrowed, or_zero};
ghost use Rattle.ir_sem.specs.declared.value.Value.TheVariants.{Number};
ghost use Rattle.ir_syntax.specs.Types.{int};

use crate::loaded::LoadedModule;
use cg_num::wrap;
use ir_geps::gep_offset;
use ir_sem::Value;
use ir_syntax::{GepParts, Operand, TyText, TypeTree};

/// The number of bits of a value of a type, 1 to 64.
pub fn bits_of(ty: &TyText) -> u8
    ensures value { result ≡ bits_of ty.now }
    ensures least { 0 < result }
    ensures most { result ≤ 64 }
{
    match ty.tree() {
        TypeTree::Int { bits } => integer_bits(*bits),
        _ => 64,
    }
}

fn integer_bits(bits: u8) -> u8
    ensures { result ≡ bits_of (int bits) }
{
    if 0 < bits && bits <= 64 { bits } else { 64 }
}

/// A number at so many bits, 1 to 64.
pub fn narrowed(bits: u8, number: u64) -> Value
    requires least { 0 < bits }
    requires most { bits ≤ 64 }
    ensures { result ≡ narrowed bits (Number number) }
{
    Value::Number(wrap(bits, u128::from(number)) as u64)
}

impl<'a> LoadedModule<'a> {
    /// What an operand of a type stands for, if it is a constant; none for a local name.
    pub fn constant(&self, ty: &TyText, operand: &'a Operand) -> Option<Value>
        ensures { result ≡ constant_of (loaded self.now) ty.now operand.now }
    {
        let bits = bits_of(ty);
        match operand {
            Operand::Local(_) => None,
            Operand::Global(used) => Some(narrowed(bits, self.address(&used.name))),
            Operand::Int(literal) => Some(narrowed(bits, literal.wrapped(bits) as u64)),
            Operand::True => Some(narrowed(bits, 1)),
            Operand::False | Operand::Null | Operand::Undef => Some(narrowed(bits, 0)),
            Operand::Poison => Some(Value::Poison),
            Operand::Gep(gep) => Some(narrowed(bits, self.constant_address(gep.parts()))),
        }
    }

    /// The address that a constant `getelementptr` makes.
    fn constant_address(&self, gep: &'a GepParts) -> u64
        ensures { result ≡ constant_address (loaded self.now) gep.now }
    {
        let base = self.address(&gep.base.name);
        match gep_offset(self.types(), gep) {
            Some(offset) => base.wrapping_add(offset),
            None => base,
        }
    }
}
