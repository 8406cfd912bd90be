//! The operands of an instruction: registers first, and what comes after them.
ghost use Rattle.std.specs.Prelude.{◌≡◌, ◌<◌, ◌++◌, List, [], ◌∷◌, ℕ, MatchOption};
ghost use Rattle.rv_isa.specs.Text as text;
ghost use Rattle.rv_isa.specs.Text.{register};
ghost use Rattle.asm_inst.specs.Bytes.{IsAbsent};

use crate::bytes::{after, before, cut_at, cut_at_last};
use crate::register::read_register;

/// Two operands, separated by a comma and a blank. The first has no comma in it.
fn two_operands(operands: &[u8]) -> Option<(&[u8], &[u8])>
    ensures { MatchOption result
        ((first second : List ℕ) → IsAbsent 44 first
        → operands.now ≡ text.operands (first ∷ second ∷ []) → ⊥)
        (λ found. IsAbsent 44 found.0.now
        × (operands.now ≡ text.operands (found.0.now ∷ found.1.now ∷ []))) }
{
    let Some((first, rest)) = cut_at(operands, b',') else {
        return None;
    };
    let Some(second) = after(rest, b" ") else {
        return None;
    };
    Some((first, second))
}

/// A register, and the operand after it.
pub fn one_register(operands: &[u8]) -> Option<(u8, &[u8])>
    ensures { MatchOption result
        ((r : ℕ) (last : List ℕ) → r < 32 → operands.now ≡ text.operands (register r ∷ last ∷ []) → ⊥)
        (λ found. (found.0 < 32) × (operands.now ≡ text.operands (register found.0 ∷ found.1.now ∷ []))) }
{
    let Some((first, last)) = two_operands(operands) else {
        return None;
    };
    let Some(number) = read_register(first) else {
        return None;
    };
    Some((number, last))
}

/// Two registers, and the operand after them.
pub fn two_registers(operands: &[u8]) -> Option<(u8, u8, &[u8])>
    ensures { MatchOption result
        ((r s : ℕ) (last : List ℕ) → r < 32 → s < 32
        → operands.now ≡ text.operands (register r ∷ register s ∷ last ∷ []) → ⊥)
        (λ found. (found.0 < 32) × (found.1 < 32)
        × (operands.now ≡ text.operands (register found.0 ∷ register found.1 ∷ found.2.now ∷ []))) }
{
    let Some((first, rest)) = one_register(operands) else {
        return None;
    };
    let Some((second, last)) = one_register(rest) else {
        return None;
    };
    Some((first, second, last))
}

/// An offset, as it is spelled, and a base register in brackets.
fn based(address: &[u8]) -> Option<(&[u8], u8)>
    ensures { MatchOption result
        ((offset : List ℕ) (base : ℕ) → base < 32 → address.now ≡ offset ++ 40 ∷ (register base ++ 41 ∷ []) → ⊥)
        (λ found. (found.1 < 32) × (address.now ≡ found.0.now ++ 40 ∷ (register found.1 ++ 41 ∷ []))) }
{
    let Some((offset, bracketed)) = cut_at_last(address, b'(') else {
        return None;
    };
    let Some(name) = before(bracketed, b")") else {
        return None;
    };
    let Some(base) = read_register(name) else {
        return None;
    };
    Some((offset, base))
}

/// A register, an offset, as it is spelled, and a base register in brackets.
pub fn register_and_address(operands: &[u8]) -> Option<(u8, &[u8], u8)>
    ensures { MatchOption result
        ((r : ℕ) (offset : List ℕ) (base : ℕ) → r < 32 → base < 32
        → operands.now ≡ text.operands (register r ∷ (offset ++ 40 ∷ (register base ++ 41 ∷ [])) ∷ []) → ⊥)
        (λ found. (found.0 < 32) × (found.2 < 32)
        × (operands.now
        ≡ text.operands (register found.0 ∷ (found.1.now ++ 40 ∷ (register found.2 ++ 41 ∷ [])) ∷ []))) }
{
    let Some((number, address)) = one_register(operands) else {
        return None;
    };
    let Some((offset, base)) = based(address) else {
        return None;
    };
    Some((number, offset, base))
}
