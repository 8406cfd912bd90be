//! Numbers of unnamed items (LangRef, "Identifiers").
ghost use Rattle.std.specs.Prelude.{◌≡◌, ◌<◌, ◌≤◌, ◌+◌, ◌*◌, ◌^◌, nat_eq, IfOk, OnErr, OnOk};
ghost use Rattle.std.specs.Int.Digits.{digits_of};
ghost use Rattle.ir_ident.specs.Numbers.{AreLarge, IsWritten, below_limit, number_in};

use std::alloc::{AllocError, Global};
use std::marker::Model;

/// The number of an unnamed item. It may be of any size, since types are not counted: each number is a name for one.
/// Contracts see the number.
#[derive(Drop)]
pub struct ItemNumber {
    stored: Stored,
}

/// How a number is stored.
#[derive(Drop)]
enum Stored {
    /// One below 2^64.
    Small(u64),
    /// The decimal digits of any other, from 0 to 9, the highest first.
    Large(Box<Vec<u8>>),
}

impl Model for ItemNumber {
    ghost use Rattle.std.specs.Prelude.{ℕ};
    ghost use Rattle.ir_ident.specs.Numbers.{IsStored, stored_number};

    ghost Value = { ℕ };

    ghost view = { λ n. stored_number n.stored };

    ghost invariant = { λ n. IsStored n.stored };
}

/// A number as a map of names looks it up.
pub(crate) enum Written<'a> {
    /// One below 2^64.
    Small(u64),
    /// The decimal digits of any other, from 0 to 9, the highest first.
    Large(&'a [u8]),
}

impl ItemNumber {
    /// This number.
    pub fn from_u64(number: u64) -> ItemNumber
        ensures { result ≡ number }
    {
        ItemNumber {
            stored: Stored::Small(number),
        }
    }

    /// Writes a digit, from 0 to 9, behind the others.
    pub fn push_digit(&mut self, alloc: Global, digit: u8) -> Result<(), AllocError>
        requires { digit < 10 }
        ensures ok { OnOk result (self.new ≡ 10 * self.old + digit) }
        ensures err { OnErr result (self.new ≡ self.old) }
    {
        match &mut self.stored {
            Stored::Large(digits) => push_behind(digits, digit),
            Stored::Small(number) => match one_more(*number, digit) {
                Some(more) => {
                    *number = more;
                    Ok(())
                }
                None => {
                    let digits = large(alloc, *number, digit)?;
                    self.stored = Stored::Large(Box::new(alloc, digits)?);
                    Ok(())
                }
            },
        }
    }

    /// The number as a map of names looks it up.
    pub(crate) fn written(&self) -> Written<'_>
        ensures { IsWritten result self.now }
    {
        match &self.stored {
            Stored::Small(number) => Written::Small(*number),
            Stored::Large(digits) => Written::Large(digits.as_slice()),
        }
    }

    /// Whether this is the same number.
    pub fn is_same(&self, other: &ItemNumber) -> bool
        ensures { result ≡ nat_eq self.now other.now }
    {
        match (&self.stored, &other.stored) {
            (Stored::Small(a), Stored::Small(b)) => *a == *b,
            (Stored::Large(a), Stored::Large(b)) => a.as_slice() == b.as_slice(),
            _ => false,
        }
    }

    /// The number, where it is below 2^64.
    pub fn to_u64(&self) -> Option<u64>
        ensures { result ≡ below_limit self.now }
    {
        match &self.stored {
            Stored::Small(number) => Some(*number),
            Stored::Large(_) => None,
        }
    }
}

/// Writes a digit behind those of a large number.
fn push_behind(digits: &mut Vec<u8>, digit: u8) -> Result<(), AllocError>
    requires digit { digit < 10 }
    requires digits { AreLarge digits.old.items }
    ensures ok { OnOk result (number_in digits.new.items ≡ 10 * number_in digits.old.items + digit) }
    ensures digits { AreLarge digits.new.items }
    ensures err { OnErr result (digits.new.items ≡ digits.old.items) }
{
    digits.push(digit)?;
    Ok(())
}

/// The digits of a number with one more behind its own.
fn large(alloc: Global, number: u64, digit: u8) -> Result<Vec<u8>, AllocError>
    requires digit { digit < 10 }
    requires large { 2 ^ 64 ≤ 10 * number + digit }
    ensures value { IfOk result (λ digits. number_in digits.items ≡ 10 * number + digit) }
    ensures digits { IfOk result (λ digits. AreLarge digits.items) }
{
    let mut digits = digits_of(alloc, number)?;
    digits.push(digit)?;
    Ok(digits)
}

/// The decimal digits of a number, the highest first; none of 0.
fn digits_of(alloc: Global, number: u64) -> Result<Vec<u8>, AllocError>
    ensures { IfOk result (λ digits. digits.items ≡ digits_of 10 number) }
{
    if number == 0 {
        return Ok(Vec::new(alloc));
    }
    let mut digits = digits_of(alloc, number / 10)?;
    digits.push((number % 10) as u8)?;
    Ok(digits)
}

/// The number with a digit behind its own, where it is below 2^64.
fn one_more(number: u64, digit: u8) -> Option<u64>
    ensures { result ≡ below_limit (10 * number + digit) }
{
    number.checked_mul(10)?.checked_add(u64::from(digit))
}

// A number stays small, so that a tree of names does.
const _: () = prove!(size_of::<ItemNumber>() <= 16);
