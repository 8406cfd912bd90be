//! The slots of a function's names.
ghost use Rattle.std.specs.Prelude.{◌≡◌, IfOk, length};
ghost use Rattle.ir_ident.specs.NameMaps.{value_of};
ghost use Rattle.ir_ident.specs.declared.name.Name.{Name};
ghost use Rattle.ir_loaded.specs.Pairs.{loaded};
ghost use Rattle.ir_slots.specs.Slots.{slot_names, slot_of};
ghost use Rattle.ir_sem.specs.Operands.{bits_of};
ghost use Rattle.ir_slots.specs.Sources.{IsInput, IsSource, local_source};

use crate::input::Input;
use crate::names::{ValueName, slot_names};
use crate::source::Source;
use crate::width::Width;
use ir_ident::{Name, NameMap};
use ir_loaded::LoadedModule;
use ir_sem::Value;
use ir_syntax::{Function, Operand, TyText};
use std::alloc::{AllocError, Global};
use std::marker::Model;

/// The slots of a function's parameters and results by their names, counted from 0 in the order of the text. Contracts see the
/// function.
#[derive(Drop)]
pub struct SlotMap<'a> {
    function: &'a Function,
    slots: NameMap<'a, usize>,
    count: usize,
}

impl<'a> Model for SlotMap<'a> {
    ghost use Rattle.std.specs.Prelude.{◌≡◌, length};
    ghost use Rattle.ir_ident.specs.NameMaps.{value_of};
    ghost use Rattle.ir_ident.specs.declared.name.Name.{Name};
    ghost use Rattle.ir_slots.specs.Slots.{slot_names, slot_of};
    ghost use Rattle.ir_syntax.specs.declared.function.Function.{Function};
    ghost use Rattle.ir_syntax.specs.contracts.function.Function as functions;

    ghost Value = { Function };

    ghost coded = { functions.the_row.coded };

    ghost view = { λ s. s.function.now };

    ghost invariant = { λ s. ((name : Name) → value_of s.slots name ≡ slot_of (slot_names s.function.now) name)
        × (s.count ≡ length (slot_names s.function.now)) };
}

impl<'a> SlotMap<'a> {
    /// The slots of a function.
    ///
    /// # Errors
    ///
    /// [`AllocError`].
    pub fn new(alloc: Global, function: &'a Function) -> Result<SlotMap<'a>, AllocError>
        ensures { IfOk result (λ slots. slots ≡ function.now) }
    {
        let names = slot_names(alloc, function)?;
        let slots = slots_of(alloc, names.as_slice())?;
        Ok(SlotMap {
            function,
            slots,
            count: names.len(),
        })
    }

    /// The function.
    pub fn function(&self) -> &'a Function
        ensures { result.now ≡ self.now }
    {
        self.function
    }

    /// How many slots there are.
    pub fn count(&self) -> usize
        ensures { result ≡ length (slot_names self.now) }
    {
        self.count
    }

    /// The slot of a name; none of one that no value has.
    pub fn slot(&self, name: &Name) -> Option<usize>
        ensures { result ≡ slot_of (slot_names self.now) name.now }
    {
        self.slots.get(name)
    }

    /// Where the value of an operand of a type comes from.
    #[tactic(auto, using(crate::proofs::SourceLemmas::constant_source, crate::proofs::SourceLemmas::local_source))]
    pub fn source(&self, l: &LoadedModule<'a>, ty: &TyText, operand: &'a Operand) -> Source
        ensures { IsSource (loaded l.now) (slot_names self.now) (bits_of ty.now) operand.now result }
    {
        match l.constant(ty, operand) {
            Some(value) => Source::Constant(value),
            None => self.local_source(operand),
        }
    }

    fn local_source(&self, operand: &Operand) -> Source
        ensures { result ≡ local_source (slot_names self.now) operand.now }
    {
        match operand {
            Operand::Local(used) => match self.slots.get(&used.name) {
                Some(slot) => Source::Slot(slot),
                None => Source::Constant(Value::Poison),
            },
            _ => Source::Constant(Value::Poison),
        }
    }

    /// An operand of a type.
    pub fn input(&self, l: &LoadedModule<'a>, ty: &TyText, operand: &'a Operand) -> Input
        ensures value { IsInput (loaded l.now) (slot_names self.now) ty.now operand.now result }
        ensures width { result.width ≡ bits_of ty.now }
    {
        Input {
            width: Width::of(ty),
            source: self.source(l, ty, operand),
        }
    }
}

/// The place of each of these names; where several are one, of the first.
fn slots_of<'a>(alloc: Global, names: &[ValueName<'a>]) -> Result<NameMap<'a, usize>, AllocError>
    ensures { IfOk result (λ slots. (name : Name) → value_of slots name ≡ slot_of names.now name) }
{
    let mut slots = NameMap::new(alloc);
    for (place, name) in names.iter().enumerate() {
        slots.add(name.name, place)?;
    }
    Ok(slots)
}
