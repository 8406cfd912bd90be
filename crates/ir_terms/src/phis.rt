//! Phis (LangRef, "'phi' Instruction").
ghost use Rattle.std.specs.Prelude.{◌≡◌};
ghost use Rattle.ir_terms.specs.Phis.{phi_entries, phis};
ghost use Rattle.ir_rules.specs.Reading.{Gives};
ghost use Rattle.ir_rules.specs.Rules.{◌▷◌, ◌◁◌};
ghost use Rattle.ir_types.specs.Types.{local_uses};
ghost use Rattle.ir_words.specs.declared.class.Class.TheVariants.{CloseSquare, Comma};

use ir_attributes::read_items;
use ir_ident::NameUse;
use ir_rules::{Element, End, word};
use ir_syntax::{PhiEntries, PhiEntry, TyText};
use ir_types::{read_local_use, read_type};
use ir_values::read_operand;
use ir_words::{Class, Cursor};
use std::alloc::Global;

/// Reads the name of a block behind a comma, and `]`.
fn read_origin<'t>(alloc: Global, rest: Cursor<'t>) -> Result<(NameUse, Cursor<'t>), End>
    ensures { Gives (λ x. x) result ((Comma ▷ local_uses ◁ CloseSquare).read rest.entry) }
{
    let rest = word(rest, Class::Comma)?;
    let (block, rest) = read_local_use(alloc, rest)?;
    let rest = word(rest, Class::CloseSquare)?;
    Ok((block, rest))
}

/// Reads an entry: a value and the block that it comes from.
#[tactic(auto, unfolding(crate::specs::Phis::phi_entry_forms))]
fn read_phi_entry<'t>(alloc: Global, rest: Cursor<'t>) -> Result<(PhiEntry, Cursor<'t>), End>
    ensures { Gives (λ x. x) result (phi_entries.read rest.entry) }
{
    let rest = word(rest, Class::OpenSquare)?;
    let (value, rest) = read_operand(alloc, rest)?;
    let (block, rest) = read_origin(alloc, rest)?;
    Ok((PhiEntry { value, block }, rest))
}

/// The reader of an entry.
#[derive(Drop)]
struct EntryReader {
    alloc: Global,
}

impl Element for EntryReader {
    type Tree = PhiEntry;

    ghost rule = { λ _. phi_entries };

    ghost takes_memory = { Unit {0} };

    fn begins(&self, class: Class) -> bool {
        class == Class::OpenSquare
    }

    fn read<'t>(&self, rest: Cursor<'t>) -> Result<(PhiEntry, Cursor<'t>), End> {
        read_phi_entry(self.alloc, rest)
    }
}

/// Reads a phi behind its name: its type and its entries.
#[tactic(auto, using(crate::proofs::PhiLaws::phi_entries_law), unfolding(crate::specs::Phis::phi_forms))]
pub fn read_phi<'t>(
    alloc: Global,
    rest: Cursor<'t>,
) -> Result<((TyText, PhiEntries), Cursor<'t>), End>
    ensures { Gives (λ x. x) result (phis.read rest.entry) }
{
    let rest = word(rest, Class::Phi)?;
    let (ty, rest) = read_type(alloc, rest, 64)?;
    let (entry, rest) = read_phi_entry(alloc, rest)?;
    let (mut entries, rest) = read_items(alloc, &EntryReader { alloc }, rest)?;
    entries.insert(0, entry)?;
    Ok(((ty, PhiEntries::from_vec(entries)), rest))
}
