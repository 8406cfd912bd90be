//! The uses of local names in the blocks of a function.
ghost use Rattle.std.specs.Prelude.{◌≡◌, ◌++◌, [], IfOk, OnOk, length, map, slice_get};
ghost use Rattle.std.specs.List.{flat_map};
ghost use Rattle.ir_uses.specs.Numbered.{flat_numbered};
ghost use Rattle.ir_uses.specs.Uses.{block_uses, blocks_uses, entry_uses, instr_count, instr_uses, local_in, phi_uses, use_at, uses_at_end, uses_in};
ghost use Rattle.ir_ident.specs.NameMaps.{value_of};
ghost use Rattle.ir_ident.specs.declared.name.NameUse.{NameUse};
ghost use Rattle.ir_syntax.specs.Terms.{term_line};
ghost use Rattle.ir_walk.specs.Parts.{term_parts};

use ir_ident::{Name, NameMap, NameUse};
use ir_syntax::{Block, Instr, Operand, Phi, PhiEntry, Term, TyText};
use ir_walk::{Visitor, Walk};
use std::alloc::{AllocError, Global};
use std::marker::Model;

/// A local name where a part has it. Contracts see the use of the name.
#[derive(Drop)]
struct Local<'a> {
    used: &'a NameUse,
}

impl<'a> Model for Local<'a> {
    ghost use Rattle.ir_ident.specs.declared.name.NameUse.{NameUse};
    ghost use Rattle.ir_ident.specs.contracts.name.NameUse as name_use;

    ghost Value = { NameUse };

    ghost coded = { name_use.the_row.coded };

    ghost view = { λ l. l.used.now };
}

/// The local names that a walk found, in order.
#[derive(Drop)]
struct Locals<'a> {
    locals: Vec<Local<'a>>,
}

impl<'a> Locals<'a> {
    /// No names.
    fn new(alloc: Global) -> Locals<'a>
        ensures { result.locals.items ≡ [] }
    {
        Locals {
            locals: Vec::new(alloc),
        }
    }

    /// Forgets all names, and keeps the room for them.
    fn clear(&mut self)
        ensures { self.new.locals.items ≡ [] }
    {
        self.locals.clear();
    }
}

impl<'a> Visitor<'a> for Locals<'a> {
    ghost Found = { NameUse };

    ghost of_part = { local_in };

    ghost found = { λ l. l.locals.items };

    fn ty(&mut self, _ty: &'a TyText) -> Result<(), AllocError> {
        Ok(())
    }

    fn operand(&mut self, operand: &'a Operand) -> Result<(), AllocError> {
        if let Operand::Local(used) = operand {
            self.locals.push(Local { used })?;
        }
        Ok(())
    }

    fn callee(&mut self, _callee: &'a NameUse) -> Result<(), AllocError> {
        Ok(())
    }

    fn label(&mut self, _label: &'a NameUse) -> Result<(), AllocError> {
        Ok(())
    }
}

/// A use of a local name. Contracts see its line, where it stands and the name.
#[derive(Drop)]
pub struct LocalUse<'a> {
    line: u32,
    place: usize,
    before: usize,
    name: &'a Name,
}

impl<'a> Model for LocalUse<'a> {
    ghost use Rattle.ir_uses.specs.Uses.{Use, coded_use, use_of_parts};

    ghost Value = { Use };

    ghost coded = { coded_use };

    ghost view = { λ u. use_of_parts u.line u.place u.before u.name.now };
}

impl<'a> LocalUse<'a> {
    /// The line of the first token of the instruction, phi or terminator that has it.
    pub fn line(&self) -> u32
        ensures { result ≡ self.now.line }
    {
        self.line
    }

    /// The place of the block that it stands in, counted from 0.
    pub fn place(&self) -> usize
        ensures { result ≡ self.now.place }
    {
        self.place
    }

    /// How many instructions of this block stand before it.
    pub fn before(&self) -> usize
        ensures { result ≡ self.now.before }
    {
        self.before
    }

    /// The name.
    pub fn name(&self) -> &Name
        ensures { result.now ≡ self.now.name }
    {
        self.name
    }
}

/// The uses in the blocks of a function in the order of the text, where `places` has the places of the labels. The value
/// of a phi's entry is used at the end of the block that the entry names; where there is no such block, it is no use.
///
/// # Errors
///
/// [`AllocError`].
pub fn uses_of<'a>(
    alloc: Global,
    places: &NameMap<'_, usize>,
    blocks: &'a [Block],
) -> Result<Vec<LocalUse<'a>>, AllocError>
    ensures { IfOk result (λ uses. uses.items ≡ blocks_uses (value_of places.now) blocks.now) }
{
    let mut found = Locals::new(alloc);
    let mut uses = Vec::new(alloc);
    for (place, block) in blocks.iter().enumerate() {
        push_block(&mut found, places, blocks, &mut uses, place, block)?;
    }
    Ok(uses)
}

/// Adds the uses in a block, which stands at this place; `found` is room for the names of one part.
fn push_block<'a>(
    found: &mut Locals<'a>,
    places: &NameMap<'_, usize>,
    blocks: &'a [Block],
    uses: &mut Vec<LocalUse<'a>>,
    place: usize,
    block: &'a Block,
) -> Result<(), AllocError>
    ensures { OnOk result (uses.new.items ≡ uses.old.items ++ block_uses (value_of places.now) blocks.now place block.now) }
{
    push_phis(found, places, blocks, uses, block.phis.as_slice())?;
    push_instrs(found, uses, place, block.instrs.as_slice())?;
    let before = block.instrs.as_slice().len();
    push_term(found, uses, place, before, &block.term)
}

fn push_phis<'a>(
    found: &mut Locals<'a>,
    places: &NameMap<'_, usize>,
    blocks: &'a [Block],
    uses: &mut Vec<LocalUse<'a>>,
    phis: &'a [Phi],
) -> Result<(), AllocError>
    ensures { OnOk result (uses.new.items ≡ uses.old.items ++ flat_map (phi_uses (value_of places.now) blocks.now) phis.now) }
{
    for phi in phis {
        push_entries(
            found,
            places,
            blocks,
            uses,
            phi.line,
            phi.entries.as_slice(),
        )?;
    }
    Ok(())
}

fn push_entries<'a>(
    found: &mut Locals<'a>,
    places: &NameMap<'_, usize>,
    blocks: &'a [Block],
    uses: &mut Vec<LocalUse<'a>>,
    line: u32,
    entries: &'a [PhiEntry],
) -> Result<(), AllocError>
    ensures { OnOk result (uses.new.items ≡ uses.old.items ++ flat_map (entry_uses (value_of places.now) blocks.now line) entries.now) }
{
    for entry in entries {
        push_entry(found, places, blocks, uses, line, entry)?;
    }
    Ok(())
}

/// Adds the use of an entry's value, at the end of the block that the entry names.
fn push_entry<'a>(
    found: &mut Locals<'a>,
    places: &NameMap<'_, usize>,
    blocks: &'a [Block],
    uses: &mut Vec<LocalUse<'a>>,
    line: u32,
    entry: &'a PhiEntry,
) -> Result<(), AllocError>
    ensures { OnOk result (uses.new.items ≡ uses.old.items ++ entry_uses (value_of places.now) blocks.now line entry.now) }
{
    found.clear();
    entry.walk(found)?;
    match places.get(&entry.block.name) {
        Some(place) => push_locals(
            uses,
            line,
            place,
            instr_count(blocks, place),
            found.locals.as_slice(),
        ),
        None => Ok(()),
    }
}

/// How many instructions the block at a place has.
fn instr_count(blocks: &[Block], place: usize) -> usize
    ensures { result ≡ instr_count (slice_get blocks.now place) }
{
    match blocks.get(place) {
        Some(block) => block.instrs.as_slice().len(),
        None => 0,
    }
}

fn push_instrs<'a>(
    found: &mut Locals<'a>,
    uses: &mut Vec<LocalUse<'a>>,
    place: usize,
    instrs: &'a [Instr],
) -> Result<(), AllocError>
    ensures { OnOk result (uses.new.items ≡ uses.old.items ++ flat_numbered (instr_uses place) 0 instrs.now) }
{
    for (before, instr) in instrs.iter().enumerate() {
        push_instr(found, uses, place, before, instr)?;
    }
    Ok(())
}

/// Adds the uses of an instruction, which stands at this place.
fn push_instr<'a>(
    found: &mut Locals<'a>,
    uses: &mut Vec<LocalUse<'a>>,
    place: usize,
    before: usize,
    instr: &'a Instr,
) -> Result<(), AllocError>
    ensures { OnOk result (uses.new.items ≡ uses.old.items ++ instr_uses place before instr.now) }
{
    found.clear();
    instr.walk(found)?;
    push_locals(uses, instr.line, place, before, found.locals.as_slice())
}

/// Adds the uses of a terminator, which stands at this place.
fn push_term<'a>(
    found: &mut Locals<'a>,
    uses: &mut Vec<LocalUse<'a>>,
    place: usize,
    before: usize,
    term: &'a Term,
) -> Result<(), AllocError>
    ensures { OnOk result (uses.new.items ≡ uses.old.items ++ uses_in (term_line term.now) place before (term_parts term.now)) }
{
    found.clear();
    term.walk(found)?;
    push_locals(uses, term.line(), place, before, found.locals.as_slice())
}

/// Adds uses in one line and at one place.
fn push_locals<'a>(
    uses: &mut Vec<LocalUse<'a>>,
    line: u32,
    place: usize,
    before: usize,
    locals: &[Local<'a>],
) -> Result<(), AllocError>
    ensures { OnOk result (uses.new.items ≡ uses.old.items ++ map (use_at line place before) locals.now) }
{
    for local in locals {
        uses.push(LocalUse {
            line,
            place,
            before,
            name: &local.used.name,
        })?;
    }
    Ok(())
}
