//! The blocks of a function that some path from its first block reaches (LangRef, "Functions").
ghost use Rattle.std.specs.Prelude.{◌≡◌, ◌<◌, ℕ, length, true, ◌∷◌, [], IfOk, OnOk, false, replicate};
ghost use Rattle.ir_ident.specs.NameMaps.{value_of};
ghost use Rattle.ir_cfg.specs.Reached.{has_place, reachable_marks, label_place, reached_within};
ghost use Rattle.ir_cfg.specs.Searches.{Sees, mark_at};
ghost use Rattle.ir_ident.specs.declared.name.Name.{Name};

use crate::successors::successors_at;
use ir_ident::NameMap;
use ir_syntax::Block;
use std::alloc::{AllocError, Global};

/// Of each block in order, whether some path from the first one reaches it. What a path of any length reaches is marked.
///
/// Each step looks at one place that was found. There are no more of them than blocks.
pub fn reachable_marks(alloc: Global, blocks: &[Block]) -> Result<Vec<bool>, AllocError>
    ensures marks { IfOk result (λ marks. marks.items ≡ reachable_marks blocks.now) }
    ensures every { IfOk result (λ marks. (steps place : ℕ) → has_place (reached_within blocks.now steps) place ≡ true → place < length blocks.now → mark_at marks.items place ≡ true) }
{
    let places = label_places(alloc, blocks)?;
    let mut marks = unmarked(alloc, blocks.len())?;
    let mut todo = Vec::new(alloc);
    see(&mut marks, &mut todo, 0)?;
    for step in 0..blocks.len() {
        let Some(place) = todo.pop() else {
            return Ok(marks);
        };
        let successors = successors_at(alloc, &places, blocks, place)?;
        see_all(&mut marks, &mut todo, successors.as_slice())?;
    }
    Ok(marks)
}

/// The mark of a place; none of one behind the end.
pub fn is_marked(marks: &[bool], place: usize) -> bool
    ensures { result ≡ mark_at marks.now place }
{
    if place < marks.len() {
        return marks[place];
    }
    false
}

/// The places of these blocks, counted from 0, by their labels; where several have one label, of the first.
///
/// # Errors
///
/// [`AllocError`].
pub fn label_places<'a>(
    alloc: Global,
    blocks: &'a [Block],
) -> Result<NameMap<'a, usize>, AllocError>
    ensures { IfOk result (λ places. (name : Name) → value_of places name ≡ label_place blocks.now name) }
{
    let mut places = NameMap::with_room(alloc, blocks.len())?;
    for (place, block) in blocks.iter().enumerate() {
        places.add(&block.label, place)?;
    }
    Ok(places)
}

/// So many marks, none of them set.
///
/// # Errors
///
/// [`AllocError`].
pub fn unmarked(alloc: Global, count: usize) -> Result<Vec<bool>, AllocError>
    ensures { IfOk result (λ marks. marks.items ≡ replicate count false) }
{
    vec![in alloc; false; count]
}

/// Marks these places, and adds those that were not marked to what is to be looked at. Where there is no such place,
/// there is nothing to do.
///
/// # Errors
///
/// [`AllocError`].
pub fn see_all(
    marks: &mut Vec<bool>,
    todo: &mut Vec<usize>,
    places: &[usize],
) -> Result<(), AllocError>
    ensures { OnOk result (Sees marks.old.items todo.old.items places.now marks.new.items todo.new.items) }
{
    for place in places {
        see(marks, todo, *place)?;
    }
    Ok(())
}

/// Marks one place, and adds it to what is to be looked at if it was not marked. Where there is no such place, there is
/// nothing to do.
///
/// # Errors
///
/// [`AllocError`].
pub fn see(marks: &mut Vec<bool>, todo: &mut Vec<usize>, place: usize) -> Result<(), AllocError>
    ensures { OnOk result (Sees marks.old.items todo.old.items (place ∷ []) marks.new.items todo.new.items) }
{
    if place >= marks.len() {
        return Ok(());
    }
    if marks[place] {
        return Ok(());
    }
    marks[place] = true;
    todo.push(place)?;
    Ok(())
}
