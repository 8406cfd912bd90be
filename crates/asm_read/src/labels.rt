//! Where labels are, and what is made of the branches and jumps that go to them.
ghost use Rattle.std.specs.Prelude.{◌≡◌, ◌<◌, ◌≤◌, ◌*◌, ◌+◌, ◌-ℤ◌, ℕ, pos, List, Some, true, false, length, if◌then◌else◌, IfOk, OnOk, MatchOption};
ghost use Rattle.std.specs.Str.{bytes_eq};
ghost use Rattle.rv_isa.specs.Table as table;
ghost use Rattle.asm_line.specs.Statements.{code};
ghost use Rattle.asm_read.specs.Checks.{in_line, is_far_at, place_in, statements_in};
ghost use Rattle.asm_read.specs.Labels as labels;
ghost use Rattle.asm_read.specs.Labels.{is_some_and};

use rv_isa::{Inst, Shape, Statement, shape_of};
use std::alloc::{AllocError, Global};
use std::collections::HashMap;

/// How many instructions a line has.
pub fn size_of(line: &Option<Statement>) -> usize
    ensures value { result ≡ length (in_line code line.now) }
    ensures one { result ≤ 1 }
{
    match line {
        Some(Statement::Code(_) | Statement::Unimp | Statement::ToLabel(..)) => 1,
        _ => 0,
    }
}

/// The number of instructions before the label, if it has a place.
pub fn place_of(places: &HashMap<&[u8], usize>, label: &[u8]) -> Option<usize>
    ensures { result ≡ place_in places.now label.now }
{
    places.get(label).copied()
}

/// Adds a label after so many instructions.
fn add_label<'a>(
    places: &mut HashMap<&'a [u8], usize>,
    label: &'a [u8],
    before: usize,
) -> Result<(), AllocError>
    ensures { OnOk result ((q : List ℕ) → place_in places.new q
        ≡ (if bytes_eq label.now q then Some before else place_in places.old q)) }
{
    match places.insert(label, before) {
        Ok(_) => Ok(()),
        Err(_) => Err(AllocError),
    }
}

/// Adds the label of a line after so many instructions.
fn add_place<'a>(
    places: &mut HashMap<&'a [u8], usize>,
    line: &'a Option<Statement>,
    before: usize,
) -> Result<(), AllocError>
    ensures { OnOk result ((q : List ℕ) → place_in places.new q
        ≡ (if is_some_and (labels.labels q) line.now then Some before else place_in places.old q)) }
{
    match line {
        Some(Statement::Label(label)) => add_label(places, label.as_bytes(), before),
        _ => Ok(()),
    }
}

/// Where the labels of the lines are.
pub fn label_places(
    alloc: Global,
    lines: &[Option<Statement>],
) -> Result<HashMap<&[u8], usize>, AllocError>
    ensures { IfOk result (λ places. (q : List ℕ) → place_in places q ≡ labels.place (statements_in lines.now) q) }
{
    let mut places = HashMap::new(alloc);
    let mut before = 0;
    for line in lines {
        add_place(&mut places, line, before)?;
        before += size_of(line);
    }
    Ok(places)
}

/// How many instructions a branch or a jump reaches.
fn reach(inst: Inst) -> usize
    ensures { result ≡ labels.reach (table.shape inst.op) }
{
    match shape_of(inst.op) {
        Shape::Branch => 0x400,
        _ => 0x4_0000,
    }
}

/// Whether an instruction after so many others reaches the one after so many others.
fn reaches(inst: Inst, here: usize, there: usize) -> bool
    ensures { result ≡ labels.reaches inst here there }
{
    let most = reach(inst);
    if there < here {
        here - there <= most
    } else {
        there - here < most
    }
}

/// The instruction with its distance in bytes.
pub fn going(inst: Inst, here: usize, there: usize) -> Inst
    requires { labels.reaches inst here there ≡ true }
    ensures { result ≡ labels.going inst here there }
{
    Inst {
        imm: distance(here, there),
        ..inst
    }
}

/// Whether a line goes to a label out of its reach.
fn is_missed(line: &Option<Statement>, here: usize, places: &HashMap<&[u8], usize>) -> bool
    ensures { result ≡ is_some_and (labels.misses (place_in places.now) here) line.now }
{
    match line {
        Some(Statement::ToLabel(inst, label)) => match place_of(places, label.as_bytes()) {
            Some(there) => !reaches(*inst, here, there),
            None => false,
        },
        _ => false,
    }
}

/// The place of the first line that goes to a label out of its reach.
pub fn first_far(lines: &[Option<Statement>], places: &HashMap<&[u8], usize>) -> Option<usize>
    requires { (q : List ℕ) → place_in places.now q ≡ labels.place (statements_in lines.now) q }
    ensures { MatchOption result
        ((k : ℕ) → k < length lines.now → is_far_at lines.now k ≡ false)
        (λ at. (at < length lines.now) × (is_far_at lines.now at ≡ true)
        × ((k : ℕ) → k < at → is_far_at lines.now k ≡ false)) }
{
    let mut before = 0;
    for at in 0..lines.len() {
        let line = &lines[at];
        if is_missed(line, before, places) {
            return Some(at);
        }
        before += size_of(line);
    }
    None
}

/// The distance in bytes between instructions that lie less than 2^18 others apart.
fn distance(here: usize, there: usize) -> i64
    requires back { here ≤ there + 0x40000 }
    requires forward { there ≤ here + 0x40000 }
    ensures { result ≡ pos (4 * there) -ℤ pos (4 * here) }
{
    if there < here {
        -4 * (here - there) as i64
    } else {
        4 * (there - here) as i64
    }
}
