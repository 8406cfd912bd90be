//! Where the ends of blocks lead, and what the phis there take (LangRef, "Terminator Instructions").
use check_tests::modules::{Piece, read_pieces};
use ir_flow::{Edge, Exit, Turn, Ways};
use ir_loaded::LoadedModule;
use ir_sem::Value;
use ir_sem::Value::{Number, Poison};
use ir_slots::SlotMap;
use ir_syntax::{Block, Function, Module};
use std::alloc::{AllocError, Global};

/// A function whose values have the slots of `%a`, `%c`, `%x` and `%y`. Its blocks are `e`, `h`, `t`, `s`, `r` and `u`, counted
/// from 0.
const TEXT: &[Piece] = &[
    (1, "define i8 @f(i8 %a, i1 %c) {\n"),
    (1, "e: br label %h\n"),
    (1, "h: %x = phi i8 [ %a, %e ], [ 9, %t ]\n"),
    (1, "  %y = phi i1 [ true, %e ], [ %c, %t ]\n"),
    (1, "  br i1 %c, label %t, label %s\n"),
    (1, "t: br label %h\n"),
    (
        1,
        "s: switch i8 %x, label %r [ i8 -1, label %t i8 3, label %u ]\n",
    ),
    (1, "r: ret i8 %x\n"),
    (1, "u: unreachable\n}\n"),
];

/// Where a block leads.
enum End {
    /// Back to the call with a value.
    Back(Value),
    /// To a block, whose phis take these values.
    To(usize, &'static [Value]),
    /// Nowhere.
    Nowhere,
}

/// Blocks by their places, the values of the slots, and where the run goes on.
const ROWS: &[(usize, &[Value], End)] = &[
    (
        0,
        &[Number(5), Number(0), Poison, Poison],
        End::To(1, &[Number(5), Number(1)]),
    ),
    (
        0,
        &[Poison, Number(0), Poison, Poison],
        End::To(1, &[Poison, Number(1)]),
    ),
    (
        1,
        &[Number(5), Number(1), Number(5), Number(1)],
        End::To(2, &[]),
    ),
    (
        1,
        &[Number(5), Number(0), Number(5), Number(1)],
        End::To(3, &[]),
    ),
    (1, &[Number(5), Poison, Number(5), Number(1)], End::Nowhere),
    (
        2,
        &[Number(5), Number(0), Number(5), Number(1)],
        End::To(1, &[Number(9), Number(0)]),
    ),
    (
        3,
        &[Number(5), Number(0), Number(255), Number(1)],
        End::To(2, &[]),
    ),
    (
        3,
        &[Number(5), Number(0), Number(3), Number(1)],
        End::To(5, &[]),
    ),
    (
        3,
        &[Number(5), Number(0), Number(4), Number(1)],
        End::To(4, &[]),
    ),
    (3, &[Number(5), Number(0), Poison, Number(1)], End::Nowhere),
    (
        4,
        &[Number(5), Number(0), Number(7), Number(1)],
        End::Back(Number(7)),
    ),
    (
        4,
        &[Number(5), Number(0), Poison, Number(1)],
        End::Back(Poison),
    ),
    (
        5,
        &[Number(5), Number(0), Number(7), Number(1)],
        End::Nowhere,
    ),
];

fn taken_on(alloc: Global, edge: &Edge, values: &[Value]) -> Result<Vec<Value>, AllocError> {
    let mut found = Vec::new(alloc);
    edge.values.push_values(values, &mut found)?;
    Ok(found)
}

fn leads(alloc: Global, edge: &Edge, values: &[Value], end: &End) -> bool {
    match (taken_on(alloc, edge, values), end) {
        (Ok(found), End::To(to, taken)) => edge.to == *to && found.as_slice() == *taken,
        _ => false,
    }
}

fn is_back(found: Option<Value>, end: &End) -> bool {
    match (found, end) {
        (Some(found), End::Back(value)) => found == *value,
        _ => false,
    }
}

fn turns(alloc: Global, exit: &Exit, values: &[Value], end: &End) -> bool {
    match exit.turn(values) {
        Turn::Back(found) => is_back(found, end),
        Turn::Along(edge) => leads(alloc, edge, values, end),
        Turn::Nowhere => matches!(end, End::Nowhere),
    }
}

fn ends<'a>(
    alloc: Global,
    ways: &Ways<'_, 'a>,
    block: &'a Block,
    values: &[Value],
    end: &End,
) -> bool {
    match ways.exit(alloc, &block.label, &block.term) {
        Ok(exit) => turns(alloc, &exit, values, end),
        Err(_) => false,
    }
}

/// The number of the first row that is wrong, counted from 1; 0 if none is.
fn wrong_row(alloc: Global, ways: &Ways<'_, '_>) -> usize {
    for (place, row) in ROWS.iter().enumerate() {
        let (at, values, end) = row;
        let right = match ways.blocks().get(*at) {
            Some(block) => ends(alloc, ways, block, values, end),
            None => false,
        };
        if !right {
            return place + 1;
        }
    }
    0
}

fn wrong_in<'r, 'a>(alloc: Global, l: &'r LoadedModule<'a>, slots: &'r SlotMap<'a>) -> usize {
    match Ways::new(alloc, l, slots) {
        Ok(ways) => wrong_row(alloc, &ways),
        Err(_) => 1,
    }
}

fn wrong_of<'a>(alloc: Global, l: &LoadedModule<'a>, function: &'a Function) -> usize {
    match SlotMap::new(alloc, function) {
        Ok(slots) => wrong_in(alloc, l, &slots),
        Err(_) => 1,
    }
}

fn wrong_end(alloc: Global, m: &Module) -> usize {
    match (LoadedModule::new(alloc, m, &[]), m.functions.as_slice()) {
        (Ok(l), [function]) => wrong_of(alloc, &l, function),
        _ => 1,
    }
}

#[test]
fn blocks_lead_to_blocks_by_the_values_of_slots(rt: HostRuntime) {
    let wrong = match read_pieces(rt.alloc(), TEXT) {
        Some(m) => wrong_end(rt.alloc(), &m),
        None => 1,
    };
    assert_eq!(rt; wrong, 0);
}
