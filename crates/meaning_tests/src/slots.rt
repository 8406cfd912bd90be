//! The slots of a function's values, in the order in which its text names them, and operands that are read from slots.
use check_tests::modules::{Piece, read_pieces};
use ir_ident::{Identifier, Name};
use ir_sem::Value;
use ir_sem::Value::{Number, Poison};
use ir_slots::{Input, Inputs, SlotMap, Source, Width};
use ir_syntax::{Function, Module};
use std::alloc::{AllocError, Global};

/// A function with a loop. A phi there uses a value of an instruction below it.
const TEXT: &[Piece] = &[
    (1, "define i32 @f(i32 %a, ptr %b) {\n"),
    (1, "e: %c = add i32 %a, 1\n"),
    (1, "  store i32 %c, ptr %b\n"),
    (1, "  br label %l\n"),
    (1, "l: %d = phi i32 [ %c, %e ], [ %f, %l ]\n"),
    (1, "  %g = phi i8 [ 1, %e ], [ 2, %l ]\n"),
    (1, "  %f = sub i32 %d, 1\n"),
    (1, "  %h = icmp eq i32 %f, 0\n"),
    (1, "  br i1 %h, label %l, label %x\n"),
    (1, "x: ret i32 %f\n}\n"),
];

/// Names with their slots: of parameters, phis and results, and none of a block, of the function and of no value.
const SLOTS: &[(&str, Option<usize>)] = &[
    ("a", Some(0)),
    ("b", Some(1)),
    ("c", Some(2)),
    ("d", Some(3)),
    ("g", Some(4)),
    ("f", Some(5)),
    ("h", Some(6)),
    ("e", None),
    ("l", None),
    ("x", None),
    ("y", None),
];

fn has_slot(alloc: Global, slots: &SlotMap<'_>, name: &str, slot: Option<usize>) -> bool {
    match Identifier::from_slice(alloc, name.as_bytes()) {
        Ok(identifier) => slots.slot(&Name::Named(identifier)) == slot,
        Err(_) => false,
    }
}

fn has_slots(alloc: Global, function: &Function) -> bool {
    let Ok(slots) = SlotMap::new(alloc, function) else {
        return false;
    };
    for (name, slot) in SLOTS {
        if !has_slot(alloc, &slots, name, *slot) {
            return false;
        }
    }
    slots.count() == 7
}

fn is_right(alloc: Global, m: &Module) -> bool {
    match m.functions.as_slice() {
        [function] => has_slots(alloc, function),
        _ => false,
    }
}

#[test]
fn values_have_slots_in_the_order_of_the_text(rt: HostRuntime) {
    let right = match read_pieces(rt.alloc(), TEXT) {
        Some(m) => is_right(rt.alloc(), &m),
        None => false,
    };
    assert!(rt; right);
}

/// Operands with their widths, and their values where the slots have [`VALUES`].
const INPUTS: &[(u8, Source, Value)] = &[
    (64, Source::Slot(0), Number(7)),
    (8, Source::Slot(2), Number(0x34)),
    (1, Source::Constant(Number(3)), Number(1)),
    (32, Source::Slot(1), Poison),
    (32, Source::Constant(Poison), Poison),
];

const VALUES: &[Value] = &[Number(7), Poison, Number(0x1234)];

fn inputs_of(alloc: Global) -> Result<Inputs, AllocError> {
    let mut inputs = Vec::new(alloc);
    for (bits, source, _value) in INPUTS {
        if 0 < *bits && *bits <= 64 {
            let width = Width::from_bits(*bits);
            let source = *source;
            inputs.push(Input { width, source })?;
        }
    }
    Ok(Inputs::from_vec(inputs))
}

fn values_of(alloc: Global, inputs: &Inputs) -> Result<Vec<Value>, AllocError> {
    let mut found = Vec::new(alloc);
    inputs.push_values(VALUES, &mut found)?;
    Ok(found)
}

fn are_expected(found: &[Value]) -> bool {
    if found.len() != INPUTS.len() {
        return false;
    }
    for (place, value) in found.iter().enumerate() {
        if *value != INPUTS[place].2 {
            return false;
        }
    }
    true
}

fn are_read(alloc: Global) -> Result<bool, AllocError> {
    let inputs = inputs_of(alloc)?;
    let found = values_of(alloc, &inputs)?;
    Ok(are_expected(found.as_slice()))
}

#[test]
fn operands_are_read_at_their_widths(rt: HostRuntime) {
    let right = match are_read(rt.alloc()) {
        Ok(right) => right,
        Err(_) => false,
    };
    assert!(rt; right);
}
