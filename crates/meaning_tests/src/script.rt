//! What is done to a memory, and what it is expected to answer.
use ir_mem::{Memory, PlaceEnd};
use std::alloc::Global;

/// What is done to a memory.
#[derive(Clone, Copy)]
pub(crate) enum Act {
    /// A block is placed: its address, size and alignment, and each of its bytes.
    Place(u64, u64, u64, u8),
    /// A number is loaded: its address and size.
    Load(u64, u8),
    /// A number is stored: its address, its size and the number.
    Store(u64, u8, u64),
    /// The bytes of a range are counted: its address and size.
    Count(u64, u64),
    /// The last block at an address is sealed.
    Seal(u64),
    /// The last block at an address is freed.
    Free(u64),
    /// The live blocks are counted.
    Live,
}

/// What a memory answers.
#[derive(Clone, Copy, Debug, PartialEq, Eq)]
pub(crate) enum Answer {
    /// It is done.
    Done,
    /// The place is taken.
    Taken,
    /// No memory is left.
    NoMemory,
    /// There is no such block.
    Nothing,
    /// A number.
    Number(u64),
}

/// One act on a memory, with its answer.
pub(crate) type Step = (Act, Answer);

fn placed(memory: &mut Memory, alloc: Global, block: (u64, u64, u64, u8)) -> Answer {
    let (at, size, align, fill) = block;
    if align == 0 {
        return Answer::Nothing;
    }
    match memory.place(alloc, at, size, align, fill) {
        Ok(()) => Answer::Done,
        Err(PlaceEnd::Taken { .. }) => Answer::Taken,
        Err(PlaceEnd::NoMemory) => Answer::NoMemory,
    }
}

fn loaded(memory: &Memory, at: u64, size: u8) -> Answer {
    if size == 0 || size > 8 {
        return Answer::Nothing;
    }
    match memory.load(at, size) {
        Some(number) => Answer::Number(number),
        None => Answer::Nothing,
    }
}

fn stored(memory: &mut Memory, at: u64, size: u8, number: u64) -> Answer {
    if size == 0 || size > 8 {
        return Answer::Nothing;
    }
    done(memory.store(at, size, number))
}

fn counted(memory: &Memory, at: u64, size: u64) -> Answer {
    if size == 0 {
        return Answer::Nothing;
    }
    match memory.bytes(at, size) {
        Some(bytes) => Answer::Number(bytes.len() as u64),
        None => Answer::Nothing,
    }
}

fn done(answer: Option<()>) -> Answer {
    match answer {
        Some(()) => Answer::Done,
        None => Answer::Nothing,
    }
}

fn answer_to(memory: &mut Memory, alloc: Global, act: Act) -> Answer {
    match act {
        Act::Place(at, size, align, fill) => placed(memory, alloc, (at, size, align, fill)),
        Act::Load(at, size) => loaded(memory, at, size),
        Act::Store(at, size, number) => stored(memory, at, size, number),
        Act::Count(at, size) => counted(memory, at, size),
        Act::Seal(at) => done(memory.seal(at)),
        Act::Free(at) => done(memory.free(at)),
        Act::Live => Answer::Number(memory.blocks().len() as u64),
    }
}

/// The number of the first act on a memory, which has no blocks at first, that has another answer, or 0.
pub(crate) fn wrong_act(alloc: Global, script: &[Step]) -> usize {
    let mut memory = Memory::new(alloc);
    for at in 0..script.len() {
        let (act, expected) = script[at];
        if answer_to(&mut memory, alloc, act) != expected {
            return at + 1;
        }
    }
    0
}
