//! Programs that are run on the machine.
use crate::operations::end_of;
use cg_io::{MemSink, WriteFault};
use obj_link::{Addresses, Bytes, Image};
use rv_mach::{Machine, Stop, TrapKind};
use std::alloc::{AllocError, Global};

// Words that GNU as gives.
const ADDI_A0_ZERO_MINUS_7: u32 = 0xff90_0513;

const ADDI_A7_ZERO_1: u32 = 0x0010_0893;

const ADDI_A7_ZERO_2: u32 = 0x0020_0893;

const ADDI_A7_ZERO_93: u32 = 0x05d0_0893;

const ADDI_SP_SP_MINUS_2048: u32 = 0x8001_0113;

const ECALL: u32 = 0x0000_0073;

const EBREAK: u32 = 0x0010_0073;

const LUI_T0_16: u32 = 0x0001_02b7;

const LUI_SP_0X3F800: u32 = 0x3f80_0137;

const JALR_ZERO_0_T0: u32 = 0x0002_8067;

const JALR_ZERO_1_T0: u32 = 0x0012_8067;

const JALR_ZERO_2_T0: u32 = 0x0022_8067;

const JALR_ZERO_0_ZERO: u32 = 0x0000_0067;

const RET: u32 = 0x0000_8067;

/// The runtime, and a `main` that returns -7.
const MAIN: &[u32] = &[
    0x0000_0513, // li a0, 0
    0x0000_0593, // li a1, 0
    0x0001_00b7, // lui ra, 16
    0x0300_80e7, // jalr ra, 48(ra)
    ADDI_A7_ZERO_93,
    ECALL,
    ADDI_A7_ZERO_1,
    ECALL,
    RET,
    ADDI_A7_ZERO_2,
    ECALL,
    RET,
    0xff90_0293, // li t0, -7
    0x0002_8513, // mv a0, t0
    RET,
];

/// A number of steps, and how a run of so many ends.
type Run = (u64, Stop);

/// Programs, and how runs without input end, one after the other, none of which puts a byte.
const ENDED: &[(&[u32], &[Run])] = &[
    (
        &[ADDI_A0_ZERO_MINUS_7, ADDI_A7_ZERO_93, ECALL],
        &[
            (4, Stop::Exited(4_294_967_289)),
            (1, Stop::Exited(4_294_967_289)),
        ],
    ),
    (
        &[EBREAK, 0, 0],
        &[
            (4, Stop::Trapped(TrapKind::Break)),
            (1, Stop::Trapped(TrapKind::Break)),
        ],
    ),
    (
        &[0, 0, 0],
        &[
            (4, Stop::Trapped(TrapKind::Illegal)),
            (1, Stop::Trapped(TrapKind::Illegal)),
        ],
    ),
    (
        &[LUI_T0_16, JALR_ZERO_2_T0, 0],
        &[
            (4, Stop::Trapped(TrapKind::Misaligned)),
            (1, Stop::Trapped(TrapKind::Misaligned)),
        ],
    ),
    (
        &[JALR_ZERO_0_ZERO, 0, 0],
        &[
            (4, Stop::Trapped(TrapKind::Unmapped)),
            (1, Stop::Trapped(TrapKind::Unmapped)),
        ],
    ),
    (
        &[LUI_T0_16, LUI_T0_16, LUI_T0_16],
        &[
            (4, Stop::Trapped(TrapKind::Unmapped)),
            (1, Stop::Trapped(TrapKind::Unmapped)),
        ],
    ),
    (
        &[ECALL, 0, 0],
        &[
            (4, Stop::Trapped(TrapKind::Ecall)),
            (1, Stop::Trapped(TrapKind::Ecall)),
        ],
    ),
    (
        &[LUI_SP_0X3F800, ADDI_SP_SP_MINUS_2048, 0],
        &[(4, Stop::StackOut), (1, Stop::StackOut)],
    ),
    (
        &[LUI_T0_16, JALR_ZERO_1_T0, 0],
        &[(4, Stop::Running), (1, Stop::Running)],
    ),
    (
        MAIN,
        &[(8, Stop::Running), (1, Stop::Exited(4_294_967_289))],
    ),
];

/// An image of these words, without symbols.
fn image_of(alloc: Global, words: &[u32]) -> Result<Image, AllocError> {
    let mut bytes = Vec::new(alloc);
    for word in words {
        bytes.extend_from_slice(&word.to_le_bytes())?;
    }
    Ok(Image {
        bytes: Bytes::from_vec(bytes),
        instructions: words.len() as u64,
        addresses: Addresses::from_vec(Vec::new(alloc)),
    })
}

/// The machine with an image of these words.
pub(crate) fn machine_of(alloc: Global, words: &[u32]) -> Result<Machine, AllocError> {
    let image = image_of(alloc, words)?;
    let machine = Machine::load(alloc, &image);
    drop(image);
    machine
}

/// Whether runs without input end so, one after the other, and put no byte.
fn runs_end(machine: &mut Machine, runs: &[Run], out: &mut MemSink) -> bool {
    for (steps, end) in runs {
        if machine.run(*steps, b"", out) != Ok(*end) {
            return false;
        }
    }
    true
}

/// Whether runs of these words end so.
fn words_end(alloc: Global, words: &[u32], runs: &[Run]) -> Result<bool, AllocError> {
    let mut out = MemSink::new(alloc, 0, Vec::new(alloc))?;
    match machine_of(alloc, words) {
        Ok(mut machine) => Ok(runs_end(&mut machine, runs, &mut out)),
        Err(end) => Err(end),
    }
}

/// The number of the first program whose runs end otherwise, or 0.
fn wrong_program(alloc: Global) -> usize {
    for at in 0..ENDED.len() {
        if words_end(alloc, ENDED[at].0, ENDED[at].1) != Ok(true) {
            return at + 1;
        }
    }
    0
}

#[test]
fn each_end_comes_from_its_words(rt: HostRuntime) {
    assert_eq!(rt; wrong_program(rt.alloc()), 0);
}

/// Programs whose last instruction loads, stores or jumps, and how each ends in four steps.
const REACHED: &[(&[u32], Stop)] = &[
    // lw a0, 2(sp), whose address is no multiple of 4, and lies outside too
    (&[0x0021_2503], Stop::Trapped(TrapKind::Misaligned)),
    // sh a0, -1(sp)
    (&[0xfea1_1fa3], Stop::Trapped(TrapKind::Misaligned)),
    // lh a0, 1(zero)
    (&[0x0010_1503], Stop::Trapped(TrapKind::Misaligned)),
    // lui t0, 16; sw a0, 2(t0)
    (
        &[LUI_T0_16, 0x00a2_a123],
        Stop::Trapped(TrapKind::Misaligned),
    ),
    // lb a0, 0(sp), behind the stack
    (&[0x0001_0503], Stop::Trapped(TrapKind::Unmapped)),
    // sd a0, 0(sp)
    (&[0x00a1_3023], Stop::Trapped(TrapKind::Unmapped)),
    // lui sp, 0x3f800; lb a0, -1(sp), before the stack
    (
        &[LUI_SP_0X3F800, 0xfff1_0503],
        Stop::Trapped(TrapKind::Unmapped),
    ),
    // ld a0, 0(zero)
    (&[0x0000_3503], Stop::Trapped(TrapKind::Unmapped)),
    // lui t0, 16; lb a0, -1(t0), before the image
    (&[LUI_T0_16, 0xfff2_8503], Stop::Trapped(TrapKind::Unmapped)),
    // lui t0, 16; lw a0, 12(t0), behind the image
    (
        &[LUI_T0_16, 0x00c2_a503, 0],
        Stop::Trapped(TrapKind::Unmapped),
    ),
    // lui t0, 16; sw a0, 12(t0)
    (
        &[LUI_T0_16, 0x00a2_a623, 0],
        Stop::Trapped(TrapKind::Unmapped),
    ),
    // jal ra, .+8; ebreak; mv a0, ra; li a7, 93; ecall
    (
        &[0x0080_00ef, EBREAK, 0x0000_8513, ADDI_A7_ZERO_93, ECALL],
        Stop::Exited(0x1_0004),
    ),
    // j .+16; li a7, 93; ecall; ebreak; jal ra, .-12
    (
        &[0x0100_006f, ADDI_A7_ZERO_93, ECALL, EBREAK, 0xff5f_f0ef],
        Stop::Exited(0),
    ),
];

/// The number of the first of these programs that ends otherwise, or 0.
fn wrong_end(alloc: Global) -> usize {
    for at in 0..REACHED.len() {
        if end_of(alloc, REACHED[at].0, 4) != Ok(Some(REACHED[at].1)) {
            return at + 1;
        }
    }
    0
}

#[test]
fn loads_stores_and_jumps_reach_their_addresses(rt: HostRuntime) {
    assert_eq!(rt; wrong_end(rt.alloc()), 0);
}

/// It writes over its fourth instruction, an `ebreak`, what its last word is, `li a0, 7`:
/// `lui t0, 16`, `lw t1, 24(t0)`, `sw t1, 12(t0)`, `ebreak`, `li a7, 93`, `ecall`, `li a0, 7`.
const OVERWRITTEN: &[u32] = &[
    LUI_T0_16,
    0x0182_a303,
    0x0062_a623,
    EBREAK,
    ADDI_A7_ZERO_93,
    ECALL,
    0x0070_0513,
];

#[test]
fn what_is_stored_is_fetched(rt: HostRuntime) {
    assert!(rt; end_of(rt.alloc(), OVERWRITTEN, 6) == Ok(Some(Stop::Exited(7))));
}

/// Gets a byte and puts it, twice, then gets one and exits with it.
const ECHO: &[u32] = &[
    ADDI_A7_ZERO_2,
    ECALL,
    ADDI_A7_ZERO_1,
    ECALL,
    ADDI_A7_ZERO_2,
    ECALL,
    ADDI_A7_ZERO_1,
    ECALL,
    ADDI_A7_ZERO_2,
    ECALL,
    ADDI_A7_ZERO_93,
    ECALL,
];

/// Whether two bytes are got and put, with the first write failing and the run tried again; then a0 is -1.
fn puts_over_a_fault(machine: &mut Machine, out: &mut MemSink) -> bool {
    let failed = machine.run(12, b"hi", out) == Err(WriteFault { written: 0 });
    let running = machine.run(3, b"hi", out) == Ok(Stop::Running);
    let first = out.bytes() == b"h".as_slice();
    let exited = machine.run(6, b"hi", out) == Ok(Stop::Exited(u32::MAX));
    failed & running & first & exited & (out.bytes() == b"hi".as_slice())
}

/// Whether the words that get and put bytes do so over a fault of the first write.
fn echoes_over_a_fault(alloc: Global) -> Result<bool, AllocError> {
    let mut out = MemSink::new(alloc, 2, vec![in alloc; 1]?)?;
    match machine_of(alloc, ECHO) {
        Ok(mut machine) => Ok(puts_over_a_fault(&mut machine, &mut out)),
        Err(end) => Err(end),
    }
}

#[test]
fn bytes_are_got_and_put_over_a_fault(rt: HostRuntime) {
    assert!(rt; echoes_over_a_fault(rt.alloc()) == Ok(true));
}

/// A loop without an end.
const LOOP: &[u32] = &[LUI_T0_16, JALR_ZERO_0_T0];

/// Enough steps that one of more than constant time would show.
const MANY: &[Run] = &[(10_000_000, Stop::Running)];

#[test]
fn a_step_takes_constant_time(rt: HostRuntime) {
    assert!(rt; words_end(rt.alloc(), LOOP, MANY) == Ok(true));
}
