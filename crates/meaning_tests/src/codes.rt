//! What prepared instructions are about to do (LangRef, "Instruction Reference"), where slots have given values and a memory has
//! two blocks.
use check_tests::modules::{Piece, read_pieces};
use ir_access::Action;
use ir_access::Action::{Break, Give};
use ir_code::{Code, Operation, code_of};
use ir_loaded::LoadedModule;
use ir_mem::Memory;
use ir_sem::Value;
use ir_sem::Value::{Number, Poison};
use ir_slots::{Inputs, SlotMap};
use ir_syntax::{Function, Module, Op};
use std::alloc::Global;

/// The functions that are called.
const DECLARED: &str = "declare void @llvm.memcpy.p0.p0.i64(ptr, ptr, i64, i1)
declare void @llvm.memmove.p0.p0.i64(ptr, ptr, i64, i1)
declare void @llvm.memset.p0.i64(ptr, i8, i64, i1)
declare void @__host_put(i32)
declare i32 @__host_get()
declare void @llvm.trap()
declare i8 @llvm.umax.i8(i8, i8)
declare i8 @llvm.smax.i8(i8, i8)
declare i8 @llvm.ctlz.i8(i8, i1)
";

/// The values of the parameters, and what the instruction is about to do.
type Case = (&'static [Value], Action);

/// Parameters, an instruction over them, and its cases.
const ROWS: &[(&str, &str, &[Case])] = &[
    // Numbers of a width wrap; promises that are broken give poison.
    (
        "i8 %a, i8 %b",
        "%r = add i8 %a, %b",
        &[
            (&[Number(200), Number(100)], Give(Number(44))),
            (&[Poison, Number(100)], Give(Poison)),
        ],
    ),
    (
        "i8 %a, i8 %b",
        "%r = add nuw i8 %a, %b",
        &[(&[Number(200), Number(100)], Give(Poison))],
    ),
    (
        "i8 %a, i8 %b",
        "%r = add nsw i8 %a, %b",
        &[
            (&[Number(100), Number(27)], Give(Number(127))),
            (&[Number(100), Number(28)], Give(Poison)),
        ],
    ),
    (
        "i8 %a",
        "%r = sub i8 %a, 1",
        &[(&[Number(0)], Give(Number(255)))],
    ),
    (
        "i8 %a",
        "%r = shl i8 %a, 8",
        &[(&[Number(1)], Give(Poison))],
    ),
    (
        "i8 %a",
        "%r = xor i8 %a, -1",
        &[(&[Number(15)], Give(Number(240)))],
    ),
    // Quotients by zero or by poison, and one that the width does not hold.
    (
        "i8 %a, i8 %b",
        "%r = udiv i8 %a, %b",
        &[
            (&[Number(7), Number(2)], Give(Number(3))),
            (&[Number(7), Number(0)], Break),
            (&[Number(7), Poison], Break),
            (&[Poison, Number(2)], Give(Poison)),
        ],
    ),
    (
        "i8 %a, i8 %b",
        "%r = udiv exact i8 %a, %b",
        &[(&[Number(7), Number(2)], Give(Poison))],
    ),
    (
        "i8 %a, i8 %b",
        "%r = sdiv i8 %a, %b",
        &[
            (&[Number(249), Number(2)], Give(Number(253))),
            (&[Number(128), Number(255)], Break),
        ],
    ),
    // Comparisons, choices and conversions.
    (
        "i8 %a",
        "%r = icmp slt i8 %a, 1",
        &[
            (&[Number(255)], Give(Number(1))),
            (&[Number(1)], Give(Number(0))),
            (&[Poison], Give(Poison)),
        ],
    ),
    (
        "i8 %a",
        "%r = icmp ult i8 %a, 1",
        &[(&[Number(255)], Give(Number(0)))],
    ),
    (
        "ptr %p",
        "%r = icmp eq ptr %p, null",
        &[(&[Number(0)], Give(Number(1)))],
    ),
    (
        "i1 %c, i8 %a",
        "%r = select i1 %c, i8 %a, i8 9",
        &[
            (&[Number(1), Number(5)], Give(Number(5))),
            (&[Number(0), Poison], Give(Number(9))),
            (&[Poison, Number(5)], Give(Poison)),
        ],
    ),
    (
        "i8 %a",
        "%r = sext i8 %a to i32",
        &[
            (&[Number(128)], Give(Number(0xffff_ff80))),
            (&[Number(127)], Give(Number(127))),
        ],
    ),
    (
        "i8 %a",
        "%r = zext i8 %a to i32",
        &[(&[Number(128)], Give(Number(128)))],
    ),
    (
        "i32 %a",
        "%r = trunc i32 %a to i8",
        &[(&[Number(4660)], Give(Number(0x34)))],
    ),
    (
        "i8 %a",
        "%r = freeze i8 %a",
        &[
            (&[Number(5)], Give(Number(5))),
            (&[Poison], Action::Choose(8)),
        ],
    ),
    // Elements: strides of 20 bytes, a field at 4, and in it strides of 4; and a field of a packed struct at 1.
    (
        "ptr %p, i64 %n, i8 %a",
        "%r = getelementptr { i8, [4 x i32] }, ptr %p, i64 %n, i32 1, i8 %a",
        &[
            (&[Number(64), Number(1), Number(255)], Give(Number(84))),
            (&[Number(64), Number(0), Number(2)], Give(Number(76))),
            (
                &[Number(64), Number(0xffff_ffff_ffff_ffff), Number(0)],
                Give(Number(48)),
            ),
            (&[Number(64), Poison, Number(0)], Give(Poison)),
        ],
    ),
    (
        "ptr %p",
        "%r = getelementptr inbounds <{ i8, i32 }>, ptr %p, i64 0, i32 1",
        &[(&[Number(64)], Give(Number(65))), (&[Poison], Give(Poison))],
    ),
    // Loads: of one block, at an address with the alignment of the type or that is written.
    (
        "ptr %p",
        "%r = load i16, ptr %p",
        &[
            (&[Number(64)], Give(Number(0x1111))),
            (&[Number(65)], Break),
            (&[Number(80)], Break),
            (&[Poison], Break),
        ],
    ),
    (
        "ptr %p",
        "%r = load i16, ptr %p, align 1",
        &[
            (&[Number(65)], Give(Number(0x1111))),
            (&[Number(79)], Break),
        ],
    ),
    (
        "ptr %p",
        "%r = load i12, ptr %p",
        &[(&[Number(64)], Give(Number(0x111)))],
    ),
    (
        "ptr %p",
        "%r = load i8, ptr %p",
        &[(&[Number(96)], Give(Number(128)))],
    ),
    // Stores: into a block that may be written. Poison stores any bytes.
    (
        "i8 %a, ptr %p",
        "store i8 %a, ptr %p",
        &[
            (
                &[Number(7), Number(64)],
                Action::Write {
                    at: 64,
                    size: 1,
                    number: 7,
                },
            ),
            (&[Poison, Number(79)], Action::WriteAny { at: 79, size: 1 }),
            (&[Number(7), Number(96)], Break),
            (&[Number(7), Number(80)], Break),
            (&[Number(7), Poison], Break),
        ],
    ),
    (
        "ptr %p",
        "store i17 -1, ptr %p",
        &[
            (
                &[Number(64)],
                Action::Write {
                    at: 64,
                    size: 3,
                    number: 0x1_ffff,
                },
            ),
            (&[Number(66)], Break),
        ],
    ),
    // Blocks: of a size and an alignment.
    (
        "",
        "%r = alloca i32, i32 3",
        &[(&[], Action::Reserve { size: 12, align: 4 })],
    ),
    (
        "",
        "%r = alloca { i8, i16 }, align 16",
        &[(&[], Action::Reserve { size: 4, align: 16 })],
    ),
    // Ranges that are copied and filled. An empty one is not looked at.
    (
        "ptr %p, ptr %q, i64 %n",
        "call void @llvm.memcpy.p0.p0.i64(ptr %p, ptr %q, i64 %n, i1 false)",
        &[
            (
                &[Number(64), Number(72), Number(8)],
                Action::Copy {
                    to: 64,
                    from: 72,
                    size: 8,
                },
            ),
            (&[Number(64), Number(68), Number(8)], Break),
            (&[Number(96), Number(64), Number(8)], Break),
            (&[Poison, Poison, Number(0)], Give(Poison)),
        ],
    ),
    (
        "ptr %p, ptr %q, i64 %n",
        "call void @llvm.memmove.p0.p0.i64(ptr %p, ptr %q, i64 %n, i1 false)",
        &[
            (
                &[Number(64), Number(72), Number(8)],
                Action::Copy {
                    to: 64,
                    from: 72,
                    size: 8,
                },
            ),
            (
                &[Number(64), Number(68), Number(8)],
                Action::Copy {
                    to: 64,
                    from: 68,
                    size: 8,
                },
            ),
            (&[Number(96), Number(64), Number(8)], Break),
            (&[Poison, Poison, Number(0)], Give(Poison)),
        ],
    ),
    (
        "ptr %p",
        "call void @llvm.memcpy.p0.p0.i64(ptr align 16 %p, ptr %p, i64 8, i1 false)",
        &[
            (
                &[Number(64)],
                Action::Copy {
                    to: 64,
                    from: 64,
                    size: 8,
                },
            ),
            (&[Number(72)], Break),
        ],
    ),
    (
        "ptr %p, i8 %a, i64 %n",
        "call void @llvm.memset.p0.i64(ptr %p, i8 %a, i64 %n, i1 false)",
        &[
            (
                &[Number(64), Number(171), Number(16)],
                Action::Fill {
                    to: 64,
                    size: 16,
                    byte: 171,
                },
            ),
            (
                &[Number(64), Poison, Number(4)],
                Action::FillAny { to: 64, size: 4 },
            ),
            (&[Number(64), Number(171), Number(17)], Break),
            (&[Poison, Number(171), Number(0)], Give(Poison)),
        ],
    ),
    // Output, input, and the abnormal end.
    (
        "i32 %a",
        "call void @__host_put(i32 %a)",
        &[(&[Number(0x141)], Action::Put(0x41)), (&[Poison], Break)],
    ),
    ("", "%r = call i32 @__host_get()", &[(&[], Action::Get)]),
    ("", "call void @llvm.trap()", &[(&[], Action::Trap)]),
    // Functions of integers.
    (
        "i8 %a, i8 %b",
        "%r = call i8 @llvm.umax.i8(i8 %a, i8 %b)",
        &[(&[Number(200), Number(100)], Give(Number(200)))],
    ),
    (
        "i8 %a, i8 %b",
        "%r = call i8 @llvm.smax.i8(i8 %a, i8 %b)",
        &[(&[Number(200), Number(100)], Give(Number(100)))],
    ),
    (
        "i8 %a",
        "%r = call i8 @llvm.ctlz.i8(i8 %a, i1 false)",
        &[
            (&[Number(0)], Give(Number(8))),
            (&[Number(16)], Give(Number(3))),
        ],
    ),
    (
        "i8 %a",
        "%r = call i8 @llvm.ctlz.i8(i8 %a, i1 true)",
        &[(&[Number(0)], Give(Poison))],
    ),
];

/// 16 bytes at 64, and 8 that may not be written at 96.
fn push_blocks(alloc: Global, memory: &mut Memory) -> bool {
    memory.place(alloc, 64, 16, 16, 0x11).is_ok()
        && memory.place(alloc, 96, 8, 8, 0x80).is_ok()
        && memory.seal(96).is_some()
}

/// The first instruction of a function.
fn first_op(f: &Function) -> Option<&Op> {
    let blocks = f.blocks.as_ref()?;
    match blocks.as_slice() {
        [block, ..] => match block.instrs.as_slice() {
            [instr, ..] => Some(&instr.op),
            [] => None,
        },
        [] => None,
    }
}

fn acts(operation: &Operation, memory: &Memory, cases: &[Case]) -> bool {
    for (values, action) in cases {
        if operation.action(values, memory) != *action {
            return false;
        }
    }
    true
}

fn does(code: &Code, memory: &Memory, cases: &[Case]) -> bool {
    match code {
        Code::Plain(operation) => acts(operation, memory, cases),
        Code::Enter { .. } => false,
    }
}

/// What the first instruction of a function does.
fn first_code<'a>(alloc: Global, l: &LoadedModule<'a>, function: &'a Function) -> Option<Code> {
    match (SlotMap::new(alloc, function), first_op(function)) {
        (Ok(slots), Some(op)) => code_of(alloc, l, &slots, op).ok(),
        _ => None,
    }
}

/// What the first instruction of a module does.
fn code_in(alloc: Global, m: &Module) -> Option<Code> {
    match (LoadedModule::new(alloc, m, &[]), m.functions.as_slice()) {
        (Ok(l), [function, ..]) => first_code(alloc, &l, function),
        _ => None,
    }
}

fn code_in_text(alloc: Global, text: &[Piece]) -> Option<Code> {
    match read_pieces(alloc, text) {
        Some(m) => code_in(alloc, &m),
        None => None,
    }
}

/// What an instruction over these parameters does.
fn code_with(alloc: Global, params: &'static str, instr: &'static str) -> Option<Code> {
    let text: [Piece; 6] = [
        (1, "define void @f("),
        (1, params),
        (1, ") {\n  "),
        (1, instr),
        (1, "\n  ret void\n}\n"),
        (1, DECLARED),
    ];
    code_in_text(alloc, &text)
}

#[test]
fn instructions_do_what_the_reference_says(rt: HostRuntime) {
    let mut memory = Memory::new(rt.alloc());
    assert!(rt; push_blocks(rt.alloc(), &mut memory));
    for (params, instr, cases) in ROWS {
        let right = match code_with(rt.alloc(), params, instr) {
            Some(code) => does(&code, &memory, cases),
            None => false,
        };
        assert!(rt; right, "{instr}");
    }
}

/// A call of a function that has blocks, the third of its module.
const CALL: &[Piece] = &[
    (
        1,
        "define void @f(i8 %a) {\n  %r = call i8 @g(i8 %a, i8 -1)\n  ret void\n}\n",
    ),
    (1, "declare void @h()\n"),
    (1, "define i8 @g(i8 %x, i8 %y) {\n  ret i8 %x\n}\n"),
];

fn are_given(alloc: Global, arguments: &Inputs) -> bool {
    let mut found = Vec::new(alloc);
    match arguments.push_values(&[Number(5)], &mut found) {
        Ok(()) => found.as_slice() == [Number(5), Number(255)].as_slice(),
        Err(_) => false,
    }
}

#[test]
fn calls_enter_functions_with_blocks(rt: HostRuntime) {
    let right = match &code_in_text(rt.alloc(), CALL) {
        Some(
            Code::Enter {
                function,
                arguments,
            },
        ) => *function == 2 && are_given(rt.alloc(), arguments),
        Some(Code::Plain(_)) | None => false,
    };
    assert!(rt; right);
}
