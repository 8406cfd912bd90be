//! Uses of local names that some path reaches without their definition: texts, and the least line of such a use.
use check_tests::modules::read;
use ir_defined::undefined_use;
use std::alloc::Global;

/// Texts, and the least line of such a use, if there is one.
const ROWS: &[(&str, Option<u32>)] = &[
    ("declare i8 @g(i8)\n", None),
    // A parameter is always defined.
    ("define i8 @f(i8 %a) {\nret i8 %a }\n", None),
    ("define i8 @f() {\nret i8 %a }\n", Some(2)),
    // A parameter of another function is not.
    (
        "define void @g(i8 %a) {\nret void }\ndefine i8 @f() {\nret i8 %a }\n",
        Some(4),
    ),
    // A result is defined behind its instruction.
    (
        "define i8 @f() {\n%a = freeze i8 undef\n%b = freeze i8 %a\nret i8 %b }\n",
        None,
    ),
    (
        "define i8 @f() {\n%b = freeze i8 %a\n%a = freeze i8 undef\nret i8 %b }\n",
        Some(2),
    ),
    (
        "define i8 @f() {\n%a = freeze i8 %a\nret i8 %a }\n",
        Some(2),
    ),
    // The line is that of the first token of the instruction.
    ("define i8 @f() {\nret\ni8\n%a }\n", Some(2)),
    // A use that no path reaches.
    ("define void @f() {\nret void\nb:\nret i8 %a\n}\n", None),
    (
        "define void @f() {\nret void\nb:\n%c = freeze i8 %a\n%a = freeze i8 0\nbr label %b\n}\n",
        None,
    ),
    // A loop: the definition stands later in the block of the use.
    (
        "define void @f() {\nbr label %b\nb:\n%c = freeze i8 %a\n%a = freeze i8 0\nbr label %b\n}\n",
        Some(4),
    ),
    // In a later block of the loop.
    (
        "define void @f() {\nbr label %b\nb:\n%c = freeze i8 %a\nbr label %d\nd:\n%a = freeze i8 0\nbr label %b\n}\n",
        Some(4),
    ),
    // In the block before.
    (
        "define i8 @f() {\n%a = freeze i8 0\nbr label %b\nb:\nret i8 %a\n}\n",
        None,
    ),
    // The entry of a phi is used at the end of the block that it names, which may be the phi's own.
    (
        "define void @f() {\ns:\nbr label %b\nb:\n%p = phi i8 [ 0, %s ], [ %a, %b ]\n%a = freeze i8 %p\nbr label %b\n}\n",
        None,
    ),
    (
        "define void @f() {\ns:\nbr label %b\nb:\n%p = phi i8 [ 0, %s ], [ %p, %b ]\nbr label %b\n}\n",
        None,
    ),
    (
        "define void @f() {\ns:\nbr label %b\nb:\n%p = phi i8 [ %a, %s ], [ 0, %b ]\n%a = freeze i8 %p\nbr label %b\n}\n",
        Some(5),
    ),
    // No path reaches the block that the entry names.
    (
        "define void @f() {\ns:\nbr label %b\nd:\nbr label %b\nb:\n%p = phi i8 [ 0, %s ], [ %a, %d ]\nret void\n}\n",
        None,
    ),
    // All phis stand before the first instruction.
    (
        "define i8 @f() {\ns:\nbr label %b\nb:\n%p = phi i8 [ 0, %s ]\n%q = phi i8 [ 1, %s ]\n%c = add i8 %p, %q\nret i8 %c\n}\n",
        None,
    ),
    // Two ways to a block: defined in front of both, on one of them, on both under other names.
    (
        "define i8 @f(i1 %x) {\n%a = freeze i8 0\nbr i1 %x, label %l, label %r\nl:\nbr label %e\nr:\nbr label %e\ne:\nret i8 %a\n}\n",
        None,
    ),
    (
        "define i8 @f(i1 %x) {\nbr i1 %x, label %l, label %r\nl:\n%a = freeze i8 0\nbr label %e\nr:\nbr label %e\ne:\nret i8 %a\n}\n",
        Some(9),
    ),
    (
        "define i8 @f(i1 %x) {\nbr i1 %x, label %l, label %r\nl:\n%a = freeze i8 0\nbr label %e\nr:\n%b = freeze i8 1\nbr label %e\ne:\n%p = phi i8 [ %a, %l ], [ %b, %r ]\nret i8 %p\n}\n",
        None,
    ),
    (
        "define i8 @f(i1 %x) {\nbr i1 %x, label %l, label %r\nl:\n%a = freeze i8 0\nbr label %e\nr:\n%b = freeze i8 1\nbr label %e\ne:\n%p = phi i8 [ %b, %l ], [ %a, %r ]\nret i8 %p\n}\n",
        Some(10),
    ),
    // A name that is defined twice is defined where both ways pass one of them.
    (
        "define i8 @f(i1 %x) {\nbr i1 %x, label %l, label %r\nl:\n%a = freeze i8 0\nbr label %e\nr:\n%a = freeze i8 1\nbr label %e\ne:\nret i8 %a\n}\n",
        None,
    ),
    // A loop that paths enter at two blocks.
    (
        "define i8 @f(i1 %x) {\n%a = freeze i8 0\nbr i1 %x, label %l, label %r\nl:\nbr label %r\nr:\n%b = freeze i8 %a\nbr i1 %x, label %l, label %e\ne:\nret i8 %b\n}\n",
        None,
    ),
    (
        "define i8 @f(i1 %x) {\nbr i1 %x, label %l, label %r\nl:\n%c = freeze i8 %b\nbr label %r\nr:\n%b = freeze i8 0\nbr i1 %x, label %l, label %e\ne:\nret i8 %b\n}\n",
        Some(4),
    ),
    // The terminators: a condition, the value of a switch, and where no case has it.
    (
        "define void @f() {\nbr i1 %x, label %a, label %a\na:\nret void\n}\n",
        Some(2),
    ),
    (
        "define void @f() {\nswitch i8 %x, label %a [ ]\na:\nret void\n}\n",
        Some(2),
    ),
    // Blocks in another order than paths go through them.
    (
        "define i8 @f() {\nbr label %b\ne:\nret i8 %a\nb:\n%a = freeze i8 0\nbr label %e\n}\n",
        None,
    ),
    // The least of several.
    (
        "define void @f() {\n%b = freeze i8 %a\n%d = freeze i8 %c\nret void\n}\n",
        Some(2),
    ),
    (
        "define void @g() {\nret void }\ndefine void @f() {\n%b = freeze i8 %a\nret void\n}\ndefine i8 @h() {\nret i8 %a\n}\n",
        Some(4),
    ),
    // Labels, callees and global names are no such uses.
    (
        "@g = global i8 0\ndefine void @f() {\n%a = load i8, ptr @g\ncall void @f()\nret void\n}\n",
        None,
    ),
];

/// Whether a text is read, and this is the least line of such a use.
fn is_told(alloc: Global, text: &str, line: Option<u32>) -> bool {
    match read(alloc, text.as_bytes()) {
        Some(module) => match undefined_use(alloc, &module) {
            Ok(found) => found == line,
            Err(_) => false,
        },
        None => false,
    }
}

/// The number of the first row that is told otherwise, or 0.
fn wrong_row(alloc: Global) -> usize {
    for at in 0..ROWS.len() {
        if !is_told(alloc, ROWS[at].0, ROWS[at].1) {
            return at + 1;
        }
    }
    0
}

#[test]
fn undefined_uses_are_told(rt: HostRuntime) {
    assert_eq!(rt; wrong_row(rt.alloc()), 0);
}
