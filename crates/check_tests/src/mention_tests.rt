//! The places of the types that each part of a module writes.
use crate::limits_tests::{exceeds, is_told};
use crate::modules::{Piece, module_of, push_pieces, read_items, text_of};
use ir_ident::Name;
use ir_read::{Entities, Entity};
use ir_syntax::{Count, Param, Params};
use std::alloc::{AllocError, Global};
use std::mem;

/// Types of 4,095 and 4,093 places, and a declared function, whose types do not count.
const TYPES: &[Piece] = &[
    (1, "%0 = type { i8"),
    (2046, ", i8"),
    (1, " }\n%1 = type { i8"),
    (2045, ", i8"),
    (1, " }\ndeclare i8 @g(i8)\n"),
];

/// Ends of a body, each with the places of the types that it writes.
const ENDS: &[(usize, &str)] = &[
    (1, "add i8 undef, undef\nret void }"),
    (1, "udiv i8 undef, undef\nret void }"),
    (1, "and i8 undef, undef\nret void }"),
    (1, "icmp eq i8 undef, undef\nret void }"),
    (2, "zext i8 undef to i16\nret void }"),
    (3, "select i1 true, i8 undef, i8 undef\nret void }"),
    (2, "load i8, ptr null\nret void }"),
    (2, "store i8 undef, ptr null\nret void }"),
    (1, "alloca i8\nret void }"),
    (2, "alloca i8, i32 0\nret void }"),
    // The types of a constant address do not count.
    (
        1,
        "freeze ptr getelementptr (i8, ptr @g, i64 0, i32 0)\nret void }",
    ),
    (4, "getelementptr i8, ptr null, i64 0, i32 0\nret void }"),
    (2, "call void () @g(ptr undef, i8 undef)\nret void }"),
    (
        6,
        "call i8 (ptr, ptr, ptr) @g(ptr undef, i8 undef)\nret void }",
    ),
    (0, "ret void }"),
    (1, "ret i8 undef }"),
    (1, "br i1 true, label %a, label %a }"),
    (
        3,
        "switch i8 undef, label %a [ i8 0, label %a i8 0, label %a ] }",
    ),
];

/// The head of a function that writes no type, and of its first block.
const HEAD: &str = "define void @f() { a:\n";

/// A module with types of so many places fewer than 4,194,304, or one more than that, in front of the end of a
/// body: 3 that each module with a function has, 1,022 loads of 4,096, a struct of 4,093, and up to 4,097 of one place
/// each.
fn module_text(
    alloc: Global,
    head: &'static str,
    end: &'static str,
    fewer: usize,
    is_one_more: bool,
) -> Result<Vec<u8>, AllocError> {
    let mut text = text_of(alloc, TYPES)?;
    let ones = 4096usize.saturating_sub(fewer);
    push_pieces(
        &mut text,
        &[
            (1, head),
            (1022, "load %0, ptr null\n"),
            (1, "freeze %1 undef\n"),
            (ones, "freeze i1 undef\n"),
            (usize::from(is_one_more), "freeze i1 undef\n"),
            (1, end),
        ],
    )?;
    Ok(text)
}

/// The limit that such a module exceeds.
fn limit_of(is_one_more: bool) -> Option<Count> {
    is_one_more.then_some(Count::TypePlaces)
}

/// Whether that module exceeds no limit, or the limit of places with one more.
fn is_told_beside(alloc: Global, end: &'static str, fewer: usize, is_one_more: bool) -> bool {
    match module_text(alloc, HEAD, end, fewer, is_one_more) {
        Ok(text) => is_told(alloc, text.as_slice(), limit_of(is_one_more)),
        Err(_) => false,
    }
}

/// Whether the end of a body writes types of so many places: with others it is at the limit, and one more exceeds it.
fn has_places(alloc: Global, end: &'static str, places: usize) -> bool {
    is_told_beside(alloc, end, places, false) && is_told_beside(alloc, end, places, true)
}

#[test]
fn each_type_that_the_end_of_a_body_writes_counts(rt: HostRuntime) {
    for (places, end) in ENDS {
        assert!(rt; has_places(rt.alloc(), end, *places), "{end}");
    }
}

/// The head of a function with a result and a parameter of one place each. The value of a defined variable has a place
/// too, and a declared one does not count.
const TYPED_HEAD: &str = "@a = global i8 zeroinitializer
@b = external global i8
define i8 @f(ptr %p) {
";

/// Adds a parameter of `metadata`, which is no type.
fn push_metadata(alloc: Global, params: &mut Params) -> Result<(), AllocError> {
    let mut longer = mem::replace(params, Params::from_vec(Vec::new(alloc))).into_vec();
    longer.push(Param {
        line: 1,
        ty: None,
        name: Name::Implicit,
        name_line: 1,
    })?;
    drop(mem::replace(params, Params::from_vec(longer)));
    Ok(())
}

/// Adds such a parameter to each function. No text defines a function with one.
fn add_metadata(alloc: Global, items: &mut [Entity]) -> Result<(), AllocError> {
    for item in items {
        if let Entity::Function(function) = item {
            push_metadata(alloc, &mut function.params)?;
        }
    }
    Ok(())
}

/// The items of a text, with such a parameter of each function.
fn items_of(alloc: Global, text: &[u8]) -> Option<Vec<Entity>> {
    let mut items = read_items(alloc, text)?.into_vec();
    match add_metadata(alloc, items.as_mut_slice()) {
        Ok(()) => Some(items),
        Err(_) => None,
    }
}

/// Whether the module of these items exceeds this limit first.
fn exceed(alloc: Global, items: Vec<Entity>, limit: Option<Count>) -> bool {
    match module_of(alloc, Entities::from_vec(items)) {
        Ok(module) => exceeds(alloc, &module, limit),
        Err(_) => false,
    }
}

/// Whether the module of a text, with such a parameter of each function, exceeds this limit first.
fn is_told_with_metadata(alloc: Global, text: &[u8], limit: Option<Count>) -> bool {
    match items_of(alloc, text) {
        Some(items) => exceed(alloc, items, limit),
        None => false,
    }
}

/// Whether functions and variables have three places: with others they are at the limit, or exceed it with one more.
fn have_three_places(alloc: Global, is_one_more: bool) -> bool {
    match module_text(alloc, TYPED_HEAD, "ret void }", 3, is_one_more) {
        Ok(text) => is_told_with_metadata(alloc, text.as_slice(), limit_of(is_one_more)),
        Err(_) => false,
    }
}

#[test]
fn types_of_functions_and_defined_variables_count(rt: HostRuntime) {
    for is_one_more in [false, true] {
        assert!(rt;
            have_three_places(rt.alloc(), is_one_more),
            "one more: {is_one_more}"
        );
    }
}
