//! Parts of a text: names, literals, types, values, attributes, calls and blocks, and what is read of them.
use ir_attributes::read_attributes;
use ir_body::read_block;
use ir_calls::read_call;
use ir_ident::Name;
use ir_lex::tokens;
use ir_rules::End;
use ir_syntax::{Literal, Op, Operand};
use ir_types::{read_literal, read_local_name, read_type};
use ir_values::read_typed_operand;
use ir_words::{Class, Cursor};
use std::alloc::Global;

/// What a text is to be read as.
#[derive(Clone, Copy)]
enum Wanted {
    /// A name after `%`.
    Named(&'static [u8]),
    /// A number after `%`.
    Numbered(u64),
    /// A literal and no more.
    Literal(Literal),
    /// A type and no more.
    Type,
    /// No type: so many tokens are left from the first bad one on.
    BadType(usize),
    /// A type and a value, or none.
    Value(Form),
    /// Attributes with this alignment, and `ret` behind them.
    Attributes(Option<u64>),
    /// No attributes.
    BadAttributes,
    /// A call and no more, with so many types of parameters and so many arguments.
    Call(usize, usize),
    /// A call and no more, of which nothing is kept.
    Dropped,
    /// No call.
    BadCall,
    /// The first block of a function, and so many tokens that are left.
    First(usize),
    /// No first block of a function: so many tokens are read before the bad one.
    BadFirst(usize),
    /// Another block of a function, and so many tokens that are left.
    Later(usize),
    /// No other block of a function: so many tokens are read before the bad one.
    BadLater(usize),
}

/// What a value is.
#[derive(Clone, Copy, PartialEq, Eq)]
enum Form {
    Bad,
    Local,
    Global,
    Int,
    Word,
    Gep,
}

/// A type in 64 brackets.
const IN_64_BRACKETS: &str =
    "[1 x [1 x [1 x [1 x [1 x [1 x [1 x [1 x [1 x [1 x [1 x [1 x [1 x [1 x [1 x [1 x [1 x [1 x [1 x [1 x [1 x [1 x [1 x [1 x [1 x [1 x [1 x [1 x [1 x [1 x [1 x [1 x [1 x [1 x [1 x [1 x [1 x [1 x [1 x [1 x [1 x [1 x [1 x [1 x [1 x [1 x [1 x [1 x [1 x [1 x [1 x [1 x [1 x [1 x [1 x [1 x [1 x [1 x [1 x [1 x [1 x [1 x [1 x [1 x i8]]]]]]]]]]]]]]]]]]]]]]]]]]]]]]]]]]]]]]]]]]]]]]]]]]]]]]]]]]]]]]]]";

/// A type in 65 brackets.
const IN_65_BRACKETS: &str =
    "[1 x [1 x [1 x [1 x [1 x [1 x [1 x [1 x [1 x [1 x [1 x [1 x [1 x [1 x [1 x [1 x [1 x [1 x [1 x [1 x [1 x [1 x [1 x [1 x [1 x [1 x [1 x [1 x [1 x [1 x [1 x [1 x [1 x [1 x [1 x [1 x [1 x [1 x [1 x [1 x [1 x [1 x [1 x [1 x [1 x [1 x [1 x [1 x [1 x [1 x [1 x [1 x [1 x [1 x [1 x [1 x [1 x [1 x [1 x [1 x [1 x [1 x [1 x [1 x [1 x i8]]]]]]]]]]]]]]]]]]]]]]]]]]]]]]]]]]]]]]]]]]]]]]]]]]]]]]]]]]]]]]]]]";

/// Texts, and what they are to be read as.
const TEXTS: &[(&str, Wanted)] = &[
    ("%00", Wanted::Numbered(0)),
    ("%4294967296", Wanted::Numbered(4294967296)),
    ("%00018446744073709551615", Wanted::Numbered(u64::MAX)),
    ("%0a", Wanted::Named(b"0a")),
    ("%\"0\"", Wanted::Named(b"0")),
    ("%\"a\\5Cb\\\\ \"", Wanted::Named(b"a\\b\\ ")),
    (
        "-170141183460469231731687303715884105728",
        Wanted::Literal(Literal {
            negative: true,
            magnitude: 1 << 127,
        }),
    ),
    (
        "340282366920938463463374607431768211455",
        Wanted::Literal(Literal {
            negative: false,
            magnitude: u128::MAX,
        }),
    ),
    (
        "{ i64, <{ ptr, %t }>, {}, [4294967295 x i1] }",
        Wanted::Type,
    ),
    ("[4294967296 x i8]", Wanted::BadType(4)),
    ("{ i8, }", Wanted::BadType(1)),
    ("{ i8", Wanted::BadType(0)),
    (IN_64_BRACKETS, Wanted::Type),
    (IN_65_BRACKETS, Wanted::BadType(69)),
    ("i32 %x", Wanted::Value(Form::Local)),
    ("ptr @llvm.trap", Wanted::Value(Form::Global)),
    ("i8 -1", Wanted::Value(Form::Int)),
    ("i1 true", Wanted::Value(Form::Word)),
    ("i1 false", Wanted::Value(Form::Word)),
    ("ptr null", Wanted::Value(Form::Word)),
    ("i8 undef", Wanted::Value(Form::Word)),
    ("i8 poison", Wanted::Value(Form::Word)),
    (
        "ptr getelementptr inbounds ([2 x i8], ptr @a, i64 1, i32 -1)",
        Wanted::Value(Form::Gep),
    ),
    ("ptr getelementptr (i8, ptr %a)", Wanted::Value(Form::Bad)),
    (
        "nounwind \"a\"=\"b\" \"c\" #0 memory(read, [x {y} (1)]) noundef ret",
        Wanted::Attributes(None),
    ),
    (
        "align 8 noundef align 16 nonnull ret",
        Wanted::Attributes(Some(16)),
    ),
    ("align -1 ret", Wanted::Attributes(Some(0))),
    (
        "align 9223372036854775808 ret",
        Wanted::Attributes(Some(9223372036854775808)),
    ),
    ("align 9223372036854775809 ret", Wanted::Attributes(Some(0))),
    ("memory(read] ret", Wanted::BadAttributes),
    (
        "call void @llvm.dbg.value(metadata i32 %x, metadata !1, metadata !DIExpression(a, [b], (c)))",
        Wanted::Dropped,
    ),
    (
        "tail call fastcc noundef i32 (i32, ptr) @f(i32 noundef 1, ptr align 8 %p) nounwind #1",
        Wanted::Call(2, 2),
    ),
    ("call void (ptr) @f(ptr %p", Wanted::BadCall),
    ("ret void", Wanted::First(0)),
    ("ret i32 1, !dbg !7 }", Wanted::First(1)),
    ("%a = alloca i32 unreachable", Wanted::First(0)),
    (
        "b: %p = phi i32 [ 0, %a ], [ %x, %b ], !dbg !1 ret i32 %p",
        Wanted::Later(0),
    ),
    (
        "switch i32 %x, label %d [ i32 0, label %a i32 1, label %b ]",
        Wanted::Later(0),
    ),
    ("ret", Wanted::BadFirst(1)),
    ("%a = alloca i32", Wanted::BadLater(2)),
    ("%p = phi i32 [ 0, %a ]", Wanted::BadFirst(2)),
    ("br label %a, label %b", Wanted::BadFirst(4)),
    (
        "%x = add i32 1, 2 %p = phi i32 [ 0, %a ]",
        Wanted::BadLater(9),
    ),
    (
        "%p = phi i32 [ 0, %a ], !dbg !1, [ 1, %b ]",
        Wanted::BadLater(13),
    ),
    (
        "switch i32 %x, label %d [ i32 0, label %a, i32 1",
        Wanted::BadLater(12),
    ),
];

/// Whether a name is the wanted one.
fn is_name(name: &Name, wanted: Wanted) -> bool {
    match (name, wanted) {
        (Name::Named(found), Wanted::Named(bytes)) => found.as_bytes() == bytes,
        (Name::Unnamed(found), Wanted::Numbered(number)) => found.to_u64() == Some(number),
        _ => false,
    }
}

fn begins_with_name<'t>(alloc: Global, rest: Cursor<'t>, wanted: Wanted) -> bool {
    match read_local_name(alloc, rest) {
        Ok((name, _rest)) => is_name(&name, wanted),
        Err(_end) => false,
    }
}

fn is_literal<'t>(rest: Cursor<'t>, wanted: Literal) -> bool {
    match read_literal(rest) {
        Ok((literal, rest)) => (literal == wanted) & rest.is_empty(),
        Err(_end) => false,
    }
}

fn is_type<'t>(alloc: Global, rest: Cursor<'t>, wanted: Wanted) -> bool {
    match read_type(alloc, rest, 64) {
        Ok((ty, rest)) => {
            drop(ty);
            matches!(wanted, Wanted::Type) & rest.is_empty()
        }
        Err(End::Bad(left)) => matches!(wanted, Wanted::BadType(count) if count == left),
        Err(End::NoMemory) => false,
    }
}

fn form_of(operand: &Operand) -> Form {
    match operand {
        Operand::Local(_) => Form::Local,
        Operand::Global(_) => Form::Global,
        Operand::Int(_) => Form::Int,
        Operand::Gep(_) => Form::Gep,
        Operand::True | Operand::False | Operand::Null | Operand::Undef | Operand::Poison => {
            Form::Word
        }
    }
}

fn value_form<'t>(alloc: Global, rest: Cursor<'t>) -> Form {
    match read_typed_operand(alloc, rest) {
        Ok((operand, _rest)) => form_of(&operand.value),
        Err(_end) => Form::Bad,
    }
}

fn are_attributes<'t>(alloc: Global, rest: Cursor<'t>, wanted: Wanted) -> bool {
    match read_attributes(alloc, rest) {
        Ok((found, rest)) => {
            matches!(wanted, Wanted::Attributes(alignment) if alignment == found)
                & (rest.first() == Class::Ret)
        }
        Err(_end) => matches!(wanted, Wanted::BadAttributes),
    }
}

/// Whether what is kept of a call is wanted.
fn is_kept(call: &Option<Op>, wanted: Wanted) -> bool {
    match (call, wanted) {
        (None, Wanted::Dropped) => true,
        (
            Some(
                Op::Call {
                    params: Some(params),
                    args,
                    ..
                },
            ),
            Wanted::Call(types, values),
        ) => (params.as_slice().len() == types) & (args.as_slice().len() == values),
        _ => false,
    }
}

fn is_call<'t>(alloc: Global, rest: Cursor<'t>, wanted: Wanted) -> bool {
    match read_call(alloc, rest) {
        Ok((call, rest)) => is_kept(&call, wanted) & rest.is_empty(),
        Err(_end) => matches!(wanted, Wanted::BadCall),
    }
}

/// How many tokens are left behind a block, or how many stand before its first bad one.
fn block_end<'t>(alloc: Global, rest: Cursor<'t>, first: bool) -> Result<usize, usize> {
    let all = rest.len();
    match read_block(alloc, rest, first) {
        Ok((block, rest)) => {
            drop(block);
            Ok(rest.len())
        }
        Err(End::Bad(left)) => Err(all.saturating_sub(left)),
        Err(End::NoMemory) => Err(all),
    }
}

/// Whether tokens are read so.
fn is_wanted<'t>(alloc: Global, rest: Cursor<'t>, wanted: Wanted) -> bool {
    match wanted {
        Wanted::Named(_) | Wanted::Numbered(_) => begins_with_name(alloc, rest, wanted),
        Wanted::Literal(literal) => is_literal(rest, literal),
        Wanted::Type | Wanted::BadType(_) => is_type(alloc, rest, wanted),
        Wanted::Value(form) => value_form(alloc, rest) == form,
        Wanted::Attributes(_) | Wanted::BadAttributes => are_attributes(alloc, rest, wanted),
        Wanted::Call(_, _) | Wanted::Dropped | Wanted::BadCall => is_call(alloc, rest, wanted),
        Wanted::First(left) => block_end(alloc, rest, true) == Ok(left),
        Wanted::BadFirst(at) => block_end(alloc, rest, true) == Err(at),
        Wanted::Later(left) => block_end(alloc, rest, false) == Ok(left),
        Wanted::BadLater(at) => block_end(alloc, rest, false) == Err(at),
    }
}

/// Whether a text is read so.
fn is_read(alloc: Global, text: &[u8], wanted: Wanted) -> bool {
    if text.len() > 16777216 {
        return false;
    }
    match tokens(alloc, text) {
        Ok(tokens) => is_wanted(alloc, Cursor::of(text, &tokens), wanted),
        Err(_end) => false,
    }
}

/// The number of the first text that is read otherwise, or 0.
fn wrong_text(alloc: Global) -> usize {
    for at in 0..TEXTS.len() {
        let (text, wanted) = TEXTS[at];
        if !is_read(alloc, text.as_bytes(), wanted) {
            return at + 1;
        }
    }
    0
}

#[test]
fn each_text_is_read(rt: HostRuntime) {
    assert_eq!(rt; wrong_text(rt.alloc()), 0);
}
