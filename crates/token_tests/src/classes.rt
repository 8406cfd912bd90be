//! A line as its classes.
use ir_lex::tokens;
use ir_words::{Class, Cursor, is_same};
use std::alloc::Global;

/// A text.
const LINE: &[u8] =
    b"%y = add nuw i32 %x, 1 ; one more\ncall void @\"\\6clvm.ctpop.i8\" nounwind i65";

/// The classes of its tokens.
const CLASSES: &[Class] = &[
    Class::Local,
    Class::Equal,
    Class::Add,
    Class::Nuw,
    Class::IntType,
    Class::Local,
    Class::Comma,
    Class::Int,
    Class::Call,
    Class::Void,
    Class::Intrinsic,
    Class::Attribute,
    Class::Unsupported,
];

/// Whether these tokens have these classes.
fn have_classes<'t>(mut rest: Cursor<'t>, classes: &[Class]) -> bool {
    for class in classes {
        if !is_same(rest.first(), *class) {
            return false;
        }
        rest = rest.skip();
    }
    rest.is_empty()
}

/// Whether a text has tokens of these classes.
fn is_of_classes(alloc: Global, text: &[u8], classes: &[Class]) -> bool {
    if text.len() > 16777216 {
        return false;
    }
    match tokens(alloc, text) {
        Ok(tokens) => have_classes(Cursor::of(text, &tokens), classes),
        Err(_) => false,
    }
}

#[test]
fn a_line_is_read(rt: HostRuntime) {
    assert!(rt; is_of_classes(rt.alloc(), LINE, CLASSES));
}
