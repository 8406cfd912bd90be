//! The class of a global, by its name (LangRef, "Identifiers" and "Intrinsic Functions").
ghost use Rattle.std.specs.Prelude.{◌≡◌, codes, map};
ghost use Rattle.ir_words.specs.Words.{looked_up};
ghost use Rattle.ir_lex.specs.Escapes.{unescaped};
ghost use Rattle.ir_words.specs.Intrinsics.{begins_with, intrinsic_class, global_class, is_sized, name_class, named, sized};

use crate::class::Class;
use crate::quoted::{TELLING, unescape};
use crate::width::is_width;
use crate::word::looked_up;
use ir_lex::{byte_at, prefix_of, rest_of};

/// Intrinsics that are known by their whole name.
const NAMED: [(&[u8], Class); 7] = [
    (b"llvm.trap", Class::Intrinsic),
    (b"llvm.memcpy.p0.p0.i64", Class::Intrinsic),
    (b"llvm.memmove.p0.p0.i64", Class::Intrinsic),
    (b"llvm.memset.p0.i64", Class::Intrinsic),
    (b"llvm.assume", Class::DroppedIntrinsic),
    (b"llvm.donothing", Class::DroppedIntrinsic),
    (
        b"llvm.experimental.noalias.scope.decl",
        Class::MetadataIntrinsic,
    ),
];

/// Intrinsics of integers of each width, without the width.
const SIZED: [&[u8]; 11] = [
    b"llvm.ctpop.i",
    b"llvm.ctlz.i",
    b"llvm.cttz.i",
    b"llvm.bswap.i",
    b"llvm.fshl.i",
    b"llvm.fshr.i",
    b"llvm.smax.i",
    b"llvm.smin.i",
    b"llvm.umax.i",
    b"llvm.umin.i",
    b"llvm.abs.i",
];

/// Whether a name begins with these bytes.
#[tactic(auto, unfolding(crate::specs::Intrinsics::begins_with))]
fn begins_with(prefix: &[u8], name: &[u8]) -> bool
    ensures { result ≡ begins_with prefix.now name.now }
{
    name.starts_with(prefix)
}

/// Whether a name is one of these and a width.
#[tactic(auto, unfolding(crate::specs::Intrinsics::is_sized))]
fn is_sized(mut prefixes: &[&[u8]], name: &[u8]) -> bool
    ensures { result ≡ is_sized (map (λ f. f.now) prefixes.entry.now) name.now }
{
    while let [prefix, rest @ ..] = prefixes {
        if begins_with(prefix, name) && is_width(rest_of(name, prefix.len())) {
            return true;
        }
        prefixes = rest;
    }
    false
}

/// Whether a name is that of an intrinsic of integers and a width.
fn is_sized_intrinsic(name: &[u8]) -> bool
    ensures { result ≡ is_sized sized name.now }
{
    is_sized(&SIZED, name)
}

/// The class of an intrinsic that is known by its whole name.
fn named_class(name: &[u8]) -> Class
    ensures { result ≡ looked_up named name.now Class.UnknownIntrinsic }
{
    looked_up(&NAMED, name, Class::UnknownIntrinsic)
}

/// The class of a name that begins with `llvm.`.
#[tactic(auto, unfolding(crate::specs::Intrinsics::intrinsic_class))]
fn intrinsic_class(name: &[u8]) -> Class
    ensures { result ≡ intrinsic_class name.now }
{
    if begins_with(b"llvm.dbg.", name) {
        Class::MetadataIntrinsic
    } else if begins_with(b"llvm.lifetime.", name) {
        Class::DroppedIntrinsic
    } else if is_sized_intrinsic(name) {
        Class::Intrinsic
    } else {
        named_class(name)
    }
}

/// The class of a name after `@`.
#[tactic(auto, unfolding(crate::specs::Intrinsics::name_class))]
pub(crate) fn name_class(name: &[u8]) -> Class
    ensures { result ≡ name_class name.now }
{
    if begins_with(b"llvm.", name) {
        intrinsic_class(name)
    } else {
        Class::Global
    }
}

/// The class of a name in quotes.
fn quoted_class(quoted: &[u8]) -> Class
    ensures { result ≡ name_class (unescaped quoted.now) }
{
    let mut name = [0; TELLING];
    let len = unescape(quoted, &mut name);
    name_class(prefix_of(&name, len))
}

/// The class of a global.
#[tactic(auto, unfolding(crate::specs::Intrinsics::global_class, crate::specs::Intrinsics::global_name))]
pub(crate) fn global_class(text: &[u8]) -> Class
    ensures { result ≡ global_class text.now }
{
    if byte_at(text, 1) == b'"' {
        quoted_class(prefix_of(rest_of(text, 2), text.len().saturating_sub(3)))
    } else {
        name_class(rest_of(text, 1))
    }
}
