//! Modules, the text of each, and the image that it links to.
ghost use Rattle.cg_built.specs.Unbuilt.{IsBuilt};

use cg_built::unbuilt;
use cg_part::{program_of, text_of};
use ir_check::{Checked, check};
use ir_read::read_module;
use ir_syntax::Module;
use obj_link::{Image, Unlinked};
use std::alloc::Global;

/// A module, its text, and the bytes of its image, or none where it has no `main`.
type Program = (&'static str, &'static str, Option<&'static [u8]>);

/// Modules with their texts, and with the images that LLVM's assembler and linker make of these behind the runtime.
const PROGRAMS: &[Program] = &[
    ("", "", None),
    ("declare i32 @main()\n", "", None),
    (
        "define i64 @f(i64 %x, i64 %y) {\n  ret i64 %x\n}\n",
        "\t.text\n\t.globl\tf\n\t.p2align\t2\nf:\n\tmv\tt0, a0\n\tmv\tt1, a1\n\tmv\ta0, t0\n\tret\n",
        None,
    ),
    (
        "define i32 @main() {\n  ret i32 0\n}\n",
        "\t.text\n\t.globl\tmain\n\t.p2align\t2\nmain:\n\tli\ta0, 0\n\tret\n",
        Some(MAIN),
    ),
    (
        "define i64 @f(i64 %x, i64 %y) {\n  ret i64 %x\n}\ndefine i32 @main() {\n  ret i32 -7\n}\n",
        "\t.text\n\t.globl\tf\n\t.p2align\t2\nf:\n\tmv\tt0, a0\n\tmv\tt1, a1\n\tmv\ta0, t0\n\tret\n\t.text\n\t.globl\tmain\n\t.p2align\t2\nmain:\n\tli\tt0, -7\n\tmv\ta0, t0\n\tret\n",
        Some(F_AND_MAIN),
    ),
];

/// The runtime, and a `main` that returns 0.
const MAIN: &[u8] = b"\
    \x13\x05\x00\x00\
    \x93\x05\x00\x00\
    \xb7\x00\x01\x00\
    \xe7\x80\x00\x03\
    \x93\x08\xd0\x05\
    \x73\x00\x00\x00\
    \x93\x08\x10\x00\
    \x73\x00\x00\x00\
    \x67\x80\x00\x00\
    \x93\x08\x20\x00\
    \x73\x00\x00\x00\
    \x67\x80\x00\x00\
    \x13\x05\x00\x00\
    \x67\x80\x00\x00";

/// The runtime, a function `f` that returns its first argument, and a `main` that returns -7.
const F_AND_MAIN: &[u8] = b"\
    \x13\x05\x00\x00\
    \x93\x05\x00\x00\
    \xb7\x00\x01\x00\
    \xe7\x80\x00\x04\
    \x93\x08\xd0\x05\
    \x73\x00\x00\x00\
    \x93\x08\x10\x00\
    \x73\x00\x00\x00\
    \x67\x80\x00\x00\
    \x93\x08\x20\x00\
    \x73\x00\x00\x00\
    \x67\x80\x00\x00\
    \x93\x02\x05\x00\
    \x13\x83\x05\x00\
    \x13\x85\x02\x00\
    \x67\x80\x00\x00\
    \x93\x02\x90\xff\
    \x13\x85\x02\x00\
    \x67\x80\x00\x00";

/// Whether a module has this text.
fn has_text(alloc: Global, m: &Module, text: &str) -> bool
    requires { IsBuilt m.now }
{
    match text_of(alloc, m) {
        Ok(found) => found.as_slice() == text.as_bytes(),
        Err(_) => false,
    }
}

/// Whether an image has these bytes.
fn is_image(image: &Image, wanted: Option<&[u8]>) -> bool {
    match wanted {
        Some(bytes) => image.bytes.as_slice() == bytes,
        None => false,
    }
}

/// Whether only `main` is missing.
fn needs_main(why: &Unlinked) -> bool {
    match why {
        Unlinked::Undefined { name } => name.as_bytes() == b"main".as_slice(),
        _ => false,
    }
}

/// Whether a module has this image, or none where it needs a `main`.
fn has_image(alloc: Global, m: &Module, wanted: Option<&[u8]>) -> bool
    requires { IsBuilt m.now }
{
    match program_of(alloc, m) {
        Ok(image) => is_image(&image, wanted),
        Err(why) => wanted.is_none() & needs_main(&why),
    }
}

/// Whether a module is built, and has this text and this image.
fn is_built(alloc: Global, checked: &Checked, text: &str, image: Option<&[u8]>) -> bool {
    let m = checked.module();
    match unbuilt(alloc, checked) {
        Ok(None) => has_text(alloc, m, text) & has_image(alloc, m, image),
        _ => false,
    }
}

/// Whether a module passes the checks, is built, and has this text and this image.
fn is_checked(alloc: Global, m: Module, text: &str, image: Option<&[u8]>) -> bool {
    match check(alloc, m) {
        Ok(checked) => is_built(alloc, &checked, text, image),
        Err(_) => false,
    }
}

/// Whether a module that is written so has this text and this image.
fn is_program(alloc: Global, source: &[u8], text: &str, image: Option<&[u8]>) -> bool {
    if source.len() > 16777216 {
        return false;
    }
    match read_module(alloc, source) {
        Ok(m) => is_checked(alloc, m, text, image),
        Err(_) => false,
    }
}

/// The number of the first module whose text or image is another, or 0.
fn wrong_program(alloc: Global) -> usize {
    for at in 0..PROGRAMS.len() {
        let (source, text, image) = PROGRAMS[at];
        if !is_program(alloc, source.as_bytes(), text, image) {
            return at + 1;
        }
    }
    0
}

#[test]
fn modules_have_their_texts_and_images(rt: HostRuntime) {
    assert_eq!(rt; wrong_program(rt.alloc()), 0);
}
