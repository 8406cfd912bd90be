//! Texts that are assembled and linked, and objects that are not linked.
use asm_read::{Object, assemble};
use obj_link::{Image, LinkRefusal, ObjectAddresses, link};
use std::alloc::Global;

/// A `main` that returns -7.
const MAIN: &str =
    "\t.text\n\t.globl\tmain\n\t.p2align\t2\nmain:\n\tli\tt0, -7\n\tmv\ta0, t0\n\tret\n";

/// A function `f` that returns its first argument.
const F: &str =
    "\t.text\n\t.globl\tf\n\t.p2align\t2\nf:\n\tmv\tt0, a0\n\tmv\tt1, a1\n\tmv\ta0, t0\n\tret\n";

/// A function that has the name of one of the runtime.
const START: &str = "\t.text\n\t.globl\t_start\n\t.p2align\t2\n_start:\n\tret\n";

/// The bytes that LLVM's assembler and linker give for the runtime and `MAIN`.
const RUNTIME_MAIN: &[u8] = b"\
    \x13\x05\x00\x00\
    \x93\x05\x00\x00\
    \xb7\x00\x01\x00\
    \xe7\x80\x00\x03\
    \x93\x08\xd0\x05\
    \x73\x00\x00\x00\
    \x93\x08\x10\x00\
    \x73\x00\x00\x00\
    \x67\x80\x00\x00\
    \x93\x08\x20\x00\
    \x73\x00\x00\x00\
    \x67\x80\x00\x00\
    \x93\x02\x90\xff\
    \x13\x85\x02\x00\
    \x67\x80\x00\x00";

/// Those for the runtime, `F` and `MAIN`.
const RUNTIME_F_MAIN: &[u8] = b"\
    \x13\x05\x00\x00\
    \x93\x05\x00\x00\
    \xb7\x00\x01\x00\
    \xe7\x80\x00\x04\
    \x93\x08\xd0\x05\
    \x73\x00\x00\x00\
    \x93\x08\x10\x00\
    \x73\x00\x00\x00\
    \x67\x80\x00\x00\
    \x93\x08\x20\x00\
    \x73\x00\x00\x00\
    \x67\x80\x00\x00\
    \x93\x02\x05\x00\
    \x13\x83\x05\x00\
    \x13\x85\x02\x00\
    \x67\x80\x00\x00\
    \x93\x02\x90\xff\
    \x13\x85\x02\x00\
    \x67\x80\x00\x00";

/// Texts of one symbol each, the bytes of the image of their objects, and the address of each symbol.
const LINKED: &[(&[&str], &[u8], &[u64])] = &[
    (&[MAIN], RUNTIME_MAIN, &[0x1_0030]),
    (&[F, MAIN], RUNTIME_F_MAIN, &[0x1_0030, 0x1_0040]),
];

/// Why objects are not linked.
#[derive(Clone, Copy)]
enum Cause {
    /// This name is defined twice.
    Duplicate(&'static [u8]),
    /// This name is defined nowhere.
    Undefined(&'static [u8]),
}

/// Texts whose objects are not linked, and why.
const REFUSED: &[(&[&str], Cause)] = &[
    (&[MAIN, MAIN], Cause::Duplicate(b"main")),
    (&[F, MAIN, F], Cause::Duplicate(b"f")),
    (&[START], Cause::Duplicate(b"_start")),
    (&[F], Cause::Undefined(b"main")),
];

/// The objects of texts, if each has one.
fn objects_of(alloc: Global, texts: &[&str]) -> Option<Vec<Object>> {
    let mut objects = Vec::new(alloc);
    for text in texts {
        let object = assemble(alloc, text.as_bytes()).ok()?;
        objects.push(object).ok()?;
    }
    Some(objects)
}

/// Whether objects have one symbol each, at these addresses.
fn are_at(objects: &[ObjectAddresses], addresses: &[u64]) -> bool {
    for at in 0..objects.len() {
        match objects[at].as_slice() {
            [symbol] if at < addresses.len() && symbol.address == addresses[at] => {}
            _ => return false,
        }
    }
    objects.len() == addresses.len()
}

/// Whether an image has these bytes, and its objects, behind the runtime, their symbols at these addresses.
fn is_image(image: &Image, bytes: &[u8], addresses: &[u64]) -> bool {
    let placed = match image.addresses.as_slice() {
        [_, objects @ ..] => are_at(objects, addresses),
        [] => false,
    };
    let counted = image.instructions == bytes.len() as u64 / 4;
    placed & counted & (image.bytes.as_slice() == bytes)
}

/// Whether objects are linked to an image with these bytes and addresses.
fn are_linked(alloc: Global, objects: &[Object], bytes: &[u8], addresses: &[u64]) -> bool {
    match link(alloc, objects) {
        Ok(image) => is_image(&image, bytes, addresses),
        Err(_) => false,
    }
}

/// The number of the first texts that are linked to another image than the one beside them, or 0.
fn wrong_image(alloc: Global) -> usize {
    for at in 0..LINKED.len() {
        let (texts, bytes, addresses) = LINKED[at];
        let right = match objects_of(alloc, texts) {
            Some(objects) => are_linked(alloc, objects.as_slice(), bytes, addresses),
            None => false,
        };
        if !right {
            return at + 1;
        }
    }
    0
}

#[test]
fn texts_are_linked_behind_the_runtime(rt: HostRuntime) {
    assert_eq!(rt; wrong_image(rt.alloc()), 0);
}

/// Whether a refusal has this cause.
fn has_cause(refusal: &LinkRefusal, cause: Cause) -> bool {
    match (refusal, cause) {
        (LinkRefusal::Duplicate { name }, Cause::Duplicate(wanted))
        | (LinkRefusal::Undefined { name }, Cause::Undefined(wanted)) => name.as_bytes() == wanted,
        _ => false,
    }
}

/// Whether objects are not linked, for this cause.
fn are_refused(alloc: Global, objects: &[Object], cause: Cause) -> bool {
    match link(alloc, objects) {
        Ok(_) => false,
        Err(refusal) => has_cause(&refusal, cause),
    }
}

/// The number of the first texts that are not refused for the cause beside them, or 0.
fn wrong_refusal(alloc: Global) -> usize {
    for at in 0..REFUSED.len() {
        let (texts, cause) = REFUSED[at];
        let right = match objects_of(alloc, texts) {
            Some(objects) => are_refused(alloc, objects.as_slice(), cause),
            None => false,
        };
        if !right {
            return at + 1;
        }
    }
    0
}

#[test]
fn each_name_is_defined_once(rt: HostRuntime) {
    assert_eq!(rt; wrong_refusal(rt.alloc()), 0);
}
