//! The runtime, which every program begins with.
ghost use Rattle.std.specs.Prelude.{◌≡◌, ◌∷◌, [], pos, codes, true, IfOk, length};
ghost use Rattle.obj_link.specs.Runtime.{entry, runtime, runtime_symbols, runtime_words};

use asm_read::{Needs, Object, ObjectSymbol, Section, Symbols, Words};
use rv_isa::{A0, A1, A7, Inst, Line, RA, SymName};
use std::alloc::{AllocError, Global};

// The services that an `ecall` asks for, by the number in `a7`.
/// Writes the low byte of `a0`.
const PUT: i64 = 1;

/// Reads a byte into `a0`, or -1.
const GET: i64 = 2;

/// Ends the program with `a0`.
const EXIT: i64 = 93;

/// The runtime: `_start`, which calls `main` with zeros and exits with its result, `__host_put` and
/// `__host_get`.
pub fn runtime_object(alloc: Global) -> Result<Object, AllocError>
    ensures { IfOk result (λ object. object ≡ runtime) }
{
    let needs = needs(alloc)?;
    let symbols = symbols(alloc)?;
    Ok(Object {
        words: words(alloc)?,
        symbols,
        needs,
    })
}

fn words(alloc: Global) -> Result<Words, AllocError>
    ensures { IfOk result (λ words. words ≡ runtime_words) }
{
    let high = symbol_name(alloc, b"main")?;
    let low = symbol_name(alloc, b"main")?;
    let lines = vec![in alloc;
        Line::Plain(Inst::li(A0, 0)),
        Line::Plain(Inst::li(A1, 0)),
        Line::High {
            inst: Inst::lui(RA, 0),
            symbol: high,
            offset: 0
        },
        Line::Low {
            inst: Inst::jalr(RA, RA, 0),
            symbol: low,
            offset: 0
        },
        Line::Plain(Inst::li(A7, EXIT)),
        Line::Plain(Inst::ecall()),
        Line::Plain(Inst::li(A7, PUT)),
        Line::Plain(Inst::ecall()),
        Line::Plain(Inst::ret()),
        Line::Plain(Inst::li(A7, GET)),
        Line::Plain(Inst::ecall()),
        Line::Plain(Inst::ret()),
    ]?;
    Ok(Words::from_vec(lines))
}

fn symbols(alloc: Global) -> Result<Symbols, AllocError>
    ensures { IfOk result (λ symbols. symbols ≡ runtime_symbols) }
{
    let start = entry(alloc, b"_start", 0)?;
    let put = entry(alloc, b"__host_put", 24)?;
    let get = entry(alloc, b"__host_get", 36)?;
    Ok(Symbols::from_vec(vec![in alloc; start, put, get]?))
}

fn needs(alloc: Global) -> Result<Needs, AllocError>
    ensures { IfOk result (λ needs. needs ≡ codes "main" ∷ []) }
{
    let main = symbol_name(alloc, b"main")?;
    Ok(Needs::from_vec(vec![in alloc; main]?))
}

/// A global symbol at this distance from the beginning.
fn entry(alloc: Global, name: &[u8], offset: u32) -> Result<ObjectSymbol, AllocError>
    ensures { IfOk result (λ symbol. symbol ≡ entry name.now offset) }
{
    Ok(ObjectSymbol {
        name: symbol_name(alloc, name)?,
        global: true,
        section: Section::Text,
        offset: i128::from(offset),
    })
}

fn symbol_name(alloc: Global, name: &[u8]) -> Result<SymName, AllocError>
    ensures { IfOk result (λ copy. copy ≡ name.now) }
{
    Ok(SymName::from_vec(Vec::from_slice(alloc, name)?))
}
