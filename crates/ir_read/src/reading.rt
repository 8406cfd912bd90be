//! A text as the items of its module.
ghost use Rattle.std.specs.Prelude.{◌≡◌, ◌≤◌, ◌-◌, IfOk, IfErr, Err, drop, length};
ghost use Rattle.ir_words.specs.Classes.{head_line, head_text};
ghost use Rattle.ir_words.specs.Lexemes.{lexemes};
ghost use Rattle.ir_syntax.specs.declared.refusal.Refusal.TheVariants.{Unsupported};
ghost use Rattle.ir_rules.specs.Reading.{Gives, read_all};
ghost use Rattle.ir_items.specs.Entities.{modules};
ghost use Rattle.ir_read.specs.Refusals.{IsModule, IsRefusal, IsRefusedAt, OrNoMemory, Settles, last_line, refused, refused_alloca};

use ir_entities::Entities;
use ir_items::{is_in_first_block, read_items};
use ir_lex::{LexEnd, tokens};
use ir_rules::{End, bad};
use ir_syntax::{Bytes, Refusal};
use ir_words::{Class, Cursor, is_unsupported};
use std::alloc::{AllocError, Global};

/// The line of the last token, or 1 where there is none.
fn last_line(rest: Cursor<'_>) -> u32
    ensures { result ≡ last_line rest.entry }
{
    let mut rest = rest;
    let mut line = 1;
    while !rest.is_empty() {
        line = rest.line();
        rest = rest.skip();
    }
    line
}

/// The tokens from the first bad one on, of which there are so many.
fn from_bad<'t>(rest: Cursor<'t>, left: usize) -> Cursor<'t>
    ensures { result ≡ drop (length rest.entry - left) rest.entry }
{
    let mut rest = rest;
    while left < rest.len() {
        rest = rest.skip();
    }
    rest
}

/// The refusal for the first of these tokens, as a word of the language that is left out.
fn left_out(alloc: Global, rest: Cursor<'_>) -> Result<Refusal, AllocError>
    ensures { IfOk result (λ e. e ≡ Unsupported (head_line rest.entry) (head_text rest.entry)) }
{
    let word = rest.text().to_vec(alloc)?;
    Ok(Refusal::Unsupported {
        line: rest.line(),
        word: Bytes::from_vec(word),
    })
}

/// The refusal for the first of these tokens; where none is left, for the end of the text, on a last
/// line.
fn refused(alloc: Global, line: u32, rest: Cursor<'_>) -> Result<Refusal, AllocError>
    ensures { IfOk result (λ e. e ≡ refused line rest.entry) }
{
    if is_unsupported(rest.first()) {
        return left_out(alloc, rest);
    }
    if rest.is_empty() {
        return Ok(Refusal::Form { line });
    }
    Ok(Refusal::Form { line: rest.line() })
}

/// The refusal for `alloca` as the first of these tokens, in a first block or not.
fn refused_alloca(alloc: Global, inside: bool, rest: Cursor<'_>) -> Result<Refusal, AllocError>
    ensures { IfOk result (λ e. e ≡ refused_alloca inside rest.entry) }
{
    if inside {
        return Ok(Refusal::Form { line: rest.line() });
    }
    left_out(alloc, rest)
}

/// The refusal for the first bad token of all, from which on so many are left.
fn refused_at(alloc: Global, all: Cursor<'_>, left: usize) -> Result<Refusal, AllocError>
    ensures { IfOk result (λ e. read_all modules all.entry ≡ Err left
        → IsRefusedAt all.entry (length all.entry - left) e) }
{
    let line = last_line(all.copy());
    let rest = from_bad(all.copy(), left);
    match rest.first() {
        Class::Alloca => {
            let inside = is_in_first_block(alloc, all)?;
            refused_alloca(alloc, inside, rest)
        }
        _ => refused(alloc, line, rest),
    }
}

/// Reads all tokens as the items of a module.
fn read_whole(alloc: Global, rest: Cursor<'_>) -> Result<Entities, End>
    ensures { Gives (λ x. x) result (read_all modules rest.entry) }
{
    let (list, rest) = read_items(alloc, rest)?;
    if !rest.is_empty() {
        return Err(bad(&rest));
    }
    Ok(Entities::from_vec(list))
}

/// Reads all tokens as the items of a module, or tells the first bad one.
fn read_lexed(alloc: Global, rest: Cursor<'_>) -> Result<Entities, Refusal>
    ensures { Settles rest.entry (read_all modules rest.entry) result }
{
    let all = rest.copy();
    match read_whole(alloc, rest) {
        Ok(found) => Ok(found),
        Err(End::NoMemory) => Err(Refusal::NoMemory),
        Err(End::Bad(left)) => match refused_at(alloc, all, left) {
            Ok(refusal) => Err(refusal),
            Err(_) => Err(Refusal::NoMemory),
        },
    }
}

/// The items of a module, from a text of at most 16,777,216 bytes (LangRef, "Module Structure").
///
/// # Errors
///
/// `Lex` with the line of the first place where no token begins. Else, for the first bad token, the
/// first with which no module begins as the tokens before it do: `Unsupported` with its line and its
/// bytes if it is a word of the language that is left out here, as `alloca` is outside of the first
/// block of a function, or else `Form` with its line; at the end of the text `Form` with the line of
/// the last token, or 1 where there is none. `NoMemory` if memory ran out.
pub fn read_entities(alloc: Global, bytes: &[u8]) -> Result<Entities, Refusal>
    requires { length bytes.now ≤ 16777216 }
    ensures ok { IfOk result (IsModule bytes.now) }
    ensures refused { IfErr result (OrNoMemory (IsRefusal bytes.now)) }
{
    let tokens = match tokens(alloc, bytes) {
        Ok(tokens) => tokens,
        Err(LexEnd::Lex { line }) => return Err(Refusal::Lex { line }),
        Err(LexEnd::NoMemory) => return Err(Refusal::NoMemory),
    };
    read_lexed(alloc, Cursor::of(bytes, &tokens))
}
