//! Lines on the sink for errors.
ghost use Rattle.std.specs.Prelude.{◌≡◌, ◌≢◌, ◌++◌, decimal, OnOk, OnErr};
ghost use Rattle.rv_isa.specs.Lines.{ended};
ghost use Rattle.llc_top.specs.Outcome.{count_text, refusal_text};
ghost use Rattle.llc_top.specs.Messages.{message_text};
ghost use Rattle.llc_top.specs.Stops.{stop_text, trap_text};
ghost use Rattle.llc_top.specs.Streams.{sink_change, TellsAll, CutOff};

use crate::symbol::tell_symbol;
use cg_io::{Sink, write_all};
use ir_syntax::{Count, Refusal};
use itoa::Buffer;
use rv_mach::{Stop, TrapKind};

/// A write failed. What the sink got is a proper prefix of what was due.
#[derive(Clone, Copy, Debug, PartialEq, Eq)]
pub struct Untold;

/// A line that tells something.
pub(crate) enum Message<'a> {
    /// These words alone, with the end of the line.
    Line(&'static [u8]),
    /// Words and a number.
    Number(&'static [u8], u64),
    /// Words and a symbol.
    Symbol(&'static [u8], &'a [u8]),
    /// A word that is not supported, with its line.
    Unsupported(u32, &'a [u8]),
}

/// Tells a refusal: its number, its name and its fields. Where memory ran out nothing is told.
pub fn tell_refusal<E: Sink>(err: &mut E, refusal: Refusal) -> Result<(), Untold>
    requires { refusal ≢ Refusal.NoMemory }
    ensures all { OnOk result (TellsAll (ended (refusal_text refusal)) (sink_change E.written E.faults err.old err.new)) }
    ensures cut_off { OnErr result (CutOff (ended (refusal_text refusal)) (sink_change E.written E.faults err.old err.new)) }
{
    tell_message(err, message_of(&refusal))
}

/// The message of a refusal.
fn message_of(refusal: &Refusal) -> Message<'_>
    requires { refusal.now ≢ Refusal.NoMemory }
    ensures { message_text result ≡ ended (refusal_text refusal.now) }
{
    match refusal {
        Refusal::TooLong { taken } => Message::Number(b"llc: refused 1 TooLong ", *taken),
        Refusal::Lex { line } => Message::Number(b"llc: refused 2 Lex ", u64::from(*line)),
        Refusal::Unsupported { line, word } => Message::Unsupported(*line, word.as_slice()),
        Refusal::Form { line } => Message::Number(b"llc: refused 4 Form ", u64::from(*line)),
        Refusal::Name { line } => Message::Number(b"llc: refused 5 Name ", u64::from(*line)),
        Refusal::Repeated { line } => {
            Message::Number(b"llc: refused 6 Repeated ", u64::from(*line))
        }
        Refusal::Reserved { name } => {
            Message::Symbol(b"llc: refused 7 Reserved ", name.as_slice())
        }
        Refusal::TypeRule { line } => {
            Message::Number(b"llc: refused 8 TypeRule ", u64::from(*line))
        }
        Refusal::FlowRule { line } => {
            Message::Number(b"llc: refused 9 FlowRule ", u64::from(*line))
        }
        Refusal::AliasRule { name } => {
            Message::Symbol(b"llc: refused 10 AliasRule ", name.as_slice())
        }
        Refusal::Count { which } => Message::Line(count_line(*which)),
        Refusal::NoMain => Message::Line(b"llc: refused 14 NoMain\n"),
        Refusal::BadMain => Message::Line(b"llc: refused 15 BadMain\n"),
        Refusal::Unresolved { name } => {
            Message::Symbol(b"llc: refused 16 Unresolved ", name.as_slice())
        }
        Refusal::Image { bytes } => Message::Number(b"llc: refused 17 Image ", *bytes),
        Refusal::NotYet { line } => Message::Number(b"llc: refused 18 NotYet ", u64::from(*line)),
        Refusal::NoMemory => unreachable!(),
    }
}

/// Tells a message. It takes no memory.
fn tell_message<E: Sink>(err: &mut E, message: Message<'_>) -> Result<(), Untold>
    ensures all { OnOk result (TellsAll (message_text message.entry) (sink_change E.written E.faults err.old err.new)) }
    ensures cut_off { OnErr result (CutOff (message_text message.entry) (sink_change E.written E.faults err.old err.new)) }
{
    match message {
        Message::Line(line) => write_piece(err, line),
        Message::Number(text, number) => tell_number(err, text, number),
        Message::Symbol(text, name) => tell_symbol(err, text, name),
        Message::Unsupported(line, word) => tell_word(err, line, word),
    }
}

fn count_line(which: Count) -> &'static [u8]
    ensures { result.now ≡ ended (count_text which) }
{
    match which {
        Count::Functions => b"llc: refused 11 Count Functions\n",
        Count::OneFunction => b"llc: refused 11 Count OneFunction\n",
        Count::Instructions => b"llc: refused 11 Count Instructions\n",
        Count::Arguments => b"llc: refused 11 Count Arguments\n",
        Count::TypePlaces => b"llc: refused 11 Count TypePlaces\n",
    }
}

/// Tells how a run on the machine ended.
pub fn tell_stop<E: Sink>(err: &mut E, stop: Stop) -> Result<(), Untold>
    ensures all { OnOk result (TellsAll (ended (stop_text stop)) (sink_change E.written E.faults err.old err.new)) }
    ensures cut_off { OnErr result (CutOff (ended (stop_text stop)) (sink_change E.written E.faults err.old err.new)) }
{
    match stop {
        Stop::Exited(code) => tell_number(err, b"exit ", u64::from(code)),
        Stop::Trapped(kind) => write_piece(err, trap_line(kind)),
        Stop::StackOut => write_piece(err, b"stack\n"),
        Stop::Running => write_piece(err, b"running\n"),
    }
}

fn trap_line(kind: TrapKind) -> &'static [u8]
    ensures { result.now ≡ ended (trap_text kind) }
{
    match kind {
        TrapKind::Illegal => b"trap illegal\n",
        TrapKind::Misaligned => b"trap misaligned\n",
        TrapKind::Unmapped => b"trap unmapped\n",
        TrapKind::Ecall => b"trap ecall\n",
        TrapKind::Break => b"trap break\n",
    }
}

/// Tells that a word is not supported on a line. It takes no memory.
fn tell_word<E: Sink>(err: &mut E, line: u32, word: &[u8]) -> Result<(), Untold>
    ensures all { OnOk result (TellsAll (ended (refusal_text (Refusal.Unsupported line word.now))) (sink_change E.written E.faults err.old err.new)) }
    ensures cut_off { OnErr result (CutOff (ended (refusal_text (Refusal.Unsupported line word.now))) (sink_change E.written E.faults err.old err.new)) }
{
    let mut digits = Buffer::new();
    let number = digits.format(u64::from(line)).as_bytes();
    write_both(err, b"llc: refused 3 Unsupported ", number)?;
    write_both(err, b" ", word)?;
    write_piece(err, b"\n")?;
    Ok(())
}

/// Writes these bytes.
pub fn write_piece<E: Sink>(err: &mut E, bytes: &[u8]) -> Result<(), Untold>
    ensures all { OnOk result (TellsAll bytes.now (sink_change E.written E.faults err.old err.new)) }
    ensures cut_off { OnErr result (CutOff bytes.now (sink_change E.written E.faults err.old err.new)) }
{
    match write_all(err, bytes) {
        Ok(()) => Ok(()),
        Err(_) => Err(Untold),
    }
}

/// Writes these bytes, then those.
fn write_both<E: Sink>(err: &mut E, first: &[u8], second: &[u8]) -> Result<(), Untold>
    ensures all { OnOk result (TellsAll (first.now ++ second.now) (sink_change E.written E.faults err.old err.new)) }
    ensures cut_off { OnErr result (CutOff (first.now ++ second.now) (sink_change E.written E.faults err.old err.new)) }
{
    write_piece(err, first)?;
    write_piece(err, second)?;
    Ok(())
}

/// Tells a line that ends in a number. It takes no memory.
fn tell_number<E: Sink>(err: &mut E, text: &[u8], number: u64) -> Result<(), Untold>
    ensures all { OnOk result (TellsAll (ended (text.now ++ decimal number)) (sink_change E.written E.faults err.old err.new)) }
    ensures cut_off { OnErr result (CutOff (ended (text.now ++ decimal number)) (sink_change E.written E.faults err.old err.new)) }
{
    let mut digits = Buffer::new();
    write_piece(err, text)?;
    write_piece(err, digits.format(number).as_bytes())?;
    write_piece(err, b"\n")?;
    Ok(())
}
