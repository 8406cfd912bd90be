//! A text that was read whole: refused, compiled or run.
ghost use Rattle.std.specs.Prelude.{◌≡◌, ◌≤◌, ◌⊎◌, length};
ghost use Rattle.cg_built.specs.Unbuilt.{IsBuilt};
ghost use Rattle.llc_top.specs.Outcome.{Answers};
ghost use Rattle.llc_top.specs.Partial.{HasTextReason, HasReadReason, HasCheckedReason, HasModuleReason, HasRunReason};
ghost use Rattle.llc_top.specs.Refusals.{text_limit};
ghost use Rattle.llc_top.specs.Streams.{sink_change};

use crate::answer::{answer_refusal, answer_unlinked, answer_unread};
use crate::compile::write_output;
use crate::execute::execute;
use crate::status::Status;
use cg_built::{defines_main, has_main, unbuilt};
use cg_io::Sink;
use cg_part::program_of;
use ir_check::{Checked, check};
use ir_read::read_module;
use ir_syntax::{Module, Refusal};
use llc_words::{Command, Mode};
use std::alloc::Global;

/// Does with a text what the command says, or tells on `err` why it is refused.
pub fn serve_text<O: Sink, E: Sink>(
    alloc: Global,
    command: &Command<'_>,
    text: &[u8],
    out: &mut O,
    err: &mut E,
) -> Status
    requires { length text.now ≤ text_limit }
    ensures answer { Answers (HasTextReason command.now text.now) result
        (sink_change O.written O.faults out.old out.new) (sink_change E.written E.faults err.old err.new) }
    ensures untouched { (result ≡ Status.Done) ⊎ (result ≡ Status.NoMemory) ⊎ (result ≡ Status.WriteFault) ⊎
        (out.new ≡ out.old) }
{
    match read_module(alloc, text) {
        Ok(m) => serve_read(alloc, command, m, out, err),
        Err(refusal) => answer_unread(err, refusal),
    }
}

/// Checks a module that was read, and does what the command says.
fn serve_read<O: Sink, E: Sink>(
    alloc: Global,
    command: &Command<'_>,
    m: Module,
    out: &mut O,
    err: &mut E,
) -> Status
    ensures answer { Answers (HasReadReason command.now m) result
        (sink_change O.written O.faults out.old out.new) (sink_change E.written E.faults err.old err.new) }
    ensures untouched { (result ≡ Status.Done) ⊎ (result ≡ Status.NoMemory) ⊎ (result ≡ Status.WriteFault) ⊎
        (out.new ≡ out.old) }
{
    match check(alloc, m) {
        Ok(checked) => serve_checked(alloc, command, &checked, out, err),
        Err(refusal) => answer_unread(err, refusal),
    }
}

/// Does with a module that passed the checks what the command says, or tells what is not built.
fn serve_checked<O: Sink, E: Sink>(
    alloc: Global,
    command: &Command<'_>,
    checked: &Checked,
    out: &mut O,
    err: &mut E,
) -> Status
    ensures answer { Answers (HasCheckedReason command.now checked.now) result
        (sink_change O.written O.faults out.old out.new) (sink_change E.written E.faults err.old err.new) }
    ensures untouched { (result ≡ Status.Done) ⊎ (result ≡ Status.NoMemory) ⊎ (result ≡ Status.WriteFault) ⊎
        (out.new ≡ out.old) }
{
    let m = checked.module();
    match unbuilt(alloc, checked) {
        Ok(None) => serve_module(alloc, command, m, out, err),
        Ok(Some(line)) => answer_refusal(err, Refusal::NotYet { line }),
        Err(_) => Status::NoMemory,
    }
}

/// Compiles or runs a module of which all is built.
fn serve_module<O: Sink, E: Sink>(
    alloc: Global,
    command: &Command<'_>,
    m: &Module,
    out: &mut O,
    err: &mut E,
) -> Status
    requires { IsBuilt m.now }
    ensures answer { Answers (HasModuleReason command.now m.now) result
        (sink_change O.written O.faults out.old out.new) (sink_change E.written E.faults err.old err.new) }
    ensures untouched { (result ≡ Status.Done) ⊎ (result ≡ Status.NoMemory) ⊎ (result ≡ Status.WriteFault) ⊎
        (out.new ≡ out.old) }
{
    match command.mode() {
        Mode::Compile => write_output(alloc, m, out),
        Mode::Run => run_module(alloc, command, m, out, err),
    }
}

/// Runs a module of which all is built, or tells why that can't be.
fn run_module<O: Sink, E: Sink>(
    alloc: Global,
    command: &Command<'_>,
    m: &Module,
    out: &mut O,
    err: &mut E,
) -> Status
    requires { IsBuilt m.now }
    ensures answer { Answers (HasRunReason command.now m.now) result
        (sink_change O.written O.faults out.old out.new) (sink_change E.written E.faults err.old err.new) }
    ensures untouched { (result ≡ Status.Done) ⊎ (result ≡ Status.NoMemory) ⊎ (result ≡ Status.WriteFault) ⊎
        (out.new ≡ out.old) }
{
    if !defines_main(m) {
        return answer_refusal(err, Refusal::NoMain);
    }
    if !has_main(m) {
        return answer_refusal(err, Refusal::BadMain);
    }
    match program_of(alloc, m) {
        Ok(image) => execute(alloc, command, &image, out, err),
        Err(why) => answer_unlinked(alloc, err, why),
    }
}
