//! The top call.
ghost use Rattle.std.specs.Prelude.{◌≡◌, ◌⊎◌, ◌+◌, None, map, string_bytes};
ghost use Rattle.cg_io.specs.Faults.{Rose};
ghost use Rattle.cg_io.specs.Told.{TakesAtMost};
ghost use Rattle.llc_top.specs.Headline.{Headline};
ghost use Rattle.llc_top.specs.Outcome.{Answers, HasReason};
ghost use Rattle.llc_top.specs.Refusals.{text_limit};
ghost use Rattle.llc_top.specs.Streams.{source_change, sink_change};
ghost use Rattle.llc_words.specs.Commands.{command_of};

use crate::answer::{answer_line, answer_refusal};
use crate::serve::serve_text;
use crate::status::Status;
use cg_io::{ReadEnd, Sink, Source, read_all};
use ir_syntax::Refusal;
use llc_words::{WordsEnd, read_words};
use std::alloc::Global;

/// The most bytes that a module may have.
const TEXT_LIMIT: usize = 16_777_216;

/// Runs the program: `words` are those of its command line, the program's name first.
///
/// With `compile` it reads a module from `src`, to its end, and writes its assembly on `out`. With `run` it
/// compiles the module, links it, and runs it on the machine, for at most as many steps as `--steps` says, or
/// 100,000,000, and on the input that `--input` says, or none: the machine's output goes to `out`, and a line
/// that tells how it ended to `err`. A text that is refused is told on `err`, and leaves `out` without a byte.
pub fn run_llc<S: Source, O: Sink, E: Sink>(
    alloc: Global,
    words: &[String],
    src: &mut S,
    out: &mut O,
    err: &mut E,
) -> Status
    // What came of it, why, what was written, and that this is what the module's meaning allows.
    ensures headline { Headline (map (λ word. string_bytes word) words.now) result
        (source_change S.left S.faults src.old src.new)
        (sink_change O.written O.faults out.old out.new) (sink_change E.written E.faults err.old err.new) }

    // With other words nothing is read, and never more than one byte beyond what a module may have. Nothing but a
    // module that is compiled or run comes to `out`. Where memory runs out no read had failed.
    ensures unread { command_of (map (λ word. string_bytes word) words.now) ≡ None → src.new ≡ src.old }
    ensures most { TakesAtMost (text_limit + 1) (S.left src.old) (S.left src.new) }
    ensures untouched { (result ≡ Status.Done) ⊎ (result ≡ Status.NoMemory) ⊎ (result ≡ Status.WriteFault) ⊎
        (out.new ≡ out.old) }
    ensures no_src_fault { (result ≡ Status.ReadFault) ⊎ (result ≡ Status.WriteFault) ⊎
        (S.faults src.new ≡ S.faults src.old) }

    // These follow from `headline`: which words are refused, and that faults come only from the streams.
    ensures words { command_of (map (λ word. string_bytes word) words.now) ≡ None →
        (result ≡ Status.Words) ⊎ (result ≡ Status.NoMemory) ⊎ (result ≡ Status.WriteFault) }
    ensures read_fault { result ≡ Status.ReadFault → Rose (S.faults src.old) (S.faults src.new) }
    ensures write_fault { result ≡ Status.WriteFault →
        Rose (O.faults out.old) (O.faults out.new) ⊎ Rose (E.faults err.old) (E.faults err.new) }
    ensures no_out_fault { (result ≡ Status.WriteFault) ⊎ (O.faults out.new ≡ O.faults out.old) }
    ensures no_err_fault { (result ≡ Status.WriteFault) ⊎ (E.faults err.new ≡ E.faults err.old) }
{
    run_command(alloc, words, src, out, err)
}

/// Does what the words say.
fn run_command<S: Source, O: Sink, E: Sink>(
    alloc: Global,
    words: &[String],
    src: &mut S,
    out: &mut O,
    err: &mut E,
) -> Status
    ensures answer { Answers
        (HasReason (map (λ word. string_bytes word) words.now) (source_change S.left S.faults src.old src.new))
        result (sink_change O.written O.faults out.old out.new) (sink_change E.written E.faults err.old err.new) }
    ensures unread { command_of (map (λ word. string_bytes word) words.now) ≡ None → src.new ≡ src.old }
    ensures no_src_fault { (result ≡ Status.ReadFault) ⊎ (result ≡ Status.WriteFault) ⊎
        (S.faults src.new ≡ S.faults src.old) }
    ensures most { TakesAtMost (text_limit + 1) (S.left src.old) (S.left src.new) }
    ensures untouched { (result ≡ Status.Done) ⊎ (result ≡ Status.NoMemory) ⊎ (result ≡ Status.WriteFault) ⊎
        (out.new ≡ out.old) }
{
    let command = match read_words(alloc, words) {
        Ok(command) => command,
        Err(WordsEnd::Refused) => return answer_line(err, b"llc: words\n", Status::Words),
        Err(WordsEnd::NoMemory) => return Status::NoMemory,
    };
    match read_all(alloc, src, TEXT_LIMIT) {
        Ok(text) => serve_text(alloc, &command, &text, out, err),
        Err(ReadEnd::TooLong { taken }) => answer_refusal(
            err,
            Refusal::TooLong {
                taken: taken as u64,
            },
        ),
        Err(ReadEnd::Fault) => answer_line(err, b"llc: read fault\n", Status::ReadFault),
        Err(ReadEnd::NoMemory) => Status::NoMemory,
    }
}
