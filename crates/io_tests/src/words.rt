//! Words of the command line, and what they ask for.
use llc_words::{Command, Mode, WordsEnd, read_words};
use std::alloc::{AllocError, Global};

/// A mode, a number of steps and an input.
type Asked = (Mode, u64, &'static str);

/// The words of command lines, the program's name first, and what they ask for; none where they are refused.
const WORDS: &[(&[&str], Option<Asked>)] = &[
    (&["llc", "compile"], Some((Mode::Compile, 100_000_000, ""))),
    (&["llc", "run"], Some((Mode::Run, 100_000_000, ""))),
    (&["llc", "run", "--steps", "4"], Some((Mode::Run, 4, ""))),
    (&["llc", "--steps=0", "run"], Some((Mode::Run, 0, ""))),
    (
        &["llc", "compile", "--steps=5"],
        Some((Mode::Compile, 5, "")),
    ),
    (
        &["llc", "run", "--steps", "1000000000"],
        Some((Mode::Run, 1_000_000_000, "")),
    ),
    (
        &["llc", "run", "--steps", "00000000000000000007"],
        Some((Mode::Run, 7, "")),
    ),
    (
        &["llc", "run", "--input", "ä€"],
        Some((Mode::Run, 100_000_000, "ä€")),
    ),
    (
        &["llc", "run", "--input=a b"],
        Some((Mode::Run, 100_000_000, "a b")),
    ),
    (
        &["llc", "run", "--input=--steps"],
        Some((Mode::Run, 100_000_000, "--steps")),
    ),
    (
        &["llc", "run", "--input="],
        Some((Mode::Run, 100_000_000, "")),
    ),
    (&["llc", "--", "run"], Some((Mode::Run, 100_000_000, ""))),
    (&[], None),
    (&["llc"], None),
    (&["llc", "interp"], None),
    (&["llc", "Compile"], None),
    (&["llc", ""], None),
    (&["llc", "compile", "x"], None),
    (&["llc", "compile", "run"], None),
    (&["llc", "--steps", "4"], None),
    (&["llc", "run", "--steps", "1000000001"], None),
    (&["llc", "compile", "--steps", "1000000001"], None),
    (&["llc", "run", "--steps", "x"], None),
    (&["llc", "run", "--steps", "+4"], None),
    (&["llc", "run", "--steps", "-4"], None),
    (&["llc", "run", "--steps="], None),
    (&["llc", "run", "--steps"], None),
    (&["llc", "run", "--steps", "4", "--steps", "4"], None),
    (&["llc", "run", "--steps", "000000000000000000007"], None),
    (&["llc", "run", "--steps", "99999999999999999999"], None),
    (&["llc", "run", "--parts", "2"], None),
    (&["llc", "run", "-h"], None),
    (&["llc", "run", "--help"], None),
    (&["llc", "--version"], None),
];

/// A command line of these words.
fn line_of(alloc: Global, words: &[&str]) -> Result<Vec<String>, AllocError> {
    let mut line = Vec::new(alloc);
    for word in words {
        let word = String::from_str(alloc, word)?;
        line.push(word)?;
    }
    Ok(line)
}

/// Whether a command is the one that is asked for.
fn is_asked(command: &Command<'_>, asked: Option<Asked>) -> bool {
    match asked {
        Some((mode, steps, input)) => {
            (command.mode() == mode)
                & (command.steps() == steps)
                & (command.input() == input.as_bytes())
        }
        None => false,
    }
}

/// Whether a command line asks for this, or is refused.
fn asks_for(alloc: Global, line: &[String], asked: Option<Asked>) -> bool {
    match read_words(alloc, line) {
        Ok(command) => is_asked(&command, asked),
        Err(WordsEnd::Refused) => asked.is_none(),
        Err(_) => false,
    }
}

/// Whether these words ask for this, or are refused.
fn ask_for(alloc: Global, words: &[&str], asked: Option<Asked>) -> bool {
    match line_of(alloc, words) {
        Ok(line) => asks_for(alloc, line.as_slice(), asked),
        Err(_) => false,
    }
}

/// The number of the first row of words that ask for something else, or 0.
fn wrong_words(alloc: Global) -> usize {
    for at in 0..WORDS.len() {
        if !ask_for(alloc, WORDS[at].0, WORDS[at].1) {
            return at + 1;
        }
    }
    0
}

#[test]
fn words_ask_for_a_mode_steps_and_an_input(rt: HostRuntime) {
    assert_eq!(rt; wrong_words(rt.alloc()), 0);
}
