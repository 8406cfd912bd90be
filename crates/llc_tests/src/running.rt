//! Modules that are run, and words that ask for it.
use crate::compiling::ARGUMENT;
use crate::memory::tells;
use llc_top::Status;
use std::alloc::Global;

/// The words that ask for a run.
const RUN: &[&str] = &["llc", "run"];

/// A `main` that takes nine steps.
const SEVEN: &str = "define i32 @main() {\n  ret i32 -7\n}\n";

/// The words of a command line, a module, and how the program answers: with a status, and with this told.
type Run = (&'static [&'static str], &'static str, Status, &'static str);

/// Words and modules, and what is told of their runs.
const RUNS: &[Run] = &[
    (RUN, SEVEN, Status::Done, "exit 4294967289\n"),
    (
        RUN,
        "define i32 @main() {\n  ret i32 0\n}\n",
        Status::Done,
        "exit 0\n",
    ),
    (
        RUN,
        "define i64 @f(i64 %x) {\n  ret i64 %x\n}\ndefine i32 @main() {\n  ret i32 2047\n}\n",
        Status::Done,
        "exit 2047\n",
    ),
    // Not run.
    (RUN, ARGUMENT, Status::Refused, "llc: refused 14 NoMain\n"),
    (
        RUN,
        "declare i32 @main()\n",
        Status::Refused,
        "llc: refused 14 NoMain\n",
    ),
    (
        RUN,
        "define i64 @main() {\n  ret i64 0\n}\n",
        Status::Refused,
        "llc: refused 15 BadMain\n",
    ),
    (
        RUN,
        "define i32 @main(i32 %x) {\n  ret i32 0\n}\n",
        Status::Refused,
        "llc: refused 15 BadMain\n",
    ),
    (
        RUN,
        "define i64 @main() {\n  ret i64 2048\n}\n",
        Status::Refused,
        "llc: refused 18 NotYet 2\n",
    ),
    // As many steps as the words ask for.
    (
        &["llc", "run", "--steps", "0"],
        SEVEN,
        Status::Done,
        "running\n",
    ),
    (
        &["llc", "run", "--steps=8"],
        SEVEN,
        Status::Done,
        "running\n",
    ),
    (
        &["llc", "run", "--steps=9"],
        SEVEN,
        Status::Done,
        "exit 4294967289\n",
    ),
    (
        &["llc", "--steps", "1000000000", "run"],
        SEVEN,
        Status::Done,
        "exit 4294967289\n",
    ),
    (
        &["llc", "run", "--input", "ä"],
        SEVEN,
        Status::Done,
        "exit 4294967289\n",
    ),
    // Words that the program does not know.
    (
        &["llc", "compile", "x"],
        ARGUMENT,
        Status::Words,
        "llc: words\n",
    ),
    (
        &["llc", "compile", "--steps", "1000000001"],
        ARGUMENT,
        Status::Words,
        "llc: words\n",
    ),
    (
        &["llc", "run", "--parts", "2"],
        ARGUMENT,
        Status::Words,
        "llc: words\n",
    ),
    (&["llc"], ARGUMENT, Status::Words, "llc: words\n"),
    (&[], ARGUMENT, Status::Words, "llc: words\n"),
];

/// The number of the first row that is answered otherwise, or 0.
fn wrong_run(alloc: Global) -> usize {
    for at in 0..RUNS.len() {
        let (words, text, status, told) = RUNS[at];
        if !tells(alloc, words, text, status, told) {
            return at + 1;
        }
    }
    0
}

#[test]
fn runs_are_told(rt: HostRuntime) {
    assert_eq!(rt; wrong_run(rt.alloc()), 0);
}
