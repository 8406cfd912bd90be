//! What the words of a command line ask for.
ghost use Rattle.std.specs.Prelude.{◌≡◌};

use std::marker::Model;

/// What the program is asked to do.
#[derive(Clone, Copy, Debug, PartialEq, Eq)]
pub enum Mode {
    /// To write the assembly of a module.
    Compile,
    /// To compile a module and run it on the machine.
    Run,
}

/// What the words of a command line ask for.
#[derive(Drop)]
pub struct Command<'a> {
    pub(crate) mode: Mode,
    pub(crate) steps: u64,
    pub(crate) input: &'a str,
}

impl<'a> Model for Command<'a> {
    ghost use Rattle.llc_words.specs.Commands.{Command};

    ghost Value = { Command };

    ghost view = { λ command. record {
      mode = command.mode;
      steps = command.steps;
      input = command.input.now;
    } };
}

impl<'a> Command<'a> {
    /// What is to be done.
    pub fn mode(&self) -> Mode
        ensures { result ≡ self.now.mode }
    {
        self.mode
    }

    /// How many steps a run takes at most, 0 to 1,000,000,000.
    pub fn steps(&self) -> u64
        ensures { result ≡ self.now.steps }
    {
        self.steps
    }

    /// The bytes that a run gets as its input.
    pub fn input(&self) -> &'a [u8]
        ensures { result.now ≡ self.now.input }
    {
        self.input.as_bytes()
    }
}

/// Why words were not read.
#[derive(Clone, Copy, Debug, PartialEq, Eq)]
pub enum WordsEnd {
    /// The words ask for nothing that the program does.
    Refused,
    /// Memory ran out.
    NoMemory,
}
