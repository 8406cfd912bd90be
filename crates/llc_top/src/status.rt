//! How a run of the program ends.
ghost use Rattle.std.specs.Prelude.{◌≡◌};
ghost use Rattle.llc_top.specs.Numbers.{status_number};

/// How a run of the program ends. Its number is the program's exit status.
#[derive(Clone, Copy, Debug, PartialEq, Eq)]
pub enum Status {
    /// 0: all was done, and all of its output written.
    Done,
    /// 1: the module is refused.
    Refused,
    /// 2: the words of the command line are none that the program knows.
    Words,
    /// 3: a read failed.
    ReadFault,
    /// 4: a write failed. It comes in place of the status that was due.
    WriteFault,
    /// 5: memory ran out.
    NoMemory,
}

impl Status {
    /// The number of the status, 0 to 5.
    pub fn number(self) -> u8
        ensures { result ≡ status_number self }
    {
        self as u8
    }
}
