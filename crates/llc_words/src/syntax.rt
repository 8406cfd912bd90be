//! The syntax of the command line.
ghost use Rattle.std.specs.Prelude.{◌≡◌, IfOk};
ghost use Rattle.clap.specs.Words.{app_of};
ghost use Rattle.llc_words.specs.Syntax.{llc_app};

use clap::{Arg, Command};
use std::alloc::{AllocError, Global};

/// One flat command: a mode, which is required, and options of one value each. It has no flags for help and
/// for the version.
pub(crate) fn syntax<'a>(alloc: Global) -> Result<Command<'a>, AllocError>
    ensures { IfOk result (λ command. app_of command ≡ llc_app) }
{
    let mode = Arg::new(alloc, "mode").required(true);
    let steps = Arg::new(alloc, "steps").long("steps");
    let input = Arg::new(alloc, "input").long("input");
    Command::new(alloc, "llc")
        .disable_help_flag(true)
        .disable_version_flag(true)
        .arg(mode)?
        .arg(steps)?
        .arg(input)
}
