//! The least line of faults.
ghost use Rattle.std.specs.Prelude.{◌≡◌};
ghost use Rattle.ir_defined.specs.Least.{is_below};

/// Whether a line is less than the least one so far.
pub(crate) fn is_below(line: u32, least: Option<u32>) -> bool
    ensures { result ≡ is_below line least }
{
    match least {
        Some(least) => line < least,
        None => true,
    }
}
