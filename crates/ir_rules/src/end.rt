//! How a reader ends other than well.
use std::alloc::{AllocError, AllocFailed};

/// How a reader ends other than well.
#[derive(Clone, Copy, Debug)]
pub enum End {
    /// Memory ran out.
    NoMemory,
    /// So many tokens are left from the first bad one on; 0: the tokens end too soon.
    Bad(usize),
}

impl From<AllocError> for End {
    ghost use Rattle.std.specs.Prelude.{◌≡◌};
    ghost use Rattle.ir_rules.specs.declared.end.End.TheVariants.{NoMemory};

    ghost from_gives = { λ _ e. e ≡ NoMemory };

    fn from(_error: AllocError) -> End {
        End::NoMemory
    }
}

impl<T: Drop> From<AllocFailed<T>> for End {
    ghost use Rattle.std.specs.Prelude.{◌≡◌};
    ghost use Rattle.ir_rules.specs.declared.end.End.TheVariants.{NoMemory};

    ghost from_gives = { λ _ e. e ≡ NoMemory };

    fn from(_error: AllocFailed<T>) -> End {
        End::NoMemory
    }
}
