//! The types of arguments in order.
ghost use Rattle.std.specs.Prelude.{◌≡◌, Option, Some, map};
ghost use Rattle.ir_call_rules.specs.Calls.{are_of_types};
ghost use Rattle.ir_scope.specs.Scalars.{maybe_scalar, scalar_of};
ghost use Rattle.ir_scope.specs.declared.scalar.Scalar.{Scalar};

use ir_op_rules::are_same;
use ir_scope::{Scalar, maybe_scalar, scalar_of};
use ir_syntax::{Arg, Param, TyText};

/// What states the type of an argument.
pub(crate) trait StatesType {
    /// The type; none where it is no value's.
    ghost stated: { Self → Option Scalar };

    /// The type; none where it is no value's.
    fn stated_type(&self) -> Option<Scalar>
        ensures { result ≡ stated self.now };
}

impl StatesType for Param {
    ghost stated = { λ p. maybe_scalar p.ty };

    fn stated_type(&self) -> Option<Scalar> {
        maybe_scalar(&self.ty)
    }
}

impl StatesType for TyText {
    ghost stated = { scalar_of };

    fn stated_type(&self) -> Option<Scalar> {
        scalar_of(self)
    }
}

impl StatesType for Scalar {
    ghost stated = { λ s. Some s };

    fn stated_type(&self) -> Option<Scalar> {
        Some(*self)
    }
}

/// Whether there are as many arguments as types, each of its type.
pub(crate) fn are_of_types<T: StatesType>(mut types: &[T], mut args: &[Arg]) -> bool
    ensures { result ≡ are_of_types (map T.stated types.entry.now) args.entry.now }
{
    while let [ty, more_types @ ..] = types {
        let [arg, more_args @ ..] = args else {
            return false;
        };
        if !are_same(ty.stated_type(), scalar_of(&arg.ty)) {
            return false;
        }
        types = more_types;
        args = more_args;
    }
    args.is_empty()
}
