//! Types of phis and terminators (LangRef, "'phi' Instruction" and "Terminator Instructions").
ghost use Rattle.std.specs.Prelude.{◌≡◌};
ghost use Rattle.std.specs.List.{list_all};
ghost use Rattle.ir_ident.specs.NameMaps.{value_of};
ghost use Rattle.ir_op_rules.specs.Control.{phi_fits, ret_fits, switch_fits, term_fits};
ghost use Rattle.ir_op_rules.specs.Values.{are_same};
ghost use Rattle.ir_scope.specs.Operands.{value_fits};
ghost use Rattle.ir_scope.specs.Scalars.{scalar_of};
ghost use Rattle.ir_syntax.specs.Terms.{term_line};

use crate::values::{are_same, condition_fits, int_fits, is_value_type};
use ir_ident::NameMap;
use ir_scope::{Scalar, maybe_scalar, scalar_of, value_fits};
use ir_syntax::{Case, Operand, Phi, PhiEntry, Term, TyText};

/// Whether all values of a phi are of a type.
fn entries_fit(locals: &NameMap<'_, Scalar>, ty: &TyText, entries: &[PhiEntry]) -> bool
    ensures { result ≡ list_all (λ e. value_fits (value_of locals.now) ty.now e.value) entries.now }
{
    entries
        .iter()
        .all(|entry| value_fits(locals, ty, &entry.value))
}

/// Whether a phi has values of its type.
pub(crate) fn phi_fits(locals: &NameMap<'_, Scalar>, phi: &Phi) -> bool
    ensures { result ≡ phi_fits (value_of locals.now) phi.now }
{
    is_value_type(&phi.ty) & entries_fit(locals, &phi.ty, phi.entries.as_slice())
}

/// Whether a value is of the result type of its function.
fn ret_fits(
    locals: &NameMap<'_, Scalar>,
    returned: &Option<TyText>,
    ty: &TyText,
    value: &Operand,
) -> bool
    ensures { result ≡ ret_fits (value_of locals.now) returned.now ty.now value.now }
{
    are_same(maybe_scalar(returned), scalar_of(ty)) & value_fits(locals, ty, value)
}

/// Whether all cases are of a type.
fn cases_fit(ty: &TyText, cases: &[Case]) -> bool
    ensures { result ≡ list_all (λ c. are_same (scalar_of ty.now) (scalar_of c.ty)) cases.now }
{
    cases
        .iter()
        .all(|case| are_same(scalar_of(ty), scalar_of(&case.ty)))
}

/// Whether a `switch` is on an integer, and its cases are of its type.
fn switch_fits(locals: &NameMap<'_, Scalar>, ty: &TyText, value: &Operand, cases: &[Case]) -> bool
    ensures { result ≡ switch_fits (value_of locals.now) ty.now value.now cases.now }
{
    int_fits(locals, ty, value) & cases_fit(ty, cases)
}

/// Whether a terminator has the types that it states, in a function of this result type; none is `void`.
pub(crate) fn term_fits(
    locals: &NameMap<'_, Scalar>,
    returned: &Option<TyText>,
    term: &Term,
) -> bool
    ensures { result ≡ term_fits (value_of locals.now) returned.now term.now }
{
    match term {
        Term::ReturnVoid { .. } => returned.is_none(),
        Term::Ret { ty, value, .. } => ret_fits(locals, returned, ty, value),
        Term::Br { .. } | Term::Unreachable { .. } => true,
        Term::CondBr { ty, condition, .. } => condition_fits(locals, ty, condition),
        Term::Switch {
            ty,
            value,
            cases,
            ..
        } => switch_fits(locals, ty, value, cases.as_slice()),
    }
}
