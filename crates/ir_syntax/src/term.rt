//! Terminators of blocks (LangRef, "Terminator Instructions").
ghost use Rattle.std.specs.Prelude.{◌≡◌};
ghost use Rattle.ir_syntax.specs.Terms.{term_line};

use crate::literal::Literal;
use crate::operand::Operand;
use crate::ty::TyText;
use ir_ident::NameUse;
use std::marker::Model;

/// A case of a `switch`.
pub struct Case {
    /// The type of its value.
    pub ty: TyText,
    /// Its value.
    pub value: Literal,
    /// The block that is next at this value.
    pub target: NameUse,
}

impl Drop for Case {
    fn drop(self) {
        let Case {
            ty,
            target,
            value: _,
        } = self;
        drop(ty);
        drop(target);
    }
}

/// The cases of a `switch` in order. Contracts see a list.
#[derive(Drop)]
pub struct Cases {
    cases: Vec<Case>,
}

impl Model for Cases {
    ghost use Rattle.std.specs.Prelude.{List};
    ghost use Rattle.std.specs.Coded.{coded_list};
    ghost use Rattle.ir_syntax.specs.declared.term.Case.{Case};
    ghost use Rattle.ir_syntax.specs.contracts.term.Case as case;

    ghost Value = { List Case };

    ghost coded = { coded_list case.the_row.coded };

    ghost view = { λ c. c.cases.items };
}

impl Cases {
    /// These cases, in their order, with no room for more.
    pub fn from_vec(mut cases: Vec<Case>) -> Cases
        ensures { result ≡ cases.items }
    {
        cases.shrink_to_fit();
        Cases { cases }
    }

    /// The cases in order.
    pub fn as_slice(&self) -> &[Case]
        ensures { result.now ≡ self.now }
    {
        self.cases.as_slice()
    }

    /// The cases in order, to be taken apart.
    pub fn into_vec(self) -> Vec<Case>
        ensures { result.items ≡ self }
    {
        self.cases
    }
}

/// What ends a block.
pub enum Term {
    /// `ret void`.
    ReturnVoid {
        /// The line of `ret`.
        line: u32,
    },
    /// `ret` of a value.
    Ret {
        /// The line of `ret`.
        line: u32,
        /// The value's type.
        ty: TyText,
        /// The value that the function returns.
        value: Operand,
    },
    /// `br` to one block.
    Br {
        /// The line of `br`.
        line: u32,
        /// The next block.
        target: NameUse,
    },
    /// `br` on a condition.
    CondBr {
        /// The line of `br`.
        line: u32,
        /// The type of the condition.
        ty: TyText,
        /// The condition.
        condition: Operand,
        /// The next block where it is true.
        then_target: NameUse,
        /// The next block where it is false.
        else_target: NameUse,
    },
    /// `switch`.
    Switch {
        /// The line of `switch`.
        line: u32,
        /// The type of the value.
        ty: TyText,
        /// The value.
        value: Operand,
        /// The next block where no case has the value.
        default: NameUse,
        /// The cases.
        cases: Cases,
    },
    /// `unreachable`.
    Unreachable {
        /// The line of `unreachable`.
        line: u32,
    },
}

impl Term {
    /// The line of its first token.
    pub fn line(&self) -> u32
        ensures { result ≡ term_line self.now }
    {
        match self {
            Term::ReturnVoid { line }
            | Term::Ret { line, .. }
            | Term::Br { line, .. }
            | Term::CondBr { line, .. }
            | Term::Switch { line, .. }
            | Term::Unreachable { line } => *line,
        }
    }
}

impl Drop for Term {
    fn drop(self) {
        match self {
            Term::ReturnVoid { line: _ } | Term::Unreachable { line: _ } => {}
            Term::Ret { ty, value, line: _ } => {
                drop(ty);
                drop(value);
            }
            Term::Br { target, line: _ } => drop(target),
            Term::CondBr {
                ty,
                condition,
                then_target,
                else_target,
                line: _,
            } => {
                drop(ty);
                drop(condition);
                drop(then_target);
                drop(else_target);
            }
            Term::Switch {
                ty,
                value,
                default,
                cases,
                line: _,
            } => {
                drop(ty);
                drop(value);
                drop(default);
                drop(cases);
            }
        }
    }
}
