//! Values as operands (LangRef, "Constants" and "Identifiers").
ghost use Rattle.std.specs.Prelude.{◌≡◌, IfOk};

use crate::literal::Literal;
use crate::ty::TyText;
use ir_ident::NameUse;
use std::alloc::{AllocError, Global};
use std::marker::Model;
use std::mem;

/// An integer literal with its type.
pub struct TypedLiteral {
    /// Its type.
    pub ty: TyText,
    /// The literal.
    pub value: Literal,
}

impl Drop for TypedLiteral {
    fn drop(self) {
        let TypedLiteral { ty, value: _ } = self;
        drop(ty);
    }
}

/// Integer literals with their types, in order. Contracts see a list.
#[derive(Drop)]
pub struct TypedLiterals {
    literals: Vec<TypedLiteral>,
}

impl Model for TypedLiterals {
    ghost use Rattle.std.specs.Prelude.{List};
    ghost use Rattle.std.specs.Coded.{coded_list};
    ghost use Rattle.ir_syntax.specs.declared.operand.TypedLiteral.{TypedLiteral};
    ghost use Rattle.ir_syntax.specs.contracts.operand.TypedLiteral as typed_literal;

    ghost Value = { List TypedLiteral };

    ghost coded = { coded_list typed_literal.the_row.coded };

    ghost view = { λ l. l.literals.items };
}

impl TypedLiterals {
    /// These literals, in their order, with no room for more.
    pub fn from_vec(mut literals: Vec<TypedLiteral>) -> TypedLiterals
        ensures { result ≡ literals.items }
    {
        literals.shrink_to_fit();
        TypedLiterals { literals }
    }

    /// The literals in order.
    pub fn as_slice(&self) -> &[TypedLiteral]
        ensures { result.now ≡ self.now }
    {
        self.literals.as_slice()
    }
}

/// The parts of a constant `getelementptr` on a global name (LangRef, "Constant Expressions").
pub struct GepParts {
    /// Whether it says `inbounds`.
    pub inbounds: bool,
    /// The type in which the indices go.
    pub ty: TyText,
    /// The global that it starts from.
    pub base: NameUse,
    /// The indices.
    pub indices: TypedLiterals,
}

impl Drop for GepParts {
    fn drop(self) {
        let GepParts {
            inbounds: _,
            ty,
            base,
            indices,
        } = self;
        drop(ty);
        drop(base);
        drop(indices);
    }
}

/// A constant `getelementptr`. Few operands are one, so its parts are in a box. Contracts see them without it.
#[derive(Drop)]
pub struct ConstantGep {
    parts: Box<GepParts>,
}

impl Model for ConstantGep {
    ghost use Rattle.ir_syntax.specs.declared.operand.GepParts.{GepParts};
    ghost use Rattle.ir_syntax.specs.contracts.operand.GepParts as gep_parts;

    ghost Value = { GepParts };

    ghost coded = { gep_parts.the_row.coded };

    ghost view = { λ g. g.parts.value };
}

impl ConstantGep {
    /// The address of these parts.
    pub fn new(alloc: Global, parts: GepParts) -> Result<ConstantGep, AllocError>
        ensures { IfOk result (λ gep. gep ≡ parts) }
    {
        let parts = Box::new(alloc, parts)?;
        Ok(ConstantGep { parts })
    }

    /// Its parts.
    pub fn parts(&self) -> &GepParts
        ensures { result.now ≡ self.now }
    {
        &self.parts
    }

    /// Puts another type and other indices in place of its own.
    pub fn set_path(&mut self, ty: TyText, indices: TypedLiterals)
        ensures { self.new ≡ record self.old { ty = ty; indices = indices } }
    {
        drop(mem::replace(&mut self.parts.ty, ty));
        drop(mem::replace(&mut self.parts.indices, indices));
    }
}

/// A value as an operand.
pub enum Operand {
    /// A parameter or a result of this function.
    Local(NameUse),
    /// The address of a global name.
    Global(NameUse),
    /// An integer literal.
    Int(Literal),
    /// `true`.
    True,
    /// `false`.
    False,
    /// `null`.
    Null,
    /// `undef`.
    Undef,
    /// `poison`.
    Poison,
    /// An address at constant offsets from a global name.
    Gep(ConstantGep),
}

impl Drop for Operand {
    fn drop(self) {
        match self {
            Operand::Local(used) => drop(used),
            Operand::Global(used) => drop(used),
            Operand::Int(_)
            | Operand::True
            | Operand::False
            | Operand::Null
            | Operand::Undef
            | Operand::Poison => {}
            Operand::Gep(gep) => drop(gep),
        }
    }
}

/// An operand with its type.
#[derive(Drop)]
pub struct TypedOperand {
    /// Its type.
    pub ty: TyText,
    /// The operand.
    pub value: Operand,
}

/// Operands with their types, in order. Contracts see a list.
#[derive(Drop)]
pub struct TypedOperands {
    operands: Vec<TypedOperand>,
}

impl Model for TypedOperands {
    ghost use Rattle.std.specs.Prelude.{List};
    ghost use Rattle.std.specs.Coded.{coded_list};
    ghost use Rattle.ir_syntax.specs.declared.operand.TypedOperand.{TypedOperand};
    ghost use Rattle.ir_syntax.specs.contracts.operand.TypedOperand as typed_operand;

    ghost Value = { List TypedOperand };

    ghost coded = { coded_list typed_operand.the_row.coded };

    ghost view = { λ o. o.operands.items };
}

impl TypedOperands {
    /// These operands, in their order, with no room for more.
    pub fn from_vec(mut operands: Vec<TypedOperand>) -> TypedOperands
        ensures { result ≡ operands.items }
    {
        operands.shrink_to_fit();
        TypedOperands { operands }
    }

    /// The operands in order.
    pub fn as_slice(&self) -> &[TypedOperand]
        ensures { result.now ≡ self.now }
    {
        self.operands.as_slice()
    }

    /// The operands in order, to be taken apart.
    pub fn into_vec(self) -> Vec<TypedOperand>
        ensures { result.items ≡ self }
    {
        self.operands
    }
}
