//! Instructions other than phis and terminators (LangRef, "Instruction Reference").
ghost use Rattle.std.specs.Prelude.{◌≡◌};

use crate::operand::{Operand, TypedLiteral, TypedOperands};
use crate::ty::{TyText, TypeTexts};
use cg_num::{BinOp, Pred};
use ir_ident::{Name, NameUse};
use std::marker::Model;

/// A conversion (LangRef, "Conversion Operations").
#[derive(Clone, Copy, PartialEq, Eq)]
pub enum CastOp {
    /// `trunc`.
    Trunc,
    /// `zext`.
    Zext,
    /// `sext`.
    Sext,
    /// `ptrtoint`.
    PtrToInt,
    /// `inttoptr`.
    IntToPtr,
    /// `bitcast`.
    BitCast,
}

/// An argument of a call.
pub struct Arg {
    /// Its type.
    pub ty: TyText,
    /// Its alignment in bytes as written; none where none is.
    pub align: Option<u64>,
    /// The argument.
    pub value: Operand,
}

impl Drop for Arg {
    fn drop(self) {
        let Arg {
            ty,
            value,
            align: _,
        } = self;
        drop(ty);
        drop(value);
    }
}

/// The arguments of a call in order. Contracts see a list.
#[derive(Drop)]
pub struct Args {
    args: Vec<Arg>,
}

impl Model for Args {
    ghost use Rattle.std.specs.Prelude.{List};
    ghost use Rattle.std.specs.Coded.{coded_list};
    ghost use Rattle.ir_syntax.specs.declared.instr.Arg.{Arg};
    ghost use Rattle.ir_syntax.specs.contracts.instr.Arg as arg;

    ghost Value = { List Arg };

    ghost coded = { coded_list arg.the_row.coded };

    ghost view = { λ a. a.args.items };
}

impl Args {
    /// These arguments, in their order, with no room for more.
    pub fn from_vec(mut args: Vec<Arg>) -> Args
        ensures { result ≡ args.items }
    {
        args.shrink_to_fit();
        Args { args }
    }

    /// The arguments in order.
    pub fn as_slice(&self) -> &[Arg]
        ensures { result.now ≡ self.now }
    {
        self.args.as_slice()
    }

    /// The arguments in order, to be taken apart.
    pub fn into_vec(self) -> Vec<Arg>
        ensures { result.items ≡ self }
    {
        self.args
    }
}

/// What an instruction does, with its parts in the order in which the text has them.
pub enum Op {
    /// `add`, `sub`, `mul` or `shl`.
    Wrapping {
        /// Which of them.
        op: BinOp,
        /// Whether it says `nuw`.
        nuw: bool,
        /// Whether it says `nsw`.
        nsw: bool,
        /// The type of the operands.
        ty: TyText,
        /// The first operand.
        left: Operand,
        /// The second operand.
        right: Operand,
    },
    /// `udiv`, `sdiv`, `lshr` or `ashr`.
    Exact {
        /// Which of them.
        op: BinOp,
        /// Whether it says `exact`.
        exact: bool,
        /// The type of the operands.
        ty: TyText,
        /// The first operand.
        left: Operand,
        /// The second operand.
        right: Operand,
    },
    /// `urem`, `srem`, `and`, `or` or `xor`.
    Bitwise {
        /// Which of them.
        op: BinOp,
        /// The type of the operands.
        ty: TyText,
        /// The first operand.
        left: Operand,
        /// The second operand.
        right: Operand,
    },
    /// `icmp`.
    Icmp {
        /// The condition.
        pred: Pred,
        /// The type of the operands.
        ty: TyText,
        /// The first operand.
        left: Operand,
        /// The second operand.
        right: Operand,
    },
    /// `select`.
    Select {
        /// The type of the condition.
        condition_ty: TyText,
        /// The condition.
        condition: Operand,
        /// The type of the value where the condition is true.
        then_ty: TyText,
        /// That value.
        then_value: Operand,
        /// The type of the value where it is false.
        else_ty: TyText,
        /// That value.
        else_value: Operand,
    },
    /// A conversion.
    Cast {
        /// Which one.
        op: CastOp,
        /// The type of the operand.
        from: TyText,
        /// The operand.
        value: Operand,
        /// The type of the result.
        to: TyText,
    },
    /// `freeze`.
    Freeze {
        /// The type of the operand.
        ty: TyText,
        /// The operand.
        value: Operand,
    },
    /// `getelementptr`.
    Gep {
        /// Whether it says `inbounds`.
        inbounds: bool,
        /// The type in which the indices go.
        ty: TyText,
        /// The type of the address.
        base_ty: TyText,
        /// The address.
        base: Operand,
        /// The indices.
        indices: TypedOperands,
    },
    /// `load`.
    Load {
        /// The type of what is loaded.
        ty: TyText,
        /// The type of the address.
        address_ty: TyText,
        /// The address.
        address: Operand,
        /// The alignment in bytes as written; none where none is.
        align: Option<u64>,
    },
    /// `store`.
    Store {
        /// The type of what is stored.
        ty: TyText,
        /// What is stored.
        value: Operand,
        /// The type of the address.
        address_ty: TyText,
        /// The address.
        address: Operand,
        /// The alignment in bytes as written; none where none is.
        align: Option<u64>,
    },
    /// `alloca`.
    Alloca {
        /// The type of an element.
        ty: TyText,
        /// The number of elements; none for one.
        count: Option<TypedLiteral>,
        /// The alignment in bytes as written; none where none is.
        align: Option<u64>,
    },
    /// `call`.
    Call {
        /// The type of what is returned; none for `void`.
        result: Option<TyText>,
        /// The types of the parameters; none where they are not written.
        params: Option<TypeTexts>,
        /// The function that is called.
        callee: NameUse,
        /// The arguments.
        args: Args,
    },
}

impl Drop for Op {
    fn drop(self) {
        match self {
            Op::Wrapping {
                ty,
                left,
                right,
                op: _,
                nuw: _,
                nsw: _,
            }
            | Op::Exact {
                ty,
                left,
                right,
                op: _,
                exact: _,
            }
            | Op::Bitwise {
                ty,
                left,
                right,
                op: _,
            }
            | Op::Icmp {
                ty,
                left,
                right,
                pred: _,
            } => drop_pair(ty, left, right),
            Op::Select {
                condition_ty,
                condition,
                then_ty,
                then_value,
                else_ty,
                else_value,
            } => {
                drop_value(condition_ty, condition);
                drop_value(then_ty, then_value);
                drop_value(else_ty, else_value);
            }
            Op::Cast {
                from,
                value,
                to,
                op: _,
            } => {
                drop_value(from, value);
                drop(to);
            }
            Op::Freeze { ty, value } => drop_value(ty, value),
            Op::Gep {
                ty,
                base_ty,
                base,
                indices,
                inbounds: _,
            } => {
                drop(ty);
                drop_value(base_ty, base);
                drop(indices);
            }
            Op::Load {
                ty,
                address_ty,
                address,
                align: _,
            } => {
                drop(ty);
                drop_value(address_ty, address);
            }
            Op::Store {
                ty,
                value,
                address_ty,
                address,
                align: _,
            } => {
                drop_value(ty, value);
                drop_value(address_ty, address);
            }
            Op::Alloca {
                ty,
                count,
                align: _,
            } => {
                drop(ty);
                drop(count);
            }
            Op::Call {
                result,
                params,
                callee,
                args,
            } => {
                drop(result);
                drop(params);
                drop(callee);
                drop(args);
            }
        }
    }
}

/// Drops an operand, and the type in front of it.
fn drop_value(ty: TyText, value: Operand) {
    drop(ty);
    drop(value);
}

/// Drops two operands, and their type.
fn drop_pair(ty: TyText, left: Operand, right: Operand) {
    drop(ty);
    drop(left);
    drop(right);
}

/// An instruction.
#[derive(Drop)]
pub struct Instr {
    /// The line of the instruction's first token.
    pub line: u32,
    /// The name of its result; none for a `store`, or a call of `void`, without a written name.
    pub result: Option<Name>,
    /// What it does.
    pub op: Op,
}

/// The instructions of a block in order, between its phis and its terminator. Contracts see a list.
#[derive(Drop)]
pub struct Instrs {
    instrs: Vec<Instr>,
}

impl Model for Instrs {
    ghost use Rattle.std.specs.Prelude.{List};
    ghost use Rattle.std.specs.Coded.{coded_list};
    ghost use Rattle.ir_syntax.specs.declared.instr.Instr.{Instr};
    ghost use Rattle.ir_syntax.specs.contracts.instr.Instr as instr;

    ghost Value = { List Instr };

    ghost coded = { coded_list instr.the_row.coded };

    ghost view = { λ i. i.instrs.items };
}

impl Instrs {
    /// These instructions, in their order, with no room for more.
    pub fn from_vec(mut instrs: Vec<Instr>) -> Instrs
        ensures { result ≡ instrs.items }
    {
        instrs.shrink_to_fit();
        Instrs { instrs }
    }

    /// The instructions in order.
    pub fn as_slice(&self) -> &[Instr]
        ensures { result.now ≡ self.now }
    {
        self.instrs.as_slice()
    }

    /// The instructions in order, to be taken apart.
    pub fn into_vec(self) -> Vec<Instr>
        ensures { result.items ≡ self }
    {
        self.instrs
    }
}
