//! The syntax tree of a module of textual LLVM IR.
//!
//! Each list is a small type that contracts see as a list, and a type or an initialiser one that they see as
//! a tree. Each item keeps the line of its first token, and each name that is used the line of its own,
//! counted from 1.
#![tactic(auto)]

mod alias;
mod block;
mod bytes;
mod function;
mod global;
mod init;
mod init_tree;
mod instr;
mod lines;
mod linkage;
mod literal;
mod module;
mod operand;
mod phi;
mod refusal;
mod term;
mod tree;
mod ty;
mod type_def;
mod values;

pub use alias::{Alias, AliasBase, Aliases};
pub use block::{Block, Blocks};
pub use bytes::Bytes;
pub use function::{Function, Functions, Param, Params};
pub use global::{Global, Globals};
pub use init::{Init, TypedInit, TypedInits};
pub use init_tree::{InitNode, InitTree, InitTreeList};
pub use instr::{Arg, Args, CastOp, Instr, Instrs, Op};
pub use lines::push_line_if;
pub use linkage::{Linkage, Visibility};
pub use literal::Literal;
pub use module::Module;
pub use operand::{
    ConstantGep, GepParts, Operand, TypedLiteral, TypedLiterals, TypedOperand, TypedOperands,
};
pub use phi::{Phi, PhiEntries, PhiEntry, Phis};
pub use refusal::{Count, Refusal};
pub use term::{Case, Cases, Term};
pub use tree::{TypeNode, TypeTree, TypeTreeList};
pub use ty::{TyText, TypeTexts};
pub use type_def::{TypeDef, TypeDefs};
pub use values::value_count;
