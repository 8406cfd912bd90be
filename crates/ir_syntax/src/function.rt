//! Functions and their parameters (LangRef, "Functions").
ghost use Rattle.std.specs.Prelude.{◌≡◌};

use crate::block::Blocks;
use crate::linkage::{Linkage, Visibility};
use crate::ty::TyText;
use ir_ident::Name;
use std::marker::Model;

/// A parameter of a function.
#[derive(Drop)]
pub struct Param {
    /// The line of the parameter's first token.
    pub line: u32,
    /// Its type; none for `metadata`.
    pub ty: Option<TyText>,
    /// Its name.
    pub name: Name,
    /// The line of the name's token; where none is written, that of the parameter.
    pub name_line: u32,
}

/// The parameters of a function in order. Contracts see a list.
#[derive(Drop)]
pub struct Params {
    params: Vec<Param>,
}

impl Model for Params {
    ghost use Rattle.std.specs.Prelude.{List};
    ghost use Rattle.std.specs.Coded.{coded_list};
    ghost use Rattle.ir_syntax.specs.declared.function.Param.{Param};
    ghost use Rattle.ir_syntax.specs.contracts.function.Param as param;

    ghost Value = { List Param };

    ghost coded = { coded_list param.the_row.coded };

    ghost view = { λ p. p.params.items };
}

impl Params {
    /// These parameters, in their order, with no room for more.
    pub fn from_vec(mut params: Vec<Param>) -> Params
        ensures { result ≡ params.items }
    {
        params.shrink_to_fit();
        Params { params }
    }

    /// The parameters in order.
    pub fn as_slice(&self) -> &[Param]
        ensures { result.now ≡ self.now }
    {
        self.params.as_slice()
    }

    /// The parameters in order, to be taken apart.
    pub fn into_vec(self) -> Vec<Param>
        ensures { result.items ≡ self }
    {
        self.params
    }
}

/// A function, defined or declared.
#[derive(Drop)]
pub struct Function {
    /// The line of `define` or `declare`.
    pub line: u32,
    /// Its place among all items of the module, counted from 0.
    pub place: u32,
    /// The function's name.
    pub name: Name,
    /// The line of the name's token.
    pub name_line: u32,
    /// Who sees it.
    pub linkage: Linkage,
    /// How it is seen from outside.
    pub visibility: Visibility,
    /// The type of what it returns; none for `void`.
    pub result: Option<TyText>,
    /// Its parameters.
    pub params: Params,
    /// Its blocks; none for a declaration.
    pub blocks: Option<Blocks>,
}

/// The functions of a module in the order of the text. Contracts see a list.
#[derive(Drop)]
pub struct Functions {
    functions: Vec<Function>,
}

impl Model for Functions {
    ghost use Rattle.std.specs.Prelude.{List};
    ghost use Rattle.std.specs.Coded.{coded_list};
    ghost use Rattle.ir_syntax.specs.declared.function.Function.{Function};
    ghost use Rattle.ir_syntax.specs.contracts.function.Function as function;

    ghost Value = { List Function };

    ghost coded = { coded_list function.the_row.coded };

    ghost view = { λ f. f.functions.items };
}

impl Functions {
    /// These functions, in their order, with no room for more.
    pub fn from_vec(mut functions: Vec<Function>) -> Functions
        ensures { result ≡ functions.items }
    {
        functions.shrink_to_fit();
        Functions { functions }
    }

    /// The functions in order.
    pub fn as_slice(&self) -> &[Function]
        ensures { result.now ≡ self.now }
    {
        self.functions.as_slice()
    }

    /// The functions in order, to be taken apart.
    pub fn into_vec(self) -> Vec<Function>
        ensures { result.items ≡ self }
    {
        self.functions
    }
}
