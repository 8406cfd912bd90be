//! Global variables (LangRef, "Global Variables").
ghost use Rattle.std.specs.Prelude.{◌≡◌};

use crate::init::Init;
use crate::linkage::{Linkage, Visibility};
use crate::ty::TyText;
use ir_ident::Name;
use std::marker::Model;

/// A global variable, defined or declared.
pub struct Global {
    /// The line of its first token.
    pub line: u32,
    /// Its place among all items of the module, counted from 0.
    pub place: u32,
    /// Its name.
    pub name: Name,
    /// Who sees it.
    pub linkage: Linkage,
    /// How it is seen from outside.
    pub visibility: Visibility,
    /// Whether nothing may be stored into it.
    pub constant: bool,
    /// The type of its value.
    pub ty: TyText,
    /// Its initialiser; none for a declaration.
    pub init: Option<Init>,
    /// Its alignment in bytes as written; none where none is.
    pub align: Option<u64>,
}

impl Drop for Global {
    fn drop(self) {
        let Global {
            name,
            ty,
            init,
            line: _,
            place: _,
            linkage: _,
            visibility: _,
            constant: _,
            align: _,
        } = self;
        drop(name);
        drop(ty);
        drop(init);
    }
}

/// The global variables of a module in the order of the text. Contracts see a list.
#[derive(Drop)]
pub struct Globals {
    globals: Vec<Global>,
}

impl Model for Globals {
    ghost use Rattle.std.specs.Prelude.{List};
    ghost use Rattle.std.specs.Coded.{coded_list};
    ghost use Rattle.ir_syntax.specs.declared.global.Global.{Global};
    ghost use Rattle.ir_syntax.specs.contracts.global.Global as global;

    ghost Value = { List Global };

    ghost coded = { coded_list global.the_row.coded };

    ghost view = { λ g. g.globals.items };
}

impl Globals {
    /// These variables, in their order, with no room for more.
    pub fn from_vec(mut globals: Vec<Global>) -> Globals
        ensures { result ≡ globals.items }
    {
        globals.shrink_to_fit();
        Globals { globals }
    }

    /// The variables in order.
    pub fn as_slice(&self) -> &[Global]
        ensures { result.now ≡ self.now }
    {
        self.globals.as_slice()
    }

    /// The variables in order, to be taken apart.
    pub fn into_vec(self) -> Vec<Global>
        ensures { result.items ≡ self }
    {
        self.globals
    }
}
