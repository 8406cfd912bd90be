//! Named types (LangRef, "Structure Type").
ghost use Rattle.std.specs.Prelude.{◌≡◌};

use crate::ty::TyText;
use ir_ident::Name;
use std::marker::Model;

/// The definition of a type's name.
pub struct TypeDef {
    /// The line of the definition's first token.
    pub line: u32,
    /// Its place among all items of the module, counted from 0.
    pub place: u32,
    /// The name.
    pub name: Name,
    /// The struct that it stands for.
    pub body: TyText,
}

impl Drop for TypeDef {
    fn drop(self) {
        let TypeDef {
            name,
            body,
            line: _,
            place: _,
        } = self;
        drop(name);
        drop(body);
    }
}

/// The named types of a module in the order of the text. Contracts see a list.
#[derive(Drop)]
pub struct TypeDefs {
    types: Vec<TypeDef>,
}

impl Model for TypeDefs {
    ghost use Rattle.std.specs.Prelude.{List};
    ghost use Rattle.std.specs.Coded.{coded_list};
    ghost use Rattle.ir_syntax.specs.declared.type_def.TypeDef.{TypeDef};
    ghost use Rattle.ir_syntax.specs.contracts.type_def.TypeDef as type_def;

    ghost Value = { List TypeDef };

    ghost coded = { coded_list type_def.the_row.coded };

    ghost view = { λ t. t.types.items };
}

impl TypeDefs {
    /// These definitions, in their order, with no room for more.
    pub fn from_vec(mut types: Vec<TypeDef>) -> TypeDefs
        ensures { result ≡ types.items }
    {
        types.shrink_to_fit();
        TypeDefs { types }
    }

    /// The definitions in order.
    pub fn as_slice(&self) -> &[TypeDef]
        ensures { result.now ≡ self.now }
    {
        self.types.as_slice()
    }
}
