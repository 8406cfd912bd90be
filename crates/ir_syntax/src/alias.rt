//! Aliases (LangRef, "Aliases").
ghost use Rattle.std.specs.Prelude.{◌≡◌};

use crate::linkage::{Linkage, Visibility};
use crate::operand::ConstantGep;
use crate::ty::{TyText, TypeTexts};
use ir_ident::{Name, NameUse};
use std::marker::Model;

/// What an alias stands for.
pub enum AliasBase {
    /// A global name.
    Global(NameUse),
    /// An address at constant offsets from a global name.
    Gep(ConstantGep),
}

impl Drop for AliasBase {
    fn drop(self) {
        match self {
            AliasBase::Global(used) => drop(used),
            AliasBase::Gep(gep) => drop(gep),
        }
    }
}

/// A second name of an address.
pub struct Alias {
    /// The line of its first token.
    pub line: u32,
    /// Its place among all items of the module, counted from 0.
    pub place: u32,
    /// Its name.
    pub name: Name,
    /// Who sees it.
    pub linkage: Linkage,
    /// How it is seen from outside.
    pub visibility: Visibility,
    /// Its value type, or the type that the function returns; none for `void`.
    pub result: Option<TyText>,
    /// The types of the function's parameters; none where the type isn't a function's.
    pub params: Option<TypeTexts>,
    /// What it stands for.
    pub base: AliasBase,
}

impl Drop for Alias {
    fn drop(self) {
        let Alias {
            name,
            result,
            params,
            base,
            line: _,
            place: _,
            linkage: _,
            visibility: _,
        } = self;
        drop(name);
        drop(result);
        drop(params);
        drop(base);
    }
}

/// The aliases of a module in the order of the text. Contracts see a list.
#[derive(Drop)]
pub struct Aliases {
    aliases: Vec<Alias>,
}

impl Model for Aliases {
    ghost use Rattle.std.specs.Prelude.{List};
    ghost use Rattle.std.specs.Coded.{coded_list};
    ghost use Rattle.ir_syntax.specs.declared.alias.Alias.{Alias};
    ghost use Rattle.ir_syntax.specs.contracts.alias.Alias as alias;

    ghost Value = { List Alias };

    ghost coded = { coded_list alias.the_row.coded };

    ghost view = { λ a. a.aliases.items };
}

impl Aliases {
    /// These aliases, in their order, with no room for more.
    pub fn from_vec(mut aliases: Vec<Alias>) -> Aliases
        ensures { result ≡ aliases.items }
    {
        aliases.shrink_to_fit();
        Aliases { aliases }
    }

    /// The aliases in order.
    pub fn as_slice(&self) -> &[Alias]
        ensures { result.now ≡ self.now }
    {
        self.aliases.as_slice()
    }

    /// The aliases in order, to be taken apart.
    pub fn into_vec(self) -> Vec<Alias>
        ensures { result.items ≡ self }
    {
        self.aliases
    }
}
