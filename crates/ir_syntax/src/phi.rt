//! Phi instructions (LangRef, "'phi' Instruction").
ghost use Rattle.std.specs.Prelude.{◌≡◌};

use crate::operand::Operand;
use crate::ty::TyText;
use ir_ident::{Name, NameUse};
use std::marker::Model;

/// The value of a phi where one block comes before.
pub struct PhiEntry {
    /// The value.
    pub value: Operand,
    /// The block.
    pub block: NameUse,
}

impl Drop for PhiEntry {
    fn drop(self) {
        let PhiEntry { value, block } = self;
        drop(value);
        drop(block);
    }
}

/// The entries of a phi in order. Contracts see a list.
#[derive(Drop)]
pub struct PhiEntries {
    entries: Vec<PhiEntry>,
}

impl Model for PhiEntries {
    ghost use Rattle.std.specs.Prelude.{List};
    ghost use Rattle.std.specs.Coded.{coded_list};
    ghost use Rattle.ir_syntax.specs.declared.phi.PhiEntry.{PhiEntry};
    ghost use Rattle.ir_syntax.specs.contracts.phi.PhiEntry as phi_entry;

    ghost Value = { List PhiEntry };

    ghost coded = { coded_list phi_entry.the_row.coded };

    ghost view = { λ e. e.entries.items };
}

impl PhiEntries {
    /// These entries, in their order, with no room for more.
    pub fn from_vec(mut entries: Vec<PhiEntry>) -> PhiEntries
        ensures { result ≡ entries.items }
    {
        entries.shrink_to_fit();
        PhiEntries { entries }
    }

    /// The entries in order.
    pub fn as_slice(&self) -> &[PhiEntry]
        ensures { result.now ≡ self.now }
    {
        self.entries.as_slice()
    }

    /// The entries in order, to be taken apart.
    pub fn into_vec(self) -> Vec<PhiEntry>
        ensures { result.items ≡ self }
    {
        self.entries
    }
}

/// A phi.
#[derive(Drop)]
pub struct Phi {
    /// The line of the phi's first token.
    pub line: u32,
    /// The name of its result.
    pub result: Name,
    /// The type of its value.
    pub ty: TyText,
    /// Its values by the blocks that come before.
    pub entries: PhiEntries,
}

/// The phis of a block in order. Contracts see a list.
#[derive(Drop)]
pub struct Phis {
    phis: Vec<Phi>,
}

impl Model for Phis {
    ghost use Rattle.std.specs.Prelude.{List};
    ghost use Rattle.std.specs.Coded.{coded_list};
    ghost use Rattle.ir_syntax.specs.declared.phi.Phi.{Phi};
    ghost use Rattle.ir_syntax.specs.contracts.phi.Phi as phi;

    ghost Value = { List Phi };

    ghost coded = { coded_list phi.the_row.coded };

    ghost view = { λ p. p.phis.items };
}

impl Phis {
    /// These phis, in their order, with no room for more.
    pub fn from_vec(mut phis: Vec<Phi>) -> Phis
        ensures { result ≡ phis.items }
    {
        phis.shrink_to_fit();
        Phis { phis }
    }

    /// The phis in order.
    pub fn as_slice(&self) -> &[Phi]
        ensures { result.now ≡ self.now }
    {
        self.phis.as_slice()
    }

    /// The phis in order, to be taken apart.
    pub fn into_vec(self) -> Vec<Phi>
        ensures { result.items ≡ self }
    {
        self.phis
    }
}
