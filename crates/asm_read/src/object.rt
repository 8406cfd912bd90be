//! What an assembled text holds.
ghost use Rattle.std.specs.Prelude.{◌≡◌};
ghost use Rattle.rv_isa.specs.Relocation.{AreLines};

use rv_isa::{Line, SymName};
use std::marker::Model;

/// A section of an object.
#[derive(Clone, Copy, PartialEq, Eq)]
pub enum Section {
    /// Instructions.
    Text,
}

/// A symbol that an object defines.
#[derive(Drop)]
pub struct ObjectSymbol {
    /// Its name.
    pub name: SymName,
    /// Whether other objects see it.
    pub global: bool,
    /// The section that it lies in.
    pub section: Section,
    /// Its distance from the section's beginning, in bytes.
    pub offset: i128,
}

/// The instructions of an object in the order of its text, each one that has a word. Contracts see
/// a list.
#[derive(Drop)]
pub struct Words {
    words: Vec<Line>,
}

impl Model for Words {
    ghost use Rattle.std.specs.Prelude.{List};
    ghost use Rattle.std.specs.Coded.{coded_list};
    ghost use Rattle.rv_isa.specs.Relocation.{AreLines};
    ghost use Rattle.rv_isa.specs.declared.inst.Line.{Line};
    ghost use Rattle.rv_isa.specs.contracts.inst.Line as line;

    ghost Value = { List Line };

    ghost coded = { coded_list line.the_row.coded };

    ghost view = { λ w. w.words.items };

    ghost invariant = { λ w. AreLines w.words.items };
}

impl Words {
    /// These instructions, in their order.
    pub fn from_vec(words: Vec<Line>) -> Words
        requires { AreLines words.items }
        ensures { result ≡ words.items }
    {
        Words { words }
    }

    /// The instructions in order.
    pub fn as_slice(&self) -> &[Line]
        ensures lines { AreLines self.now }
        ensures value { result.now ≡ self.now }
    {
        self.words.as_slice()
    }
}

/// The symbols of an object in the order of its text. Contracts see a list.
#[derive(Drop)]
pub struct Symbols {
    symbols: Vec<ObjectSymbol>,
}

impl Model for Symbols {
    ghost use Rattle.std.specs.Prelude.{List};
    ghost use Rattle.std.specs.Coded.{coded_list};
    ghost use Rattle.asm_read.specs.declared.object.ObjectSymbol.{ObjectSymbol};
    ghost use Rattle.asm_read.specs.contracts.object.ObjectSymbol as symbol;

    ghost Value = { List ObjectSymbol };

    ghost coded = { coded_list symbol.the_row.coded };

    ghost view = { λ s. s.symbols.items };
}

impl Symbols {
    /// These symbols, in their order.
    pub fn from_vec(symbols: Vec<ObjectSymbol>) -> Symbols
        ensures { result ≡ symbols.items }
    {
        Symbols { symbols }
    }

    /// The symbols in order.
    pub fn as_slice(&self) -> &[ObjectSymbol]
        ensures { result.now ≡ self.now }
    {
        self.symbols.as_slice()
    }
}

/// The names that an object's operands mention, in the order of its text. Contracts see a list.
#[derive(Drop)]
pub struct Needs {
    names: Vec<SymName>,
}

impl Model for Needs {
    ghost use Rattle.std.specs.Prelude.{List, ℕ};

    ghost Value = { List (List ℕ) };

    ghost view = { λ n. n.names.items };
}

impl Needs {
    /// These names, in their order.
    pub fn from_vec(names: Vec<SymName>) -> Needs
        ensures { result ≡ names.items }
    {
        Needs { names }
    }

    /// The names in order.
    pub fn as_slice(&self) -> &[SymName]
        ensures { result.now ≡ self.now }
    {
        self.names.as_slice()
    }
}

/// An assembled text: what it holds and what it needs.
#[derive(Drop)]
pub struct Object {
    /// Its instructions.
    pub words: Words,
    /// The symbols that it defines.
    pub symbols: Symbols,
    /// The symbols that its operands mention.
    pub needs: Needs,
}
