//! A module (LangRef, "Module Structure").
use crate::alias::Aliases;
use crate::function::Functions;
use crate::global::Globals;
use crate::type_def::TypeDefs;

/// A module: its items in the order of the text, each kind in a list of its own.
pub struct Module {
    /// The named types.
    pub types: TypeDefs,
    /// The global variables, defined and declared.
    pub globals: Globals,
    /// The functions, defined and declared.
    pub functions: Functions,
    /// The aliases.
    pub aliases: Aliases,
}

impl Drop for Module {
    fn drop(self) {
        let Module {
            types,
            globals,
            functions,
            aliases,
        } = self;
        drop(types);
        drop(globals);
        drop(functions);
        drop(aliases);
    }
}
