//! Modules that passed the checks.
ghost use Rattle.std.specs.Prelude.{◌≡◌, IfOk};
ghost use Rattle.ir_check.specs.Checks.{IsChecked, IsCheckedFrom, KeepsRules};

use ir_prune::prune;
use ir_syntax::Module;
use ir_unname::without_type_names;
use std::alloc::{AllocError, Global};
use std::marker::Model;

/// A module that passed the checks. Contracts see the module.
pub struct Checked {
    module: Module,
}

impl Drop for Checked {
    fn drop(self) {
        let Checked { module } = self;
        drop(module);
    }
}

impl Model for Checked {
    ghost use Rattle.ir_check.specs.Checks.{IsChecked};
    ghost use Rattle.ir_syntax.specs.declared.module.Module.{Module};
    ghost use Rattle.ir_syntax.specs.contracts.module.Module as row;

    ghost Value = { Module };

    ghost coded = { row.the_row.coded };

    ghost view = { λ c. c.module };

    ghost invariant = { λ c. IsChecked c.module };
}

impl Checked {
    /// What the checks make of a module that keeps the rules.
    ///
    /// # Errors
    ///
    /// [`AllocError`].
    pub(crate) fn new(alloc: Global, m: Module) -> Result<Checked, AllocError>
        requires { KeepsRules m }
        ensures { IfOk result (IsCheckedFrom m) }
    {
        let module = without_type_names(alloc, prune(alloc, m)?)?;
        Ok(Checked { module })
    }

    /// The module.
    pub fn module(&self) -> &Module
        ensures value { result.now ≡ self.now }
        ensures checked { IsChecked result.now }
    {
        &self.module
    }
}
