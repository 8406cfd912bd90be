//! The objects of a link as one list.
ghost use Rattle.std.specs.Prelude.{◌≡◌, ◌∷◌, ◌<◌, Some, length, slice_get};

use asm_read::Object;
use std::marker::Model;

/// The runtime and then the objects that were given. Contracts see a list.
#[derive(Drop)]
pub struct Inputs<'a> {
    runtime: &'a Object,
    objects: &'a [Object],
}

impl<'a> Model for Inputs<'a> {
    ghost use Rattle.std.specs.Prelude.{List, ◌∷◌};
    ghost use Rattle.std.specs.Coded.{coded_list};
    ghost use Rattle.asm_read.specs.declared.object.Object.{Object};
    ghost use Rattle.asm_read.specs.contracts.object.Object as object;

    ghost Value = { List Object };

    ghost coded = { coded_list object.the_row.coded };

    ghost view = { λ i. i.runtime.now ∷ i.objects.now };
}

impl<'a> Inputs<'a> {
    /// The runtime and then these objects.
    pub fn new(runtime: &'a Object, objects: &'a [Object]) -> Inputs<'a>
        ensures { result ≡ runtime.now ∷ objects.now }
    {
        Inputs { runtime, objects }
    }

    /// How many there are.
    pub fn len(&self) -> usize
        ensures { result ≡ length self.now }
    {
        self.objects.len() + 1
    }

    /// The one at this place, the runtime at 0.
    pub fn get(&self, index: usize) -> &'a Object
        requires { index < length self.now }
        ensures { slice_get self.now index ≡ Some result.now }
    {
        if index == 0 {
            self.runtime
        } else {
            &self.objects[index - 1]
        }
    }
}
