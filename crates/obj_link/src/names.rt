//! Which objects define which names.
ghost use Rattle.std.specs.Prelude.{◌≡◌, not, ◌∷◌, ◌≤◌, ◌&&◌, ◌||◌, List, [], length, take, drop, map, filter, find, option_map, slice_get};
ghost use Rattle.std.specs.Option.{option_copied};
ghost use Rattle.std.specs.List.{flat_map};
ghost use Rattle.std.specs.Str.{bytes_eq};
ghost use Rattle.obj_link.specs.Names.{defines, defines_global, is_global, duplicates_of, duplicates, undefined_of, undefined};

use crate::inputs::Inputs;
use asm_read::{Object, ObjectSymbol};
use rv_isa::SymName;

/// The first global name that an object before also defines as a global one.
pub fn first_duplicate<'a>(inputs: &Inputs<'a>) -> Option<&'a [u8]>
    ensures { option_copied result ≡ slice_get (duplicates inputs.now) 0 }
{
    for index in 0..inputs.len() {
        if let Some(symbol) = first_duplicate_of(inputs, index, inputs.get(index)) {
            return Some(symbol.name.as_bytes());
        }
    }
    None
}

/// The first need that neither its object nor a global symbol defines.
pub fn first_undefined<'a>(inputs: &Inputs<'a>) -> Option<&'a [u8]>
    ensures { option_copied result ≡ slice_get (undefined inputs.now) 0 }
{
    for index in 0..inputs.len() {
        if let Some(name) = first_undefined_of(inputs, inputs.get(index)) {
            return Some(name.as_bytes());
        }
    }
    None
}

fn first_duplicate_of<'a>(
    inputs: &Inputs<'a>,
    index: usize,
    object: &'a Object,
) -> Option<&'a ObjectSymbol>
    requires { index ≤ length inputs.now }
    ensures { option_copied result
        ≡ find (λ s. s.global && is_global (take index inputs.now) s.name) object.now.symbols }
{
    object.symbols.as_slice().iter().find(|symbol| symbol.global
        && is_global_before(inputs, index, symbol.name.as_bytes()))
}

fn first_undefined_of<'a>(inputs: &Inputs<'a>, object: &'a Object) -> Option<&'a SymName>
    ensures { option_copied result
        ≡ find (λ name. not (defines object.now name || is_global inputs.now name)) object.now.needs }
{
    object
        .needs
        .as_slice()
        .iter()
        .find(|name| !is_defined(inputs, object, name.as_bytes()))
}

fn is_defined(inputs: &Inputs<'_>, object: &Object, name: &[u8]) -> bool
    ensures { result ≡ (defines object.now name.now || is_global inputs.now name.now) }
{
    defines(object, name) || is_global_before(inputs, inputs.len(), name)
}

/// Whether an object before this place defines the name as a global one.
fn is_global_before(inputs: &Inputs<'_>, end: usize, name: &[u8]) -> bool
    requires { end ≤ length inputs.now }
    ensures { result ≡ is_global (take end inputs.now) name.now }
{
    for index in 0..end {
        if defines_global(inputs.get(index), name) {
            return true;
        }
    }
    false
}

fn defines_global(object: &Object, name: &[u8]) -> bool
    ensures { result ≡ defines_global object.now name.now }
{
    object
        .symbols
        .as_slice()
        .iter()
        .any(|symbol| symbol.global && symbol.name.as_bytes() == name)
}

fn defines(object: &Object, name: &[u8]) -> bool
    ensures { result ≡ defines object.now name.now }
{
    own_symbol(object.symbols.as_slice(), name).is_some()
}

/// The first of these symbols that has this name.
pub fn own_symbol<'a>(symbols: &'a [ObjectSymbol], name: &[u8]) -> Option<&'a ObjectSymbol>
    ensures { option_copied result ≡ find (λ s. bytes_eq s.name name.now) symbols.now }
{
    symbols.iter().find(|symbol| symbol.name.as_bytes() == name)
}
