//! Names that no item of a module may have.
ghost use Rattle.std.specs.Prelude.{◌≡◌, find, nat_eq, option_copied};
ghost use Rattle.std.specs.List.{starts_with};
ghost use Rattle.ir_ident.specs.Names.{name_bytes};
ghost use Rattle.ir_naming.specs.Reserved.{begins_digit, is_label_name, is_misnamed, is_reserved};

use crate::item_name::ItemName;
use crate::symbol::bytes_of;

fn begins_with(prefix: &[u8], name: &[u8]) -> bool
    ensures { result ≡ starts_with nat_eq name.now prefix.now }
{
    name.starts_with(prefix)
}

fn begins_digit(bytes: &[u8]) -> bool
    ensures { result ≡ begins_digit bytes.now }
{
    match bytes {
        [first, ..] => first.is_ascii_digit(),
        [] => false,
    }
}

/// Whether a name begins as the labels of blocks do in the assembly, with `.LBB` and a digit: no function, variable
/// or alias may have it, defined or declared.
fn is_label_name(name: &[u8]) -> bool
    ensures { result ≡ is_label_name name.now }
{
    match name {
        [b'.', b'L', b'B', b'B', rest @ ..] => begins_digit(rest),
        _ => false,
    }
}

/// Whether nothing may be defined by a name: `_start`, one that begins with `__host_` or `llvm.`, or a label's.
fn is_reserved(name: &[u8]) -> bool
    ensures { result ≡ is_reserved name.now }
{
    (name == b"_start".as_slice())
        | begins_with(b"__host_", name)
        | begins_with(b"llvm.", name)
        | is_label_name(name)
}

/// The first of these items that has a name which it may not have: a definition a reserved one, a declaration that of a
/// label.
pub fn first_misnamed<'i, 'a>(items: &'i [ItemName<'a>]) -> Option<&'i ItemName<'a>>
    ensures { option_copied result ≡ find is_misnamed items.now }
{
    items.iter().find(|item| is_misnamed(item))
}

fn is_misnamed(item: &ItemName<'_>) -> bool
    ensures { result ≡ is_misnamed item.now }
{
    let name = bytes_of(item.name);
    if item.defined {
        is_reserved(name)
    } else {
        is_label_name(name)
    }
}
