//! Whether initialisers are of their types (LangRef, "Global Variables" and "Complex Constants").
ghost use Rattle.std.specs.Prelude.{◌≡◌};
ghost use Rattle.ir_global_rules.specs.Fits.{bytes_fit, constant_fits, elements_fit, fields_fit, fits, has_bits, init_fits, is_int, is_ptr};
ghost use Rattle.ir_syntax.specs.Inits.{init_of, inits_in};
ghost use Rattle.ir_syntax.specs.Types.{tree_of, trees_in};

use crate::same::same_type;
use ir_sizes::NamedTypes;
use ir_syntax::{
    Global as GlobalVariable, InitTree, InitTreeList, Operand, TypeTree, TypeTreeList,
};

fn is_int(ty: &TypeTree) -> bool
    ensures { result ≡ is_int (tree_of ty.now) }
{
    matches!(ty, TypeTree::Int { .. })
}

fn has_bits(width: u8, ty: &TypeTree) -> bool
    ensures { result ≡ has_bits width (tree_of ty.now) }
{
    match ty {
        TypeTree::Int { bits } => *bits == width,
        _ => false,
    }
}

fn is_ptr(ty: &TypeTree) -> bool
    ensures { result ≡ is_ptr (tree_of ty.now) }
{
    matches!(ty, TypeTree::Ptr)
}

fn constant_fits(ty: &TypeTree, operand: &Operand) -> bool
    ensures { result ≡ constant_fits (tree_of ty.now) operand.now }
{
    match operand {
        Operand::Local(_) => false,
        Operand::Global(_) | Operand::Null | Operand::Gep(_) => is_ptr(ty),
        Operand::Int(_) => is_int(ty),
        Operand::True | Operand::False => has_bits(1, ty),
        Operand::Undef | Operand::Poison => true,
    }
}

fn bytes_fit(ty: &TypeTree, count: usize) -> bool
    ensures { result ≡ bytes_fit (tree_of ty.now) count }
{
    match ty {
        TypeTree::Array { len, elem } => (*len as usize == count) & has_bits(8, elem),
        _ => false,
    }
}

/// Whether an initialiser is of a type.
#[cycle(fits)]
pub(crate) fn fits<'a>(types: &NamedTypes<'a>, ty: &'a TypeTree, init: &'a InitTree) -> bool
    ensures { result ≡ fits types.now (tree_of ty.now) (init_of init.now) }
{
    match init {
        InitTree::Value(operand) => constant_fits(ty, operand),
        InitTree::Zero => true,
        InitTree::Bytes(text) => bytes_fit(ty, text.as_slice().len()),
        InitTree::Array(parts) => match ty {
            TypeTree::Array { len, elem } => elements_fit(types, elem, *len, parts),
            _ => false,
        },
        InitTree::Struct(parts) => match types.written_out(ty) {
            Some(
                TypeTree::Struct {
                    packed: false,
                    fields,
                },
            ) => fields_fit(types, fields, parts),
            _ => false,
        },
        InitTree::Packed(parts) => match types.written_out(ty) {
            Some(
                TypeTree::Struct {
                    packed: true,
                    fields,
                },
            ) => fields_fit(types, fields, parts),
            _ => false,
        },
    }
}

#[cycle(fits)]
fn elements_fit<'a>(
    types: &NamedTypes<'a>,
    elem: &'a TypeTree,
    count: u32,
    parts: &'a InitTreeList,
) -> bool
    ensures { result ≡ elements_fit types.now (tree_of elem.now) count (inits_in parts.now) }
{
    let mut left = count;
    let mut rest = parts;
    while let InitTreeList::More(node) = rest {
        if left == 0 {
            return false;
        }
        if !(same_type(types, elem, node.ty.tree()) && fits(types, elem, &node.init)) {
            return false;
        }
        left -= 1;
        rest = &node.tail;
    }
    left == 0
}

#[cycle(fits)]
fn fields_fit<'a>(types: &NamedTypes<'a>, fields: &'a TypeTreeList, parts: &'a InitTreeList) -> bool
    ensures { result ≡ fields_fit types.now (trees_in fields.now) (inits_in parts.now) }
{
    let mut left = fields;
    let mut rest = parts;
    while let InitTreeList::More(node) = rest {
        match left {
            TypeTreeList::End => return false,
            TypeTreeList::More(field) => {
                if !(same_type(types, &field.ty, node.ty.tree())
                    && fits(types, &field.ty, &node.init))
                {
                    return false;
                }
                left = &field.tail;
            }
        }
        rest = &node.tail;
    }
    matches!(left, TypeTreeList::End)
}

/// Whether the initialiser of a global variable, if it has one, is of its type.
pub(crate) fn init_fits<'a>(types: &NamedTypes<'a>, global: &'a GlobalVariable) -> bool
    ensures { result ≡ init_fits types.now global.now }
{
    match &global.init {
        Some(init) => fits(types, global.ty.tree(), init.tree()),
        None => true,
    }
}
