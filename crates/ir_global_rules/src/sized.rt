//! Whether the types that globals and aliases write have sizes.
ghost use Rattle.std.specs.Prelude.{◌≡◌};
ghost use Rattle.std.specs.List.{list_all};
ghost use Rattle.ir_global_rules.specs.Sized.{base_sized, gep_sized, init_sized, is_alias_sized, is_global_sized, maybe_init_sized, maybe_sized, maybe_types_sized, operand_sized, parts_sized};
ghost use Rattle.ir_sizes.specs.Sized.{is_sized};
ghost use Rattle.ir_syntax.specs.Inits.{init_of, inits_in};

use ir_sizes::NamedTypes;
use ir_syntax::{
    Alias, AliasBase, GepParts, Global as GlobalVariable, Init, InitTree, InitTreeList, Operand,
    TyText, TypeTexts, TypedLiteral,
};

fn all_sized(types: &NamedTypes<'_>, written: &[TyText]) -> bool
    ensures { result ≡ list_all (is_sized types.now) written.now }
{
    written.iter().all(|ty| types.is_sized(ty))
}

fn indices_sized(types: &NamedTypes<'_>, indices: &[TypedLiteral]) -> bool
    ensures { result ≡ list_all (λ i. is_sized types.now i.ty) indices.now }
{
    indices.iter().all(|index| types.is_sized(&index.ty))
}

fn gep_sized(types: &NamedTypes<'_>, gep: &GepParts) -> bool
    ensures { result ≡ gep_sized types.now gep.now }
{
    types.is_sized(&gep.ty) & indices_sized(types, gep.indices.as_slice())
}

fn operand_sized(types: &NamedTypes<'_>, operand: &Operand) -> bool
    ensures { result ≡ operand_sized types.now operand.now }
{
    match operand {
        Operand::Gep(gep) => gep_sized(types, gep.parts()),
        Operand::Local(_)
        | Operand::Global(_)
        | Operand::Int(_)
        | Operand::True
        | Operand::False
        | Operand::Null
        | Operand::Undef
        | Operand::Poison => true,
    }
}

#[cycle(inits)]
fn init_sized(types: &NamedTypes<'_>, tree: &InitTree) -> bool
    ensures { result ≡ init_sized types.now (init_of tree.now) }
{
    match tree {
        InitTree::Value(operand) => operand_sized(types, operand),
        InitTree::Zero | InitTree::Bytes(_) => true,
        InitTree::Array(parts) | InitTree::Struct(parts) | InitTree::Packed(parts) => {
            parts_sized(types, parts)
        }
    }
}

#[cycle(inits)]
fn parts_sized(types: &NamedTypes<'_>, parts: &InitTreeList) -> bool
    ensures { result ≡ parts_sized types.now (inits_in parts.now) }
{
    let mut rest = parts;
    while let InitTreeList::More(node) = rest {
        if !(types.is_sized(&node.ty) & init_sized(types, &node.init)) {
            return false;
        }
        rest = &node.tail;
    }
    true
}

fn maybe_init_sized(types: &NamedTypes<'_>, init: &Option<Init>) -> bool
    ensures { result ≡ maybe_init_sized types.now init.now }
{
    match init {
        Some(init) => init_sized(types, init.tree()),
        None => true,
    }
}

/// Whether the types have sizes that a global variable writes.
pub(crate) fn is_global_sized(types: &NamedTypes<'_>, global: &GlobalVariable) -> bool
    ensures { result ≡ is_global_sized types.now global.now }
{
    types.is_sized(&global.ty) & maybe_init_sized(types, &global.init)
}

fn maybe_sized(types: &NamedTypes<'_>, ty: &Option<TyText>) -> bool
    ensures { result ≡ maybe_sized types.now ty.now }
{
    match ty {
        Some(ty) => types.is_sized(ty),
        None => true,
    }
}

fn maybe_types_sized(types: &NamedTypes<'_>, written: &Option<TypeTexts>) -> bool
    ensures { result ≡ maybe_types_sized types.now written.now }
{
    match written {
        Some(written) => all_sized(types, written.as_slice()),
        None => true,
    }
}

fn base_sized(types: &NamedTypes<'_>, base: &AliasBase) -> bool
    ensures { result ≡ base_sized types.now base.now }
{
    match base {
        AliasBase::Gep(gep) => gep_sized(types, gep.parts()),
        AliasBase::Global(_) => true,
    }
}

/// Whether the types have sizes that an alias writes.
pub(crate) fn is_alias_sized(types: &NamedTypes<'_>, alias: &Alias) -> bool
    ensures { result ≡ is_alias_sized types.now alias.now }
{
    maybe_sized(types, &alias.result)
        & (maybe_types_sized(types, &alias.params) & base_sized(types, &alias.base))
}
