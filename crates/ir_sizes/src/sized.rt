//! Types that have no size (LangRef, "Structure Type" and "Data Layout").
ghost use Rattle.std.specs.Prelude.{◌≡◌, IfOk, IfSome, List};
ghost use Rattle.ir_sizes.specs.Extents.{IsExtent};
ghost use Rattle.ir_sizes.specs.Measured.{AreExtents, IsTable, known_by, measured};
ghost use Rattle.ir_sizes.specs.Sized.{is_sized, level_limit, unsized_lines};
ghost use Rattle.ir_syntax.specs.Types.{tree_of};
ghost use Rattle.ir_syntax.specs.declared.type_def.TypeDef.{TypeDef};

use crate::extent::Extent;
use crate::measured::{LEVEL_LIMIT, measured};
use crate::rounds::table_of;
use crate::table::Table;
use ir_syntax::{TyText, TypeDefs, TypeTree, push_line_if};
use std::alloc::{AllocError, Global};

/// The lines, from 1, of the definitions of types that have no size: a type that stands in itself, one in which arrays
/// and structs stand more than 64 levels inside each other, one that takes more than 4,294,967,295 bytes or has a part
/// that does, or one of more than 65,536 places.
pub fn unsized_lines(alloc: Global, types: &TypeDefs) -> Result<Vec<u32>, AllocError>
    ensures { IfOk result (λ lines. lines.items ≡ unsized_lines types.now) }
{
    let defs = types.as_slice();
    let table = table_of(alloc, defs)?;
    let mut lines = Vec::new(alloc);
    for def in defs {
        push_line_if(&mut lines, !is_sized(&table, &def.body), def.line)?;
    }
    Ok(lines)
}

/// Whether a type has a size.
fn is_sized(table: &Table<'_>, ty: &TyText) -> bool
    requires { AreExtents table.now.extents.items }
    ensures { (defs : List TypeDef) → IsTable defs level_limit table.now → result ≡ is_sized defs ty.now }
{
    extent_of(table, ty).is_some()
}

/// The extent of a type, where it has a size by what a table knows of named types.
pub fn extent_of(table: &Table<'_>, ty: &TyText) -> Option<Extent>
    requires { AreExtents table.now.extents.items }
    ensures value { result ≡ measured (known_by table.now) level_limit ty.now }
    ensures measured { IfSome result IsExtent }
{
    tree_extent_of(table, ty.tree())
}

/// The extent of a type as a tree, where it has a size by what a table knows of named types.
pub fn tree_extent_of(table: &Table<'_>, tree: &TypeTree) -> Option<Extent>
    requires { AreExtents table.now.extents.items }
    ensures value { result ≡ measured (known_by table.now) level_limit (tree_of tree.now) }
    ensures measured { IfSome result IsExtent }
{
    measured(table, LEVEL_LIMIT, tree)
}
