//! Initialisers.
ghost use Rattle.std.specs.Prelude.{◌≡◌, OnOk};
ghost use Rattle.ir_rewrite.specs.Inits.{rewritten_init, rewritten_parts};
ghost use Rattle.ir_syntax.specs.Inits.{init_of, inits_in};

use crate::rewrite::{Rewrite, Rewritten};
use ir_syntax::{Init, InitTree, InitTreeList};
use std::alloc::{AllocError, Global};
use std::mem;

impl<R: Rewrite> Rewritten<R> for Init {
    ghost rewritten = { rewritten_init };

    fn rewrite(&mut self, alloc: Global, by: &R, made: &mut u64) -> Result<(), AllocError> {
        let mut tree = mem::replace(self, Init::zero()).into_tree();
        rewrite_tree(alloc, by, made, &mut tree)?;
        drop(mem::replace(self, Init::from_tree(tree)));
        Ok(())
    }
}

/// Replaces these in an initialiser. It is at most 64 levels deep, as its text is.
#[cycle(rewriting)]
fn rewrite_tree<R: Rewrite>(
    alloc: Global,
    by: &R,
    made: &mut u64,
    tree: &mut InitTree,
) -> Result<(), AllocError>
    ensures { OnOk result (init_of tree.new ≡ rewritten_init (R.ty_of by.now) (R.gep_of by.now) (init_of tree.old)) }
{
    match tree {
        InitTree::Value(operand) => operand.rewrite(alloc, by, made),
        InitTree::Zero | InitTree::Bytes(_) => Ok(()),
        InitTree::Array(parts) => rewrite_parts(alloc, by, made, parts),
        InitTree::Struct(parts) => rewrite_parts(alloc, by, made, parts),
        InitTree::Packed(parts) => rewrite_parts(alloc, by, made, parts),
    }
}

/// Replaces these in each part of an initialiser. No part moves, since there may be millions: those that are done are in a
/// list with the last one in front, that is turned round once it is complete.
#[cycle(rewriting)]
fn rewrite_parts<R: Rewrite>(
    alloc: Global,
    by: &R,
    made: &mut u64,
    parts: &mut InitTreeList,
) -> Result<(), AllocError>
    ensures { OnOk result (inits_in parts.new ≡ rewritten_parts (R.ty_of by.now) (R.gep_of by.now) (inits_in parts.old)) }
{
    let mut done = InitTreeList::End;
    while let InitTreeList::More(node) = parts {
        by.ty(made, &mut node.ty)?;
        rewrite_tree(alloc, by, made, &mut node.init)?;
        let rest = mem::replace(&mut node.tail, done);
        done = mem::replace(parts, rest);
    }
    drop(mem::replace(parts, done.turned_round()));
    Ok(())
}
