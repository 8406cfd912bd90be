//! Global variables and aliases (LangRef, "Global Variables" and "Aliases").
ghost use Rattle.ir_attributes.specs.Attributes.{later};
ghost use Rattle.std.specs.Prelude.{◌≡◌};
ghost use Rattle.ir_globals.specs.Variables.{alias_bases, aliases, base_addresses, declared_variables, defined_here, external_definitions, global_entities, is_constant, local_definitions, pointer_bases, definitions, variable_tail, variable_tails, variables};
ghost use Rattle.ir_rules.specs.Reading.{Gives, GivesExactly};
ghost use Rattle.ir_rules.specs.Rules.{has};
ghost use Rattle.ir_words.specs.declared.class.Class.TheVariants as Classes;

use crate::defined::{Defined, GlobalDefinition, entity_of};
use crate::heads::{read_local_linkage, read_visibility};
use ir_attributes::{later, read_alignment, read_attachment};
use ir_calls::read_parameter_types;
use ir_entities::Entity;
use ir_inits::read_init;
use ir_rules::{Element, End, Fold, fold_each, word};
use ir_syntax::{AliasBase, Linkage};
use ir_types::{read_result_type, read_type};
use ir_values::{read_constant_gep, read_global_use};
use ir_words::{Class, Cursor};
use std::alloc::Global;

/// Reads one alignment, attachment or group of attributes after a variable; only an alignment is kept.
#[tactic(auto, unfolding(crate::specs::Variables::variable_tail_forms))]
fn read_variable_tail<'t>(rest: Cursor<'t>) -> Result<(Option<u64>, Cursor<'t>), End>
    ensures { GivesExactly (λ x. x) result (variable_tail.read rest.entry) }
{
    match rest.first() {
        Class::Comma => {
            let rest = rest.skip();
            match rest.first() {
                Class::Align => {
                    let (align, rest) = read_alignment(rest)?;
                    Ok((Some(align), rest))
                }
                _ => Ok((None, read_attachment(rest)?)),
            }
        }
        _ => Ok((None, word(rest, Class::Attr)?)),
    }
}

/// The reader of one of those.
#[derive(Drop)]
struct VariableTailReader;

impl Element for VariableTailReader {
    type Tree = Option<u64>;

    ghost rule = { λ _. variable_tail };

    ghost takes_memory = { ⊥ };

    fn begins(&self, class: Class) -> bool {
        matches!(class, Class::Comma | Class::Attr)
    }

    fn read<'t>(&self, rest: Cursor<'t>) -> Result<(Option<u64>, Cursor<'t>), End> {
        read_variable_tail(rest)
    }
}

impl Fold for VariableTailReader {
    type All = Option<u64>;

    ghost next = { later };

    fn next(&self, all: Option<u64>, tree: Option<u64>) -> Option<u64> {
        later(all, tree)
    }
}

/// Reads those in any number: the last alignment among them.
#[tactic(auto, using(crate::proofs::VariableLaws::variable_tail_law), unfolding(crate::specs::Variables::variable_tails_forms))]
fn read_variable_tails<'t>(rest: Cursor<'t>) -> Result<(Option<u64>, Cursor<'t>), End>
    ensures { GivesExactly (λ x. x) result (variable_tails.read rest.entry) }
{
    fold_each(&VariableTailReader, None, rest)
}

/// Reads `global` or `constant`: whether it is the second.
fn read_is_constant<'t>(rest: Cursor<'t>) -> Result<(bool, Cursor<'t>), End>
    ensures { GivesExactly (λ x. x) result (is_constant.read rest.entry) }
{
    match rest.first() {
        Class::GlobalWord => Ok((false, rest.skip())),
        _ => Ok((true, word(rest, Class::Constant)?)),
    }
}

/// Reads a variable without an initialiser.
#[tactic(auto, unfolding(crate::specs::Variables::declared_forms))]
fn read_declared_variable<'t>(alloc: Global, rest: Cursor<'t>) -> Result<(Defined, Cursor<'t>), End>
    ensures { Gives (λ x. x) result (declared_variables.read rest.entry) }
{
    let (constant, rest) = read_is_constant(rest)?;
    let (ty, rest) = read_type(alloc, rest, 64)?;
    let (align, rest) = read_variable_tails(rest)?;
    Ok((Defined::Variable(constant, ty, None, align), rest))
}

/// Reads a variable with its initialiser.
#[tactic(auto, unfolding(crate::specs::Variables::variable_forms))]
fn read_variable<'t>(alloc: Global, rest: Cursor<'t>) -> Result<(Defined, Cursor<'t>), End>
    ensures { Gives (λ x. x) result (variables.read rest.entry) }
{
    let (constant, rest) = read_is_constant(rest)?;
    let (ty, rest) = read_type(alloc, rest, 64)?;
    let (init, rest) = read_init(alloc, rest, 64)?;
    let (align, rest) = read_variable_tails(rest)?;
    Ok((Defined::Variable(constant, ty, Some(init), align), rest))
}

/// Reads an address at constant offsets from a global name.
fn read_base_address<'t>(alloc: Global, rest: Cursor<'t>) -> Result<(AliasBase, Cursor<'t>), End>
    ensures { Gives (λ x. x) result (base_addresses.read rest.entry) }
{
    let (gep, rest) = read_constant_gep(alloc, rest, 64)?;
    Ok((AliasBase::Gep(gep), rest))
}

/// Reads what an alias stands for behind `ptr`.
fn read_pointer_base<'t>(alloc: Global, rest: Cursor<'t>) -> Result<(AliasBase, Cursor<'t>), End>
    ensures { Gives (λ x. x) result (pointer_bases.read rest.entry) }
{
    match rest.first() {
        Class::Global | Class::MetadataIntrinsic | Class::DroppedIntrinsic | Class::Intrinsic => {
            let (name, rest) = read_global_use(alloc, rest)?;
            Ok((AliasBase::Global(name), rest))
        }
        _ => read_base_address(alloc, rest),
    }
}

/// Reads what an alias stands for: a global name, or an address at constant offsets from one.
#[tactic(auto, unfolding(crate::specs::Variables::alias_base_forms))]
fn read_alias_base<'t>(alloc: Global, rest: Cursor<'t>) -> Result<(AliasBase, Cursor<'t>), End>
    ensures { Gives (λ x. x) result (alias_bases.read rest.entry) }
{
    match rest.first() {
        Class::Ptr => read_pointer_base(alloc, rest.skip()),
        _ => read_base_address(alloc, rest),
    }
}

/// Reads `alias`, a type, and what the alias stands for.
#[tactic(auto, unfolding(crate::specs::Variables::alias_forms))]
fn read_alias<'t>(alloc: Global, rest: Cursor<'t>) -> Result<(Defined, Cursor<'t>), End>
    ensures { Gives (λ x. x) result (aliases.read rest.entry) }
{
    let rest = word(rest, Class::Alias)?;
    let (result, rest) = read_result_type(alloc, rest)?;
    let (params, rest) = read_parameter_types(alloc, rest)?;
    let rest = word(rest, Class::Comma)?;
    let (base, rest) = read_alias_base(alloc, rest)?;
    Ok((Defined::SecondName(result, params, base), rest))
}

/// Reads a variable with its initialiser, or an alias.
fn read_defined<'t>(alloc: Global, rest: Cursor<'t>) -> Result<(Defined, Cursor<'t>), End>
    ensures { Gives (λ x. x) result (defined_here.read rest.entry) }
{
    match rest.first() {
        Class::GlobalWord | Class::Constant => read_variable(alloc, rest),
        _ => read_alias(alloc, rest),
    }
}

/// Reads a variable that another module defines.
fn read_external<'t>(alloc: Global, rest: Cursor<'t>) -> Result<(GlobalDefinition, Cursor<'t>), End>
    ensures { Gives (λ x. x) result (external_definitions.read rest.entry) }
{
    let rest = word(rest, Class::External)?;
    let (visibility, rest) = read_visibility(rest)?;
    let (defined, rest) = read_declared_variable(alloc, rest)?;
    let definition = GlobalDefinition {
        linkage: Linkage::External,
        visibility,
        defined,
    };
    Ok((definition, rest))
}

/// Reads a variable or an alias that this module defines.
fn read_local<'t>(alloc: Global, rest: Cursor<'t>) -> Result<(GlobalDefinition, Cursor<'t>), End>
    ensures { Gives (λ x. x) result (local_definitions.read rest.entry) }
{
    let (linkage, rest) = read_local_linkage(rest)?;
    let (visibility, rest) = read_visibility(rest)?;
    let (defined, rest) = read_defined(alloc, rest)?;
    let definition = GlobalDefinition {
        linkage,
        visibility,
        defined,
    };
    Ok((definition, rest))
}

/// Reads who sees a variable or an alias, and what it is.
#[tactic(auto, unfolding(crate::specs::Variables::definition_forms))]
fn read_definition<'t>(
    alloc: Global,
    rest: Cursor<'t>,
) -> Result<(GlobalDefinition, Cursor<'t>), End>
    ensures { Gives (λ x. x) result (definitions.read rest.entry) }
{
    match rest.first() {
        Class::External => read_external(alloc, rest),
        _ => read_local(alloc, rest),
    }
}

/// Reads a global variable or an alias: its name, `=`, and what it is.
///
/// # Errors
///
/// `Bad` at the first token with which none begins, `NoMemory` if memory runs out.
#[tactic(auto, unfolding(crate::specs::Variables::global_entity_forms))]
pub fn read_global_entity<'t>(
    alloc: Global,
    rest: Cursor<'t>,
) -> Result<(Option<Entity>, Cursor<'t>), End>
    ensures { Gives (λ x. x) result (global_entities.read rest.entry) }
{
    let (name, rest) = read_global_use(alloc, rest)?;
    let rest = word(rest, Class::Equal)?;
    let (definition, rest) = read_definition(alloc, rest)?;
    Ok((Some(entity_of(name, definition)), rest))
}
