//! The limits on what a module has.
ghost use Rattle.std.specs.Prelude.{◌≡◌, IfOk, IsTrue, None, length, nat_le, nat_lt};
ghost use Rattle.std.specs.List.{filter, list_all, list_any, sum_by};
ghost use Rattle.ir_syntax.specs.Definitions.{defined_functions, has_body};
ghost use Rattle.ir_cfg.specs.Capped.{capped};
ghost use Rattle.ir_cfg.specs.Sizes.{whole_size};
ghost use Rattle.ir_check.specs.Limits.{exceeded_limit, exceeded_size};
ghost use Rattle.ir_mentions.specs.Mentions.{mentioned_places};

use ir_cfg::{function_sizes, total_size, whole_size};
use ir_mentions::mentioned_places;
use ir_syntax::{Count, Function, Module};
use std::alloc::{AllocError, Global};

/// The most functions that a module may define.
const FUNCTION_LIMIT: usize = 4096;
/// The most instructions, phis and terminators that a function may have.
const SIZE_LIMIT: usize = 65_536;
/// The most of these that all functions may have.
const TOTAL_LIMIT: usize = 262_144;
/// The most parameters that a function may have.
const PARAM_LIMIT: usize = 64;
/// The most places that all mentioned types may have.
const PLACE_LIMIT: u64 = 4_194_304;

/// The first limit that a module exceeds, in the order of [`Count`]: 4,096 defined functions; 65,536 instructions, phis
/// and terminators in one function, of the blocks that some path reaches; 262,144 of these in all functions; 64
/// parameters of a function; and 4,194,304 places of all types that defined functions and variables write, each as
/// often as it is written.
pub fn exceeded_limit(alloc: Global, m: &Module) -> Result<Option<Count>, AllocError>
    ensures { IfOk result (λ count. count ≡ exceeded_limit m.now) }
{
    if has_many_functions(m) {
        return Ok(Some(Count::Functions));
    }
    if let Some(count) = exceeded_size(alloc, m.functions.as_slice())? {
        return Ok(Some(count));
    }
    if has_many_params(m) {
        return Ok(Some(Count::Arguments));
    }
    if has_many_places(alloc, m)? {
        return Ok(Some(Count::TypePlaces));
    }
    Ok(None)
}

fn has_many_functions(m: &Module) -> bool
    ensures { result ≡ nat_lt 4096 (length (defined_functions m.now)) }
{
    count_defined(m.functions.as_slice()) > FUNCTION_LIMIT
}

fn count_defined(functions: &[Function]) -> usize
    ensures { result ≡ length (filter has_body functions.now) }
{
    functions
        .iter()
        .filter(|function| function.blocks.is_some())
        .count()
}

/// Whether one function is too long, or all of them are.
fn exceeded_size(alloc: Global, functions: &[Function]) -> Result<Option<Count>, AllocError>
    ensures { IfOk result (λ count. count ≡ exceeded_size functions.now) }
{
    if are_small(functions) {
        return Ok(None);
    }
    exceeded_reachable_size(alloc, functions)
}

/// Whether no size is exceeded even if blocks count that no path reaches. To tell those takes a search of each function,
/// and few modules need it.
#[tactic(auto, using(crate::proofs::SizeLemmas::small_sizes))]
fn are_small(functions: &[Function]) -> bool
    ensures { IsTrue result → exceeded_size functions.now ≡ None }
{
    are_short(functions) & (whole_sizes(functions) <= TOTAL_LIMIT)
}

fn are_short(functions: &[Function]) -> bool
    ensures { result ≡ list_all (λ f. nat_le (whole_size f) 65536) functions.now }
{
    functions.iter().all(|function| is_short(function))
}

fn is_short(function: &Function) -> bool
    ensures { result ≡ nat_le (whole_size function.now) 65536 }
{
    whole_size(function) <= SIZE_LIMIT
}

fn whole_sizes(functions: &[Function]) -> usize
    ensures { result ≡ capped (sum_by whole_size functions.now) }
{
    let mut total = 0usize;
    for function in functions {
        total = total.saturating_add(whole_size(function));
    }
    total
}

/// The same by the blocks that some path reaches.
fn exceeded_reachable_size(
    alloc: Global,
    functions: &[Function],
) -> Result<Option<Count>, AllocError>
    ensures { IfOk result (λ count. count ≡ exceeded_size functions.now) }
{
    let sizes = function_sizes(alloc, functions)?;
    if is_any_above(sizes.as_slice()) {
        return Ok(Some(Count::OneFunction));
    }
    if total_size(sizes.as_slice()) > TOTAL_LIMIT {
        return Ok(Some(Count::Instructions));
    }
    Ok(None)
}

fn is_any_above(sizes: &[usize]) -> bool
    ensures { result ≡ list_any (nat_lt 65536) sizes.now }
{
    sizes.iter().any(|size| *size > SIZE_LIMIT)
}

fn has_many_params(m: &Module) -> bool
    ensures { result ≡ list_any (λ f. nat_lt 64 (length f.params)) m.now.functions }
{
    m.functions
        .as_slice()
        .iter()
        .any(|function| is_long(function))
}

fn is_long(function: &Function) -> bool
    ensures { result ≡ nat_lt 64 (length function.now.params) }
{
    function.params.as_slice().len() > PARAM_LIMIT
}

fn has_many_places(alloc: Global, m: &Module) -> Result<bool, AllocError>
    ensures { IfOk result (λ many. many ≡ nat_lt 4194304 (mentioned_places m.now)) }
{
    Ok(mentioned_places(alloc, m)? > PLACE_LIMIT)
}
