//! The addresses of a module's variables (LangRef, "Global Variables").
ghost use Rattle.std.specs.Prelude.{◌≡◌, ◌≤◌, None, IfOk, length, slice_get, if◌then◌else◌};
ghost use Rattle.ir_sem.specs.Addresses.{addresses_of, has_init};

use ir_syntax::Global as Variable;
use std::alloc::{AllocError, Global};

#[tactic(auto, using(crate::proofs::AddressLemmas::one_more, crate::proofs::AddressLemmas::zero_more))]
/// The address of each variable, by its place; 0 for one that is declared.
pub(crate) fn addresses_of(
    alloc: Global,
    variables: &[Variable],
    addresses: &[u64],
) -> Result<Vec<u64>, AllocError>
    ensures { IfOk result (λ all. all.items ≡ addresses_of variables.now addresses.now) }
{
    let mut all = Vec::new(alloc);
    let mut used = 0;
    for variable in variables {
        match own_address(variable, addresses, used) {
            Some(address) => {
                all.push(address)?;
                used += 1;
            }
            None => all.push(0)?,
        }
    }
    Ok(all)
}

/// The next address, if a variable is defined and there is one.
fn own_address(variable: &Variable, addresses: &[u64], used: usize) -> Option<u64>
    ensures { result ≡ (if has_init variable.now then slice_get addresses.now used else None) }
{
    if variable.init.is_some() {
        addresses.get(used).copied()
    } else {
        None
    }
}
