//! Names as the keys of a map.
ghost use Rattle.std.specs.Prelude.{◌≡◌, ℕ, List, [], ◌∷◌, None, Some, IsSome, IsTrue, OnErr, OnOk, if◌then◌else◌};
ghost use Rattle.indexmap.specs.IndexMap.{get, IsUnchanged, Updates};
ghost use Rattle.ir_ident.specs.NameMaps.{key_value, or_else};
ghost use Rattle.std.specs.Str.{bytes_eq};
ghost use Rattle.std.specs.Cmp.Rules.{comparing, hashing};
ghost use Rattle.std.proofs.Common.{rules};

use indexmap::IndexMap;
use indexmap::map::Entry;
use std::alloc::AllocError;
use std::hash::{Hash, Hasher};

/// The bytes of a name, hashed by several at a time.
#[derive(Clone, Copy)]
pub(crate) struct NameKey<'a> {
    pub(crate) bytes: &'a [u8],
}

impl<'a> PartialEq for NameKey<'a> {
    ghost eq = { λ a b. bytes_eq a.bytes.now b.bytes.now };

    ghost laws = { Prim.search (comparing, rules) };

    fn eq(&self, other: &NameKey<'a>) -> bool {
        same_bytes(self.bytes, other.bytes)
    }
}

impl<'a> Eq for NameKey<'a> {
    ghost laws = { Prim.search (comparing, rules) };
}

impl<'a> Hash for NameKey<'a> {
    ghost hash_input = { λ a. a.bytes.now ∷ [] };

    ghost respects_eq = { Prim.search (hashing, rules) };

    fn hash<H: Hasher>(&self, state: &mut H) {
        state.write(self.bytes);
    }
}

/// Whether these bytes are the same. Names of one text often begin alike, so their lengths and their
/// last bytes are compared before the others.
pub(crate) fn same_bytes(a: &[u8], b: &[u8]) -> bool
    ensures { result ≡ bytes_eq a.now b.now }
{
    same_ends(a, b) && a == b
}

/// Whether these have one length, and one last byte if there is any.
fn same_ends(a: &[u8], b: &[u8]) -> bool
    ensures { a.now ≡ b.now → IsTrue result }
{
    match (a, b) {
        ([.., x], [.., y]) => a.len() == b.len() && x == y,
        _ => a.len() == b.len(),
    }
}

/// Adds a value. A name that has one keeps it.
pub(crate) fn add_key<'a, V: Copy + Drop>(
    names: &mut IndexMap<NameKey<'a>, V>,
    name: &'a [u8],
    value: V,
) -> Result<(), AllocError>
    ensures ok { OnOk result ((bytes : List ℕ) → key_value names.new bytes ≡ or_else (key_value names.old bytes) (if bytes_eq bytes name.now then Some value else None)) }
    ensures err { OnErr result ((bytes : List ℕ) → key_value names.new bytes ≡ key_value names.old bytes) }
{
    add_first(names, NameKey { bytes: name }, value)?;
    Ok(())
}

/// Adds a value. A key that has one keeps it.
pub(crate) fn add_first<K: Eq + Hash + Drop, V: Copy + Drop>(
    map: &mut IndexMap<K, V>,
    key: K,
    value: V,
) -> Result<(), AllocError>
    ensures added { OnOk result (get K.eq map.old key ≡ None → Updates K.eq map.old map.new key (Some value)) }
    ensures kept { OnOk result (IsSome (get K.eq map.old key) → IsUnchanged map.old map.new) }
    ensures err { OnErr result (IsUnchanged map.old map.new) }
{
    match map.entry(key)? {
        Entry::Vacant(entry) => {
            entry.insert(value);
        }
        Entry::Occupied(_entry) => {}
    }
    Ok(())
}
