//! Parts of a line.
ghost use Rattle.std.specs.Prelude.{◌≡◌, ◌++◌, List, ◌∷◌, ℕ, MatchOption};
ghost use Rattle.asm_inst.specs.Bytes.{IsCut, IsLastCut};

/// What stands before and after the first `byte`, or `None` where there is none.
pub fn cut_at(bytes: &[u8], byte: u8) -> Option<(&[u8], &[u8])>
    ensures { MatchOption result
        ((left right : List ℕ) → bytes.now ≡ left ++ byte ∷ right → ⊥)
        (λ cut. IsCut byte bytes.now cut.0.now cut.1.now) }
{
    for at in 0..bytes.len() {
        if bytes[at] == byte {
            return Some((&bytes[..at], &bytes[at + 1..]));
        }
    }
    None
}

/// What stands before and after the last `byte`, or `None` where there is none.
pub fn cut_at_last(bytes: &[u8], byte: u8) -> Option<(&[u8], &[u8])>
    ensures { MatchOption result
        ((left right : List ℕ) → bytes.now ≡ left ++ byte ∷ right → ⊥)
        (λ cut. IsLastCut byte bytes.now cut.0.now cut.1.now) }
{
    for after in 0..bytes.len() {
        let at = bytes.len() - after - 1;
        if bytes[at] == byte {
            return Some((&bytes[..at], &bytes[at + 1..]));
        }
    }
    None
}

/// What stands after the prefix.
pub fn after<'a>(bytes: &'a [u8], prefix: &[u8]) -> Option<&'a [u8]>
    ensures { MatchOption result
        ((rest : List ℕ) → bytes.now ≡ prefix.now ++ rest → ⊥)
        (λ rest. bytes.now ≡ prefix.now ++ rest.now) }
{
    bytes.strip_prefix(prefix)
}

/// What stands before the suffix.
pub fn before<'a>(bytes: &'a [u8], suffix: &[u8]) -> Option<&'a [u8]>
    ensures { MatchOption result
        ((stem : List ℕ) → bytes.now ≡ stem ++ suffix.now → ⊥)
        (λ stem. bytes.now ≡ stem.now ++ suffix.now) }
{
    bytes.strip_suffix(suffix)
}
