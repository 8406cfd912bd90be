//! Where parts of arrays and structs begin (LangRef, "Data Layout").
ghost use Rattle.std.specs.Prelude.{◌≡◌, ◌+◌, ◌-◌, ◌<◌, ◌≤◌, ◌^◌};
ghost use Rattle.ty_core.specs.Size.{IsAlign, begin_at, rounded};

/// The least multiple of `align` that is `at` or more.
pub(crate) fn round_up(at: u64, align: u64) -> u64
    requires low { at < 2 ^ 63 }
    requires aligned { IsAlign align }
    ensures value { result ≡ rounded at align }
    ensures least { at ≤ result }
    ensures most { result < at + align }
{
    at.div_ceil(align) * align
}

/// How many bytes stand between a part that ends at `at` and the next one of this alignment.
pub(crate) fn gap(packed: bool, at: u64, align: u64) -> u64
    requires low { at < 2 ^ 63 }
    requires aligned { IsAlign align }
    ensures { result ≡ begin_at packed at align - at }
{
    if packed { 0 } else { round_up(at, align) - at }
}
