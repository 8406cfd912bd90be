//! Who sees a function, and how.
ghost use Rattle.std.specs.Prelude.{◌≡◌};
ghost use Rattle.cg_built.specs.Unbuilt.{is_default, is_external};

use ir_syntax::{Linkage, Visibility};

pub fn is_external(linkage: Linkage) -> bool
    ensures { result ≡ is_external linkage }
{
    matches!(linkage, Linkage::External)
}

pub fn is_default(visibility: Visibility) -> bool
    ensures { result ≡ is_default visibility }
{
    matches!(visibility, Visibility::Default)
}
