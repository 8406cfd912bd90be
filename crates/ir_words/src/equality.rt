//! Whether two tokens are alike to the grammar.
ghost use Rattle.std.specs.Prelude.{◌≡◌, true, false};
ghost use Rattle.ir_words.specs.Classes.{same};

use crate::class::Class;

/// Whether two classes are the same.
pub fn is_same(a: Class, b: Class) -> bool
    ensures { result ≡ same a b }
{
    a == b
}
