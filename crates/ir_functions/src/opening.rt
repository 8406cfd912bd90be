//! What a definition says before its first block.
use ir_prototypes::Prototype;
use ir_syntax::Linkage;

/// What a definition says before its first block.
#[derive(Drop)]
pub struct Opening {
    /// The line that it begins on.
    pub line: u32,
    /// Who sees the function.
    pub linkage: Linkage,
    /// What it says as a declaration does.
    pub prototype: Prototype,
}
