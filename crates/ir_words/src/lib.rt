//! What the tokens of LLVM IR are to its grammar, and a cursor over them.
#![tactic(auto)]

mod class;
mod cursor;
mod equality;
mod first;
mod global;
mod lexeme;
mod quoted;
mod table;
mod width;
mod word;

pub use class::Class;
pub use cursor::Cursor;
pub use equality::is_same;
pub use lexeme::{class_in, is_unsupported};
pub use width::are_digits;
