//! The printer. An item is a symbol of the text section, with its code. Items are written at the end of a text, and
//! of the text of any items it is known what it assembles to, and which symbols it defines, exports and needs.
#![tactic(auto)]

mod instruction;
mod item;
mod laws;
mod name;

pub use item::push_item;
pub use laws::{items_assemble, items_resolve, items_show_symbols};
