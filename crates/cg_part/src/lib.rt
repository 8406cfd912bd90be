//! The text of a part: what assembly a module's functions become, and the image that it links to.
#![tactic(auto)]

mod code;
mod laws;
mod program;
mod text;

pub use laws::{runs_are_allowed, texts_have_one_image};
pub use program::program_of;
pub use text::text_of;
