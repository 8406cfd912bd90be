//! A linker: the objects of a program and the runtime become one image at fixed addresses.
#![tactic(auto)]

mod image;
mod inputs;
mod laws;
mod layout;
mod linking;
mod names;
mod refusal;
mod runtime;
mod sections;
mod words;

pub use image::{Addresses, Bytes, Image, ObjectAddresses, SymbolAddress};
pub use laws::{
    images_have_their_size, lines_lie_in_order, names_have_one_address, needs_have_addresses,
    objects_have_one_answer, parts_make_the_address, symbols_are_in_reach,
};
pub use linking::{link, link_distinct};
pub use refusal::{LinkRefusal, Unlinked};
