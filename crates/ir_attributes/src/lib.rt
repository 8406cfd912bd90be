//! Readers of attributes and attached metadata of textual LLVM IR (LLVM Language Reference Manual,
//! "Parameter Attributes" and "Metadata"), each proved to read exactly what its rule of the grammar
//! says, up to the first bad token.
#![tactic(auto)]

mod attributes;
mod ignored;
mod items;

pub use attributes::{
    AttachmentReader, begins_attribute, later, read_alignment, read_attachment, read_attribute,
    read_attributes, skip_attachments, skip_round_brackets,
};
pub use ignored::{begins_ignored, skip_ignored, skip_metadata_body};
pub use items::read_items;
