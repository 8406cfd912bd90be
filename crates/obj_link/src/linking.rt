//! Links objects.
ghost use Rattle.std.specs.Prelude.{◌≡◌, ◌∷◌, ◌≤◌, [], IfOk, IfErr, OnOk};
ghost use Rattle.obj_link.specs.Cause.{IsCause, IsLinkable, IsUnlinked};
ghost use Rattle.obj_link.specs.Image.{linked_image};
ghost use Rattle.obj_link.specs.Layout.{image_size};
ghost use Rattle.obj_link.specs.Names.{duplicates};
ghost use Rattle.obj_link.specs.Runtime.{runtime};
ghost use Rattle.obj_link.specs.Words.{image_bytes};

use crate::image::{Bytes, Image, MAX_IMAGE_BYTES};
use crate::inputs::Inputs;
use crate::layout::{all_addresses, global_addresses, total_size};
use crate::names::{first_duplicate, first_undefined};
use crate::refusal::{LinkRefusal, Unlinked};
use crate::runtime::runtime_object;
use crate::words::bytes_of_image;
use asm_read::Object;
use rv_isa::SymName;
use std::alloc::{AllocError, Global};

/// Links the runtime and these objects, in this order, into one image.
///
/// # Errors
///
/// The causes are in [`LinkRefusal`], and the first of them that holds is answered.
pub fn link(alloc: Global, objects: &[Object]) -> Result<Image, LinkRefusal>
    ensures linkable { OnOk result (IsLinkable (runtime ∷ objects.now)) }
    ensures image { IfOk result (λ image. image ≡ linked_image (runtime ∷ objects.now)) }
    ensures refused { IfErr result (λ refusal. IsCause refusal (runtime ∷ objects.now)) }
{
    let Ok(runtime) = runtime_object(alloc) else {
        return Err(LinkRefusal::NoMemory);
    };
    image_of(alloc, &Inputs::new(&runtime, objects))
}

/// Links the runtime and these objects, whose global names differ, in this order, into one image.
///
/// # Errors
///
/// The causes are in [`Unlinked`], and the first of them that holds is answered.
pub fn link_distinct(alloc: Global, objects: &[Object]) -> Result<Image, Unlinked>
    requires { duplicates (runtime ∷ objects.now) ≡ [] }
    ensures linkable { OnOk result (IsLinkable (runtime ∷ objects.now)) }
    ensures image { IfOk result (λ image. image ≡ linked_image (runtime ∷ objects.now)) }
    ensures refused { IfErr result (λ why. IsUnlinked why (runtime ∷ objects.now)) }
{
    let Ok(runtime) = runtime_object(alloc) else {
        return Err(Unlinked::NoMemory);
    };
    image_of_distinct(alloc, &Inputs::new(&runtime, objects))
}

/// The image of objects.
fn image_of(alloc: Global, inputs: &Inputs<'_>) -> Result<Image, LinkRefusal>
    ensures linkable { OnOk result (IsLinkable inputs.now) }
    ensures image { IfOk result (λ image. image ≡ linked_image inputs.now) }
    ensures refused { IfErr result (λ refusal. IsCause refusal inputs.now) }
{
    if let Some(name) = first_duplicate(inputs) {
        return Err(match copied(alloc, name) {
            Ok(name) => LinkRefusal::Duplicate { name },
            Err(_) => LinkRefusal::NoMemory,
        });
    }
    match image_of_distinct(alloc, inputs) {
        Ok(image) => Ok(image),
        Err(Unlinked::Undefined { name }) => Err(LinkRefusal::Undefined { name }),
        Err(Unlinked::TooLarge { bytes }) => Err(LinkRefusal::TooLarge { bytes }),
        Err(Unlinked::NoMemory) => Err(LinkRefusal::NoMemory),
    }
}

/// The image of objects whose global names differ.
fn image_of_distinct(alloc: Global, inputs: &Inputs<'_>) -> Result<Image, Unlinked>
    requires { duplicates inputs.now ≡ [] }
    ensures linkable { OnOk result (IsLinkable inputs.now) }
    ensures image { IfOk result (λ image. image ≡ linked_image inputs.now) }
    ensures refused { IfErr result (λ why. IsUnlinked why inputs.now) }
{
    if let Some(name) = first_undefined(inputs) {
        return Err(match copied(alloc, name) {
            Ok(name) => Unlinked::Undefined { name },
            Err(_) => Unlinked::NoMemory,
        });
    }
    let size = total_size(inputs);
    if size > MAX_IMAGE_BYTES {
        return Err(Unlinked::TooLarge { bytes: size });
    }
    match image_of_size(alloc, inputs, size) {
        Ok(image) => Ok(image),
        Err(_) => Err(Unlinked::NoMemory),
    }
}

fn copied(alloc: Global, name: &[u8]) -> Result<SymName, AllocError>
    ensures { IfOk result (λ copy. copy ≡ name.now) }
{
    Ok(SymName::from_vec(Vec::from_slice(alloc, name)?))
}

/// The image of objects whose size is this.
fn image_of_size(alloc: Global, inputs: &Inputs<'_>, size: u64) -> Result<Image, AllocError>
    requires limit { size ≤ 67108864 }
    requires size { size ≡ image_size inputs.now }
    ensures { IfOk result (λ image. image ≡ linked_image inputs.now) }
{
    let addresses = all_addresses(alloc, inputs)?;
    Ok(Image {
        bytes: Bytes::from_vec(linked_bytes(alloc, inputs)?),
        instructions: size / 4,
        addresses,
    })
}

fn linked_bytes(alloc: Global, inputs: &Inputs<'_>) -> Result<Vec<u8>, AllocError>
    requires { image_size inputs.now ≤ 67108864 }
    ensures { IfOk result (λ bytes. bytes.items ≡ image_bytes inputs.now) }
{
    let globals = global_addresses(alloc, inputs)?;
    bytes_of_image(alloc, inputs, globals.as_slice())
}
