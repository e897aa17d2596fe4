//! The files of a build, in their order.
ghost use Rattle.std.specs.Prelude.{◌≡◌, ◌∷◌, IfOk};
ghost use Rattle.std.specs.Option.{option_copied};
ghost use Rattle.guest_images.specs.Built.{files_in as images_in};
ghost use Rattle.run_steps.specs.Names.{joined};
ghost use Rattle.build_outputs.specs.Made.{files_in};
ghost use Rattle.build_outputs.specs.Names.{host_name};
ghost use Rattle.build_outputs.specs.Outputs.{image_outputs, in_folder, in_turn};

use crate::names::{HOST, make_image_path};
use domain_plan::GuestPlan;
use guest_images::GuestImage;
use run_steps::{Output, join};
use std::alloc::{AllocError, Global};
use texts::{Bytes, List};

/// The images of guests as files.
pub(crate) fn name_images(
    alloc: Global,
    folder: Option<&str>,
    guests: &[GuestPlan],
    images: List<GuestImage>,
) -> Result<List<Output>, AllocError>
    ensures { IfOk result (λ outputs. files_in outputs ≡ in_folder (option_copied folder.entry) (image_outputs guests.now (images_in images))) }
{
    let mut outputs = List::new(alloc);
    for (guest, image) in guests.iter().zip(images.into_vec()) {
        outputs.push(Output {
            name: make_image_path(alloc, folder, guest.number)?,
            bytes: image.file,
        })?;
    }
    Ok(outputs)
}

/// All files: the host's tree, which has these bytes, and then in turn a guest's tree and its image.
pub(crate) fn put_in_turn(
    alloc: Global,
    folder: Option<&str>,
    host: Bytes,
    trees: List<Output>,
    images: List<Output>,
) -> Result<List<Output>, AllocError>
    ensures { IfOk result (λ outputs. files_in outputs ≡ (joined (option_copied folder.entry) host_name, host) ∷ in_turn (files_in trees) (files_in images)) }
{
    let mut outputs = List::new(alloc);
    outputs.push(Output {
        name: join(alloc, folder, HOST)?,
        bytes: host,
    })?;
    for (tree, image) in trees.into_vec().into_iter().zip(images.into_vec()) {
        outputs.push(tree)?;
        outputs.push(image)?;
    }
    Ok(outputs)
}
