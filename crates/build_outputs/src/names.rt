//! The names of the files that a build writes.
ghost use Rattle.std.specs.Prelude.{◌≡◌, IfOk, string_bytes};
ghost use Rattle.std.specs.Option.{option_copied};
ghost use Rattle.run_steps.specs.Names.{joined};
ghost use Rattle.guest_images.specs.Names.{image_name};
ghost use Rattle.build_outputs.specs.Names.{tree_name};

use guest_images::{make_guest_name, make_image_name};
use run_steps::join;
use std::alloc::{AllocError, Global};
use texts::Text;

/// The name of the host's tree.
pub(crate) const HOST: &str = "host.dtb";

/// The name of the image of the guest with this number, in a folder where one is given.
pub(crate) fn make_image_path(
    alloc: Global,
    folder: Option<&str>,
    number: u64,
) -> Result<Text, AllocError>
    ensures { IfOk result (λ name. name ≡ joined (option_copied folder.entry) (image_name number)) }
{
    let name = make_image_name(alloc, number)?;
    join(alloc, folder, name.as_str())
}

/// The name of the tree of the guest with this number, without a folder.
pub(crate) fn make_tree_name(alloc: Global, number: u64) -> Result<String, AllocError>
    ensures { IfOk result (λ name. string_bytes name ≡ tree_name number) }
{
    make_guest_name(alloc, number, ".dtb")
}
