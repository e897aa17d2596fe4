// The names of the files of guests.
ghost use Rattle.std.specs.Prelude.{◌≡◌, IfOk, string_bytes};
ghost use Rattle.guest_images.specs.Names.{guest_name, image_name};

use std::alloc::{AllocError, Global};

/// The name of a file of the guest with this number: `domU`, the number and the ending.
pub fn make_guest_name(alloc: Global, number: u64, ending: &str) -> Result<String, AllocError>
    ensures { IfOk result (λ name. string_bytes name ≡ guest_name number ending.now) }
{
    format!(in alloc; "domU{number}{ending}")
}

/// The name of the image of the guest with this number, without a folder.
pub fn make_image_name(alloc: Global, number: u64) -> Result<String, AllocError>
    ensures { IfOk result (λ name. string_bytes name ≡ image_name number) }
{
    make_guest_name(alloc, number, ".s2")
}
