// Places in a bank.
ghost use Rattle.std.specs.Prelude.{◌≡◌, ◌+◌, ◌^◌, ◌≤◌, IfOk, IfErr, IfSome, IfNone, OnOk, Some, None, IsTrue};
ghost use Rattle.guest_load.specs.LoadPlaces.{aligned, end_of, is_past, load_places, first_past, FitIn};

use crate::head::ImageHead;

/// Bytes of a guest's memory.
#[derive(Clone, Copy, Debug, PartialEq, Eq)]
pub struct Place {
    /// The address of the first of them.
    pub address: u64,
    /// How many bytes there are.
    pub size: u64,
}

/// Where a guest's parts lie, in its own addresses.
#[derive(Clone, Copy, Debug)]
pub struct LoadPlan {
    /// The kernel, with the memory that it takes beside its file.
    pub kernel: Place,
    /// The ramdisk, where there is one.
    pub ramdisk: Option<Place>,
    /// The device tree.
    pub tree: Place,
}

/// A part that is loaded.
#[derive(Clone, Copy, Debug, PartialEq, Eq)]
pub enum LoadPart {
    /// The kernel.
    Kernel,
    /// The ramdisk.
    Ramdisk,
    /// The device tree.
    Tree,
}

/// This part is the first that ends past the bank.
#[derive(Clone, Copy, Debug)]
pub struct NoRoom(pub LoadPart);

/// The least multiple of 2 MiB that is not below an address.
fn aligned(address: u64) -> u64
    requires { address ≤ 2 ^ 40 }
    ensures { result ≡ aligned address }
{
    (address + 2_097_151) / 2_097_152 * 2_097_152
}

/// The place at an offset from an address, if it ends at or before `end`.
fn place_below(end: u64, address: u64, offset: u64, size: u64) -> Option<Place>
    ensures place { IfSome result (λ place. (place.address ≡ address + offset) × (place.size ≡ size)) }
    ensures inside { IfSome result (λ place. address + offset + size ≤ end) }
    ensures past { IfNone result (end + 1 ≤ address + offset + size) }
{
    if address > end || offset > end - address || size > end - address - offset {
        return None;
    }
    Some(Place {
        address: address + offset,
        size,
    })
}

/// Where the three parts lie in a bank for these lengths of their files in bytes, or the first part that ends past the bank.
/// The kernel lies at its offset from the first multiple of 2 MiB, each other part at the first multiple behind the part
/// before it. Takes no memory.
pub fn load_plan(
    bank: Place,
    head: ImageHead,
    kernel: u64,
    ramdisk: Option<u64>,
    tree: u64,
) -> Result<LoadPlan, NoRoom>
    requires { end_of bank ≤ 2 ^ 40 }
    ensures places { IfOk result (λ plan. plan ≡ load_places bank head kernel ramdisk tree) }
    ensures fits { OnOk result (first_past bank (load_places bank head kernel ramdisk tree) ≡ None) }
    ensures refused { IfErr result (λ fault. first_past bank (load_places bank head kernel ramdisk tree) ≡ Some fault.0) }
    ensures apart { IfOk result (λ plan. FitIn bank plan) }
{
    let end = bank.address + bank.size;
    let size = head.image_size.max(kernel);
    let Some(kernel_place) = place_below(end, aligned(bank.address), head.text_offset, size) else {
        return Err(NoRoom(LoadPart::Kernel));
    };
    let after_kernel = aligned(kernel_place.address + kernel_place.size);
    match ramdisk {
        None => {
            let Some(tree_place) = place_below(end, after_kernel, 0, tree) else {
                return Err(NoRoom(LoadPart::Tree));
            };
            Ok(LoadPlan {
                kernel: kernel_place,
                ramdisk: None,
                tree: tree_place,
            })
        }
        Some(length) => {
            let Some(ramdisk_place) = place_below(end, after_kernel, 0, length) else {
                return Err(NoRoom(LoadPart::Ramdisk));
            };
            let after_ramdisk = aligned(ramdisk_place.address + ramdisk_place.size);
            let Some(tree_place) = place_below(end, after_ramdisk, 0, tree) else {
                return Err(NoRoom(LoadPart::Tree));
            };
            Ok(LoadPlan {
                kernel: kernel_place,
                ramdisk: Some(ramdisk_place),
                tree: tree_place,
            })
        }
    }
}
