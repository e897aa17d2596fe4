// Reading a partial tree.
ghost use Rattle.std.specs.Prelude.{◌≡◌, IfOk};
ghost use Rattle.passthrough_dtb.specs.Gic.{guest_gic};
ghost use Rattle.passthrough_dtb.specs.Items.{partial_items};
ghost use Rattle.described.specs.Sound.{AreSound};

use crate::devices::{add_devices, devices, passed_nodes};
use crate::gic::{guest_gic, host_gic};
use crate::interrupts::add_interrupts;
use crate::ranges::add_ranges;
use crate::whole::partial_item;
use described::Described;
use fdt_nodes::PathIndex;
use fdt_tree::Tree;
use std::alloc::{AllocError, Global};
use texts::List;

/// What a guest's partial device tree describes.
#[derive(Debug, Drop)]
pub struct Partial {
    /// The phandle of the guest's interrupt controller.
    pub gic: u32,
    /// The tree itself, its devices, their ranges and their interrupts, each with its first own reason.
    pub items: List<Described>,
}

/// Reads the partial tree of a guest, by its number. No description is refused: an item that breaks its binding carries
/// its own reason.
pub fn read_partial(
    alloc: Global,
    partial: &Tree,
    host: &Tree,
    guest: u32,
) -> Result<Partial, AllocError>
    ensures gic { IfOk result (λ read. read.gic ≡ guest_gic partial.now.tree) }
    ensures items { IfOk result (λ read. read.items ≡ partial_items partial.now.tree host.now.tree guest) }
    ensures sound { IfOk result (λ read. AreSound read.items) }
{
    let gic = guest_gic(partial);
    let passed = passed_nodes(alloc, partial)?;
    let mut items = List::new(alloc);
    items.push(partial_item(alloc, partial, gic, guest, &passed)?)?;
    let of_host = host_gic(alloc, host)?;
    let index = PathIndex::new(alloc, host)?;
    let devices = devices(alloc, partial, &index, &passed)?;
    add_devices(alloc, partial, host, of_host, guest, &devices, &mut items)?;
    add_ranges(alloc, partial, host, guest, &devices, &mut items)?;
    add_interrupts(alloc, partial, host, guest, &devices, &mut items)?;
    Ok(Partial { gic, items })
}
