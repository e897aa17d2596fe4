//! The guests of a host's tree, with their partial trees and what they share.
ghost use Rattle.std.specs.Prelude.{◌≡◌, ◌<◌, IfOk, length, map};
ghost use Rattle.domain_bindings.specs.Domains.{guest_nodes};
ghost use Rattle.domain_plan.specs.Descriptions.{guests_from, partial_at, partial_state, trees_in};
ghost use Rattle.domain_plan.specs.PrivateHeldGuests.{held_guest, unheld};

use domain_bindings::{Domain, read_domains};
use fdt_tree::Tree;
use item_checks::{Guest, PartialState};
use passthrough_dtb::read_partial;
use static_links::{read_ports, read_shared};
use std::alloc::{AllocError, Global};
use texts::List;

/// The most guests that are built.
const GUEST_LIMIT: u64 = 16;

/// The guests of a tree in document order, each with its partial tree, where that was read.
pub(crate) fn read_guests(
    alloc: Global,
    tree: &Tree,
    partials: &[Option<Tree>],
) -> Result<List<Guest>, AllocError>
    ensures { IfOk result (λ guests. map unheld guests ≡ guests_from tree.now.tree (trees_in partials.now) 0 (guest_nodes tree.now.tree)) }
{
    let domains = read_domains(alloc, tree)?;
    let mut guests = List::new(alloc);
    for domain in domains.into_vec() {
        guests.push(read_guest(alloc, tree, partials, domain)?)?;
    }
    Ok(guests)
}

/// A guest. Of one past the sixteenth, which its head refuses, nothing more is read.
fn read_guest(
    alloc: Global,
    tree: &Tree,
    partials: &[Option<Tree>],
    domain: Domain,
) -> Result<Guest, AllocError>
    requires { domain.node < length tree.now.places }
    ensures { IfOk result (λ guest. guest ≡ held_guest tree.now (trees_in partials.now) domain) }
{
    if domain.number >= GUEST_LIMIT {
        return Ok(Guest {
            domain,
            partial: PartialState::Unread,
            shared: List::new(alloc),
            ports: List::new(alloc),
        });
    }
    let partial = partial_state(alloc, tree, partials, domain.number)?;
    let shared = read_shared(alloc, tree, domain.node)?;
    let ports = read_ports(alloc, tree, domain.node)?;
    Ok(Guest {
        domain,
        partial,
        shared,
        ports,
    })
}

/// The partial tree of the guest with this number, as the plan takes it.
fn partial_state(
    alloc: Global,
    tree: &Tree,
    partials: &[Option<Tree>],
    number: u64,
) -> Result<PartialState, AllocError>
    requires { number < 16 }
    ensures { IfOk result (λ state. state ≡ partial_state tree.now.tree number (partial_at (trees_in partials.now) number)) }
{
    match partials.get(number as usize) {
        Some(Some(partial)) => {
            let read = read_partial(alloc, partial, tree, number as u32)?;
            Ok(PartialState::Read(read))
        }
        _ => Ok(PartialState::Unread),
    }
}
