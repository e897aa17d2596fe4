// What the plan is made from: the guests with their partial trees and links.
use described::Described;
use domain_bindings::Domain;
use passthrough_dtb::Partial;
use texts::List;

/// The partial device tree of a guest, which describes the devices that are passed through to it.
#[derive(Debug, Drop)]
pub enum PartialState {
    /// The guest has no module of the kind.
    None,
    /// It has one, and no file was loaded there.
    Unread,
    /// What the tree describes.
    Read(Partial),
}

/// What is described of a guest.
#[derive(Debug, Drop)]
pub struct Guest {
    /// The guest's node in the host tree.
    pub domain: Domain,
    /// Its partial device tree.
    pub partial: PartialState,
    /// The items of its shared regions, in document order.
    pub shared: List<Described>,
    /// The items of its event channel ports, in document order.
    pub ports: List<Described>,
}
