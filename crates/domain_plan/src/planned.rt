// What a plan says.
use described::{Layout, MapRange};
use frame_alloc::FramePool;
use texts::{Bytes, List};

/// What a guest is to be given. A page is 4,096 bytes of the guest's address space, and a frame a host page, each named
/// by its address divided by 4,096.
#[derive(Debug, Drop)]
pub struct GuestPlan {
    /// Which guest of the description it is, from 0, in document order.
    pub number: u64,
    /// The path of the guest's node in the host tree.
    pub path: Bytes,
    /// How many virtual CPUs it has.
    pub cpus: u32,
    /// Whether it has an emulated PL011 console.
    pub console: bool,
    /// The phandle of the guest's interrupt controller.
    pub gic: u32,
    /// Where the devices that Xen makes stand in the guest.
    pub layout: Layout,
    /// The kernel's command line, as bytes of a property, where there is one.
    pub bootargs: Option<Bytes>,
    /// The guest's memory: first page and number of pages of each range.
    pub memories: List<(u64, u64)>,
    /// What the guest is mapped to: sorted by page, apart, and merged. All pages and frames are below 2^28.
    pub ranges: List<MapRange>,
    /// The numbers of the guest's shared peripheral interrupts, ascending, each once.
    pub spis: List<u32>,
    /// The guest's shared regions: id, first page, and number of pages.
    pub shared: List<(Bytes, u64, u64)>,
    /// The guest's event channels: port, peer, and the peer's port. The peer is a guest's number, or 0xffffffff for dom0.
    pub ports: List<(u32, u64, u32)>,
}

/// What every guest is to be given, and the frames that are left for tables.
#[derive(Drop)]
pub struct Plan {
    /// One plan for each guest, in the order of guests.
    pub guests: List<GuestPlan>,
    /// The frames of the host's memory that no item claims and no guest drew.
    pub pool: FramePool,
}
