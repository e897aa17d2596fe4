// The items of a description: what a host tree and its guests' trees say, part by part.
ghost use Rattle.std.specs.Prelude.{◌≡◌, IfOk};

use crate::Why;
use std::alloc::{AllocError, Global};
use texts::{BaseSize, Bytes, List};

/// The kinds of item, in the order in which a description is looked at; those from `Head` to `Port` come once for each
/// guest.
#[derive(Clone, Copy, Debug, PartialEq, Eq)]
pub enum Part {
    /// The host tree as a whole.
    Host,
    /// A memory node of the host.
    Memory,
    /// A child of the host's `/reserved-memory`.
    Reserved,
    /// An entry of the host tree's reservation block.
    Reserve,
    /// A file that a script loads.
    Load,
    /// A module of dom0 or of a guest: a kernel, a ramdisk, a device tree or another file.
    Module,
    /// The node of a guest.
    Head,
    /// The list of a guest's static memory.
    StaticList,
    /// An entry of a guest's static memory.
    Static,
    /// The partial device tree of a guest.
    Partial,
    /// A device that is passed through.
    Device,
    /// A range of registers of a device that is passed through.
    Range,
    /// An interrupt of a device that is passed through.
    Irq,
    /// A region of memory that a guest shares with others.
    Shared,
    /// A port of an event channel.
    Port,
    /// The frames of a shared region that has no host address, which are drawn from the free frames.
    Region,
    /// The memory of a guest that is drawn from the free frames.
    Heap,
    /// The page tables of a guest.
    Tables,
    /// A device tree that is written.
    Tree,
    /// The areas of Xen's own devices in a guest's address space.
    Layout,
}

/// An item of a description, by which a refusal names it.
#[derive(Debug, Drop)]
pub struct Item {
    /// What it is.
    pub part: Part,
    /// The path of its node, or the name of its file.
    pub path: Bytes,
    /// Its number among the items of its part and its node, from 0.
    pub index: u64,
}

impl Item {
    /// A copy. It takes no memory where the path is shared (`Bytes::into_shared`).
    pub fn copy(&self, alloc: Global) -> Result<Item, AllocError>
        ensures { IfOk result (λ copy. copy ≡ self.now) }
    {
        Ok(Item {
            part: self.part,
            path: self.path.copy(alloc)?,
            index: self.index,
        })
    }
}

/// The kind of a module: the first of `multiboot,kernel`, `multiboot,ramdisk` and `multiboot,device-tree` that its
/// `compatible` has (Xen, docs/misc/arm/device-tree/booting.txt).
#[derive(Clone, Copy, Debug, PartialEq, Eq)]
pub enum ModuleKind {
    /// A kernel.
    Kernel,
    /// A ramdisk.
    Ramdisk,
    /// A partial device tree.
    DeviceTree,
    /// A module of none of the three kinds.
    Other,
}

/// What an item describes. Addresses and sizes are in bytes.
#[derive(Debug, Drop)]
pub enum What {
    /// The host tree.
    Host,
    /// A device that is passed through.
    Device,
    /// The `reg` of a memory node.
    Memory {
        entries: List<BaseSize>,
    },
    /// The `reg` of a child of `/reserved-memory`.
    Reserved {
        entries: List<BaseSize>,
    },
    /// The static memory of a guest.
    StaticList {
        entries: List<BaseSize>,
    },
    /// An entry of the reservation block.
    Reserve {
        at: BaseSize,
    },
    /// Where a file is loaded, and how long it is.
    Load {
        at: BaseSize,
    },
    /// An entry of a guest's static memory, in whole pages.
    Static {
        at: BaseSize,
    },
    /// Where a module lies, and of which kind it is.
    Module {
        kind: ModuleKind,
        at: BaseSize,
    },
    /// A guest: `pages` are the 4,096-byte pages of its memory, `spis` the shared interrupts that it asks for, where it
    /// says them, `direct` whether it is mapped directly, and `console` whether it has Xen's PL011.
    Head {
        cpus: u32,
        pages: u64,
        spis: Option<u32>,
        direct: bool,
        console: bool,
    },
    /// A partial device tree: `gic` is the phandle that it gives the guest's interrupt controller.
    Partial {
        gic: u32,
    },
    /// Registers from the host address `host` on, seen by the guest from `guest` on.
    Range {
        host: u64,
        size: u64,
        guest: u64,
    },
    /// A shared peripheral interrupt, counted from 0.
    Irq {
        number: u32,
    },
    /// Shared memory, seen by the guest from `guest` on: `owner` tells whether the guest owns it or borrows it. It lies
    /// from the host address `host` on, or where it is drawn for all regions of its id.
    Shared {
        id: Bytes,
        host: Option<u64>,
        guest: u64,
        size: u64,
        owner: bool,
    },
    /// An event channel from `port` to `peer_port` of the guest `peer`, counted from 0; dom0 is 0xffffffff.
    Port {
        port: u32,
        peer: u64,
        peer_port: u32,
    },
    /// Nothing: the item has a reason of its own.
    Unread,
}

/// An item as it is described.
#[derive(Debug, Drop)]
pub struct Described {
    /// The item.
    pub item: Item,
    /// The first reason against it that needs no other item.
    pub own: Option<Why>,
    /// What it describes: `Unread` where it has such a reason.
    pub what: What,
}
