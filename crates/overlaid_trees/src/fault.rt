// Why an overlay cannot be applied.
ghost use Rattle.std.specs.Prelude.{◌≡◌};
ghost use Rattle.overlaid_trees.specs.declared.fault.OverlayFault.TheVariants.{Memory};

use std::alloc::AllocError;
use texts::Bytes;

/// The first fault of an overlay over a base. The paths and names are those of the overlay.
#[derive(Debug, Drop)]
pub enum OverlayFault {
    /// The greatest phandles of the two trees, added, pass 0xfffffffe.
    PhandleRange,
    /// A node of the local fixups, by the path that it speaks of, names a node, a property or a word that is not there,
    /// or a word that passes 0xfffffffe.
    BadLocal(Bytes),
    /// The base does not know this label.
    Unresolved(Bytes),
    /// A word that this label names is not there, or is not named as it has to be.
    BadFixup(Bytes),
    /// The fragment of this name has no node to be merged into.
    NoTarget(Bytes),
    /// The fragment of this name would make a node of depth 33.
    Deep(Bytes),
    /// No memory was left.
    Memory,
}

impl From<AllocError> for OverlayFault {
    ghost from_gives = { λ _ e. e ≡ Memory };

    fn from(_e: AllocError) -> OverlayFault {
        OverlayFault::Memory
    }
}
