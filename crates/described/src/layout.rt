// Where Xen's own devices stand in a guest's address space.
ghost use Rattle.std.specs.Prelude.{◌≡◌};
ghost use Rattle.described.specs.Layouts.{usual_layout};

use texts::BaseSize;

/// Where Xen's own devices stand in a guest's address space, in bytes: the areas that a guest may not have for itself.
#[derive(Clone, Copy, Debug)]
pub struct Layout {
    /// The distributor of the guest's interrupt controller.
    pub distributor: BaseSize,
    /// The redistributors of the guest's interrupt controller, one for each virtual processor.
    pub redistributors: BaseSize,
    /// The registers of the console, a PL011.
    pub console: BaseSize,
    /// The grant table.
    pub grant: BaseSize,
}

/// The layout of a guest that is not mapped directly (Xen, xen/include/public/arch-arm.h: `GUEST_GICV3_GICD_BASE`,
/// `GUEST_GICV3_GICR0_BASE`, `GUEST_PL011_BASE` and `GUEST_GNTTAB_BASE`, each with its `_SIZE`).
#[tactic(auto, unfolding(crate::specs::Layouts::usual_layout))]
pub fn usual_layout() -> Layout
    ensures { result ≡ usual_layout }
{
    Layout {
        distributor: BaseSize {
            base: 0x0300_1000,
            size: 0x1_0000,
        },
        redistributors: BaseSize {
            base: 0x0302_0000,
            size: 0x0100_0000,
        },
        console: BaseSize {
            base: 0x2200_0000,
            size: 0x1000,
        },
        grant: BaseSize {
            base: 0x3800_0000,
            size: 0x0100_0000,
        },
    }
}
