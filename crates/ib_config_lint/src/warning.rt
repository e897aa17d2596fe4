// What a warning says.
ghost use Rattle.std.specs.Prelude.{◌≡◌};
ghost use Rattle.ib_config_lint.specs.Warnings.{is_remark as remark};

/// A variable of a configuration; those of a guest with its number, from 0 on.
#[derive(Clone, Copy, Debug)]
pub enum Variable {
    /// DEVICE_TREE
    DeviceTree,
    /// XEN
    Xen,
    /// XEN_CMD
    XenCmd,
    /// DOM0_KERNEL
    Dom0Kernel,
    /// DOM0_RAMDISK
    Dom0Ramdisk,
    /// DOM0_CMD
    Dom0Cmd,
    /// NUM_DOMUS
    NumDomus,
    /// DOMU_KERNEL
    DomuKernel(u32),
    /// DOMU_RAMDISK
    DomuRamdisk(u32),
    /// DOMU_CMD
    DomuCmd(u32),
    /// DOMU_MEM
    DomuMem(u32),
    /// DOMU_STATIC_MEM
    DomuStaticMem(u32),
    /// DOMU_PASSTHROUGH_DTB
    DomuPassthroughDtb(u32),
    /// DOMU_EVTCHNS
    DomuEvtchns(u32),
}

/// What U-Boot or Xen trips over.
#[derive(Clone, Copy, Debug)]
pub enum Trouble {
    /// A text has a `'`.
    Quote,
    /// A text begins with `<` or `[`.
    Cells,
    /// A text has more than 1,023 characters.
    LongText,
    /// A guest has more than 62 ranges of static memory.
    ManyRanges,
    /// A guest has static memory and no DOMU_MEM.
    NoMemory,
    /// A port is above 1,023.
    HighPort,
    /// There are more than 32 files, the host tree among them.
    ManyFiles,
    /// A range of static memory lies over the end of the guest's first bank.
    CrossedBank,
    /// A file name has a `:`.
    Server,
    /// A remark: Xen numbers two guests or more from the last to the first.
    ReversedGuests,
}

/// What happens to the value of a variable.
#[derive(Clone, Copy, Debug)]
pub struct Warning {
    /// The variable.
    pub variable: Variable,
    /// What U-Boot or Xen trips over.
    pub trouble: Trouble,
}

impl Warning {
    /// Whether this is a remark: something to know, and nothing to mend.
    pub fn is_remark(self) -> bool
        ensures { result ≡ remark self }
    {
        match self.trouble {
            Trouble::ReversedGuests => true,
            _ => false,
        }
    }
}
