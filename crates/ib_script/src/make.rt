// The script of a configuration.
ghost use Rattle.std.specs.Prelude.{◌≡◌, map};
ghost use Rattle.ib_placement.specs.Placement.{files_of};
ghost use Rattle.ib_placement.specs.declared.places.FilePlace.{FilePlace as Place};
ghost use Rattle.ib_script.specs.Script.{made_of, Gives};
ghost use Rattle.ib_script.specs.declared.make.MakeFault.TheVariants.{Memory};

use crate::command::Command;
use crate::phandles::groups_before;
use crate::script::put_script;
use ib_config::Config;
use ib_placement::Places;
use std::alloc::{AllocError, Global};
use texts::List;

/// What a script depends on in the host's device tree.
#[derive(Clone, Copy, Debug, PartialEq, Eq)]
pub struct HostFacts {
    /// Whether it has the node `/chosen`.
    pub chosen: bool,
    /// Its highest phandle, or 0 where it has none.
    pub highest: u32,
}

/// Where files are loaded from.
#[derive(Clone, Copy, Debug, PartialEq, Eq)]
pub enum LoadKind {
    /// A server, by TFTP.
    Tftp,
    /// The first partition of the first SD card.
    Sd,
    /// The first partition of the first SCSI disk.
    Scsi,
    /// The first partition of the first USB disk.
    Usb,
}

/// Why no script can be made.
#[derive(Clone, Copy, Debug, PartialEq, Eq)]
pub enum MakeFault {
    /// This highest phandle of the host's device tree and the number of port groups come to more than 0xfffffffe, so
    /// that event channels have no phandles.
    NoPhandle(u32),
    /// Memory ran out.
    Memory,
}

impl From<AllocError> for MakeFault {
    ghost from_gives = { λ _ fault. fault ≡ Memory };

    fn from(_: AllocError) -> MakeFault {
        MakeFault::Memory
    }
}

/// The highest number that is a phandle.
const LAST_PHANDLE: u128 = 0xffff_fffe;

/// The script of a configuration whose files are placed: it loads the files, writes dom0 and the guests into the host's
/// device tree, and starts Xen with it. Refused with NoPhandle exactly where the highest phandle of the host's device tree
/// and the number of port groups come to more than 0xfffffffe, also without port groups.
pub fn commands(
    alloc: Global,
    config: &Config,
    places: &Places,
    facts: HostFacts,
    kind: LoadKind,
) -> Result<List<Command>, MakeFault>
    requires { map (λ (p : Place). p.name) places.now ≡ files_of config.now }
    ensures { Gives result (made_of config.now places.now facts kind) }
{
    let last = u128::from(facts.highest) + groups_before(config, config.guests());
    if last > LAST_PHANDLE {
        return Err(MakeFault::NoPhandle(facts.highest));
    }
    let mut script = List::new(alloc);
    put_script(alloc, &mut script, config, places.as_slice(), facts, kind)?;
    Ok(script)
}
