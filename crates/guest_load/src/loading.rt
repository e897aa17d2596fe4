// Where the parts of a guest lie, and the tree that says so.
ghost use Rattle.std.specs.Prelude.{◌≡◌, ◌<◌, ◌≤◌, ◌^◌, ℕ, [], ◌∷◌, None, IfOk, IfErr, IfSome, IsTrue, OnOk, is_some, length, not};
ghost use Rattle.std.specs.List.{list_all};
ghost use Rattle.fdt_read.specs.Reservations.{is_last_pair};
ghost use Rattle.fdt_write.specs.Flattened.{flattened, length_limit};
ghost use Rattle.run_steps.specs.PrivateOutcomes.{outcome_of};
ghost use Rattle.run_steps.specs.Stops.{IsOwnDue};
ghost use Rattle.tree_files.specs.Lengths.{IsLengthRefusal};
ghost use Rattle.guest_load.specs.Job.{IsLoading};
ghost use Rattle.guest_load.specs.LoadPlaces.{end_of, first_past, load_places};
ghost use Rattle.guest_load.specs.Started.{started};
ghost use Rattle.guest_load.specs.PrivateMeant.{meant_parts};

use crate::head::ImageHead;
use crate::lines::{make_no_room_message, make_report};
use crate::parts::Parts;
use crate::places::{NoRoom, Place, load_plan};
use crate::started::start_tree;
use fdt_read::Flat;
use outside::Status;
use run_steps::{Build, Stop};
use std::alloc::Global;
use texts::Bytes;
use tree_files::{one_output, write_tree};

/// The place of a ramdisk of so many bytes, where there is one; any low place where the kernel or the ramdisk has no room.
fn place_ramdisk(bank: Place, head: ImageHead, kernel: u64, ramdisk: Option<u64>) -> Option<Place>
    requires { end_of bank ≤ 2 ^ 40 }
    ensures place { (tree : ℕ) → first_past bank (load_places bank head kernel ramdisk tree) ≡ None → result ≡ (load_places bank head kernel ramdisk tree).ramdisk }
    ensures there { is_some result ≡ is_some ramdisk }
    ensures low { IfSome result (λ place. end_of place ≤ 2 ^ 40) }
{
    match load_plan(bank, head, kernel, ramdisk, 0) {
        Ok(plan) => plan.ramdisk,
        Err(_) => match ramdisk {
            None => None,
            Some(_) => Some(Place {
                address: 0,
                size: 0,
            }),
        },
    }
}

/// The tree that a guest is started with, as it is written under a name, or the message about its length.
fn write_started(
    alloc: Global,
    out: &str,
    flat: Flat,
    ramdisk: Option<Place>,
) -> Result<Bytes, Stop>
    requires low { IfSome ramdisk (λ place. end_of place ≤ 2 ^ 40) }
    requires reserved { IsTrue (list_all (λ reserve. not (is_last_pair reserve)) flat.reserves) }
    ensures written { IfOk result (λ bytes. bytes ≡ flattened flat.reserves flat.boot (started flat.tree.tree ramdisk)) }
    ensures fits { OnOk result (length (flattened flat.reserves flat.boot (started flat.tree.tree ramdisk)) ≤ length_limit) }
    ensures stopped { IfErr result (λ stop. IsOwnDue (IsLengthRefusal out.now (length (flattened flat.reserves flat.boot (started flat.tree.tree ramdisk)))) stop) }
{
    let mut tree = flat.tree;
    start_tree(&mut tree, ramdisk)?;
    write_tree(alloc, out, &tree, flat.reserves.as_slice(), flat.boot)
}

/// What is written for the parts of a guest.
pub(crate) fn load_parts(alloc: Global, out: &str, parts: Parts) -> Result<Build, Stop>
    requires low { end_of parts.bank ≤ 2 ^ 40 }
    requires reserved { IsTrue (list_all (λ reserve. not (is_last_pair reserve)) parts.tree.flat.reserves) }
    ensures built { IfOk result (λ build. IsLoading out.now (meant_parts parts) (outcome_of build)) }
    ensures stopped { IfErr result (λ stop. IsOwnDue (IsLoading out.now (meant_parts parts)) stop) }
{
    let bank = parts.bank;
    let head = parts.head;
    let kernel = parts.kernel;
    let ramdisk = parts.ramdisk;
    let place = place_ramdisk(bank, head, kernel, ramdisk);
    let bytes = write_started(alloc, out, parts.tree.flat, place)?;
    match load_plan(bank, head, kernel, ramdisk, bytes.as_slice().len() as u64) {
        Err(NoRoom(part)) => Err(Stop::Because(
            Status::Refused,
            make_no_room_message(alloc, part)?,
        )),
        Ok(plan) => {
            let report = make_report(alloc, &plan)?;
            Ok(one_output(alloc, out, bytes, Some(report))?)
        }
    }
}
