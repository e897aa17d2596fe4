// The assigned names that have no effect.
ghost use Rattle.std.specs.Prelude.{◌≡◌, ◌++◌, IfOk, OnOk, map, filter, not, decimal, codes, Some, None};
ghost use Rattle.ib_config.specs.Settings.{is_one_of, common_names, guest_names, is_tested as tested, is_tested_at as tested_at, shown_key, unused_names};
ghost use Rattle.ib_config.specs.PrivateScan.{held};

use crate::assignments::{Assignments, Key, copy_text};
use crate::guests::is_static;
use crate::names::is_listed;
use std::alloc::{AllocError, Global};
use texts::{List, Text};

/// Whether a name is a variable without index.
#[tactic(auto, unfolding(crate::specs::Settings::is_one_of))]
fn is_common(name: &str) -> bool
    ensures { result ≡ is_one_of common_names name.now }
{
    is_listed(
        &[
            "MEMORY_START",
            "MEMORY_END",
            "DEVICE_TREE",
            "XEN",
            "XEN_CMD",
            "DOM0_KERNEL",
            "DOM0_RAMDISK",
            "DOM0_CMD",
            "NUM_DOMUS",
        ],
        name.as_bytes(),
    )
}

/// Whether a name is a variable of each guest.
#[tactic(auto, unfolding(crate::specs::Settings::is_one_of))]
fn is_of_guest(name: &str) -> bool
    ensures { result ≡ is_one_of guest_names name.now }
{
    is_listed(
        &[
            "DOMU_KERNEL",
            "DOMU_RAMDISK",
            "DOMU_CMD",
            "DOMU_MEM",
            "DOMU_VCPUS",
            "DOMU_VPL011",
            "DOMU_STATIC_MEM",
            "DOMU_PASSTHROUGH_DTB",
            "DOMU_SHARED_MEM",
            "DOMU_EVTCHNS",
        ],
        name.as_bytes(),
    )
}

/// Whether a name is tested of a guest, of so many guests.
fn is_tested_at(
    alloc: Global,
    assigned: &Assignments,
    count: u32,
    name: &str,
    guest: u32,
) -> Result<bool, AllocError>
    ensures { IfOk result (λ is. is ≡ tested_at (held assigned.now) count name.now guest) }
{
    if guest >= count {
        return Ok(false);
    }
    if is_of_guest(name) {
        return Ok(true);
    }
    if name != "DOMU_DIRECT_MAP" {
        return Ok(false);
    }
    is_static(alloc, assigned, guest)
}

/// Whether a key is tested, with so many guests.
fn is_tested(
    alloc: Global,
    assigned: &Assignments,
    count: u32,
    key: &Key,
) -> Result<bool, AllocError>
    ensures { IfOk result (λ is. is ≡ tested (held assigned.now) count key.now) }
{
    match key.index {
        Some(guest) => is_tested_at(alloc, assigned, count, key.name.as_str(), guest),
        None => Ok(is_common(key.name.as_str())),
    }
}

/// A key as messages show it: `NAME` or `NAME[INDEX]`.
fn show_key(alloc: Global, key: &Key) -> Result<Text, AllocError>
    ensures { IfOk result (λ shown. shown ≡ shown_key key.now) }
{
    match key.index {
        Some(index) => show_indexed(alloc, key.name.as_str(), index),
        None => copy_text(alloc, key.name.as_str()),
    }
}

fn show_indexed(alloc: Global, name: &str, index: u32) -> Result<Text, AllocError>
    ensures { IfOk result (λ shown. shown ≡ name.now ++ (codes "[" ++ decimal index ++ codes "]")) }
{
    let digits = format!(in alloc; "[{index}]")?;
    let mut shown = copy_text(alloc, name)?;
    shown.append(digits.as_str())?;
    Ok(shown)
}

/// The assigned names that are not tested with so many guests, in the order of their first assignments.
pub(crate) fn read_unused(
    alloc: Global,
    assigned: &Assignments,
    count: u32,
) -> Result<List<Text>, AllocError>
    ensures { IfOk result (λ unused. unused ≡ unused_names (held assigned.now) count) }
{
    let mut unused = List::new(alloc);
    for place in 0..assigned.len() {
        let key = assigned.key(place);
        if !is_tested(alloc, assigned, count, key)? {
            let shown = show_key(alloc, key)?;
            unused.push(shown)?;
        }
    }
    Ok(unused)
}
