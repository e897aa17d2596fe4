// The plan of one guest.
ghost use Rattle.std.specs.Prelude.{◌≡◌, ◌==◌, ◌+◌, ◌^◌, ◌≤◌, ◌++◌, ◌∷◌, if◌then◌else◌, OnOk, ℕ, List, [], map, filter, All, Option, IfOk};
ghost use Rattle.std.specs.List.{list_any};
ghost use Rattle.texts.specs.Consecutive.{numbers};
ghost use Rattle.described.specs.Maps.{AreMapRanges};
ghost use Rattle.described.specs.Sound.{IsSound};
ghost use Rattle.item_checks.specs.Entries.{of_guest, is_read, items_of};
ghost use Rattle.item_checks.specs.Taken.{all_passed, total};
ghost use Rattle.domain_plan.specs.GuestMaps.{guest_ranges};
ghost use Rattle.domain_plan.specs.MapOrder.{in_order};
ghost use Rattle.domain_plan.specs.PrivateLaying.{AreLowFrames};
ghost use Rattle.domain_plan.specs.Plans.{banks_filled, gic_of, IsGuestPlan};
ghost use Rattle.domain_plan.specs.Regions.{placed_item};
ghost use Rattle.domain_plan.specs.PrivateGiving.{IsReady};

use crate::giving::{Given, Said, gather};
use crate::ordering::in_one_map;
use crate::planned::GuestPlan;
use crate::runs::Run;
use domain_bindings::{Domain, Host};
use item_checks::{BANK_SIZE, Guest, PartialState};
use std::alloc::{AllocError, Global};
use std::cmp::min;
use texts::{Bytes, FrameRange, List};

/// Whether a number is among the interrupts.
fn is_among(irqs: &[u32], spi: u32) -> bool
    ensures { result ≡ list_any (λ irq. irq == spi) irqs.now }
{
    irqs.iter().any(|irq| *irq == spi)
}

/// Adds a number where that is asked.
fn push_if(spis: &mut List<u32>, spi: u32, asked: bool) -> Result<(), AllocError>
    ensures { OnOk result (spis.new ≡ (if asked then spis.old ++ spi ∷ [] else spis.old)) }
{
    if asked {
        spis.push(spi)?;
    }
    Ok(())
}

/// The numbers below 988 that are among the interrupts, ascending.
fn spis_of(alloc: Global, irqs: &[u32]) -> Result<List<u32>, AllocError>
    ensures { IfOk result (λ spis. spis ≡ filter (λ spi. list_any (λ irq. irq == spi) irqs.now) (numbers 0 988)) }
{
    let mut spis = List::new(alloc);
    for spi in 0..988 {
        push_if(&mut spis, spi, is_among(irqs, spi))?;
    }
    Ok(spis)
}

/// The banks that so many pages fill.
fn banks_filled(alloc: Global, pages: u64) -> Result<List<(u64, u64)>, AllocError>
    ensures { IfOk result (λ banks. banks ≡ banks_filled pages) }
{
    let mut banks = List::new(alloc);
    let low = min(pages, BANK_SIZE);
    if low > 0 {
        banks.push((0x40000, low))?;
    }
    if pages > low {
        banks.push((0x200000, pages - low))?;
    }
    Ok(banks)
}

/// A copy of bytes.
fn copy_bytes(alloc: Global, bytes: &Bytes) -> Result<Bytes, AllocError>
    ensures { IfOk result (λ copy. copy ≡ bytes.now) }
{
    let mut copy = Bytes::new(alloc);
    copy.append(bytes.as_slice())?;
    Ok(copy)
}

/// A copy of bytes that may be missing.
fn copy_option(alloc: Global, bytes: &Option<Bytes>) -> Result<Option<Bytes>, AllocError>
    ensures { IfOk result (λ copy. copy ≡ bytes.now) }
{
    match bytes {
        Some(bytes) => Ok(Some(copy_bytes(alloc, bytes)?)),
        None => Ok(None),
    }
}

/// The path of a guest's node and the kernel's command line.
#[derive(Drop)]
struct Names {
    path: Bytes,
    bootargs: Option<Bytes>,
}

/// Copies of the names that a guest's node gives.
fn names_of(alloc: Global, domain: &Domain) -> Result<Names, AllocError>
    ensures path { IfOk result (λ names. names.path ≡ domain.now.path) }
    ensures bootargs { IfOk result (λ names. names.bootargs ≡ domain.now.bootargs) }
{
    let path = copy_bytes(alloc, &domain.path)?;
    let bootargs = copy_option(alloc, &domain.bootargs)?;
    Ok(Names { path, bootargs })
}

/// The phandle of a guest's interrupt controller.
fn gic_of(partial: &PartialState) -> u32
    ensures { result ≡ gic_of partial.now }
{
    match partial {
        PartialState::Read(partial) => partial.gic,
        _ => 65_000,
    }
}

/// A guest's memory in pages: its static ranges where it is direct-mapped, or else the banks that it fills.
fn memories_of(
    alloc: Global,
    direct: bool,
    statics: List<(u64, u64)>,
    pages: u64,
) -> Result<List<(u64, u64)>, AllocError>
    ensures { IfOk result (λ memories. memories ≡ (if direct then statics else banks_filled pages)) }
{
    if direct {
        Ok(statics)
    } else {
        banks_filled(alloc, pages)
    }
}

/// What a guest is to be given, by its items, by the runs of regions and by what it drew.
pub(crate) fn guest_plan(
    alloc: Global,
    host: &Host,
    number: u64,
    guest: &Guest,
    runs: &[Run],
    drawn: &[FrameRange],
) -> Result<GuestPlan, AllocError>
    requires { IsReady number guest.now (map (placed_item runs.now) (items_of guest.now)) drawn.now }
    ensures { IfOk result (λ plan. IsGuestPlan host.now (all_passed [] (of_guest number (is_read guest.now.partial) (map (placed_item runs.now) (items_of guest.now)))) number guest.now drawn.now plan) }
{
    let Given {
        state,
        ranges,
        said,
    } = gather(alloc, number, guest, runs, drawn)?;
    let ranges = in_one_map(alloc, ranges.as_slice())?;
    let pages = guest.domain.pages + state.static_pages();
    let Said {
        statics,
        irqs,
        shared,
        ports,
    } = said;
    let memories = memories_of(alloc, state.is_direct(), statics, pages)?;
    let spis = spis_of(alloc, irqs.as_slice())?;
    let named = names_of(alloc, &guest.domain)?;
    Ok(GuestPlan {
        number: guest.domain.number,
        path: named.path,
        cpus: guest.domain.cpus,
        console: guest.domain.console,
        gic: gic_of(&guest.partial),
        layout: state.layout(host),
        bootargs: named.bootargs,
        memories,
        ranges,
        spis,
        shared,
        ports,
    })
}
