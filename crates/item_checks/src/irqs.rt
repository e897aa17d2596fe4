// The reasons against an interrupt.
ghost use Rattle.std.specs.Prelude.{◌≡◌, ℕ, ◌==◌, ◌&&◌, if◌then◌else◌, List, Option, None, IfOk, option_map};
ghost use Rattle.std.specs.List.{list_any};
ghost use Rattle.described.specs.declared.why.Why.TheVariants as whys;
ghost use Rattle.item_checks.specs.Taken.{Passed, belongs_to, what_of};
ghost use Rattle.item_checks.specs.Reasons.{naming_first, is_past_spis, has_console, is_irq};
ghost use Rattle.item_checks.specs.Standing.{Stands, is_past, is_other, first_other, is_of_other, item_where};
ghost use Rattle.item_checks.specs.PrivateStanding.{irq_reasons};

use crate::regions::is_guest;
use crate::state::{Owner, State, Taker};
use described::{Item, Why};
use std::alloc::{AllocError, Global};

/// Whether a guest has an interrupt of this number.
pub(crate) fn has_taker(takers: &[Taker], number: u32, guest: u64) -> bool
    ensures { result ≡ list_any (λ taker. (taker.number == number) && (taker.guest == guest)) takers.now }
{
    takers
        .iter()
        .any(|taker| taker.number == number && taker.guest == guest)
}

/// Whether an interrupt has this number, and its guest is not this one.
fn is_other(taker: &Taker, number: u32, guest: Option<u64>) -> bool
    ensures { result ≡ is_other number guest taker.now }
{
    if is_guest(guest, Some(taker.guest)) {
        return false;
    }
    taker.number == number
}

/// The first interrupt of this number whose guest is not this one.
fn first_other(takers: &[Taker], number: u32, guest: Option<u64>) -> Option<&Item>
    ensures { option_map (λ item. item.now) result ≡ first_other number guest takers.now }
{
    for taker in takers {
        if is_other(taker, number, guest) {
            return Some(&taker.item);
        }
    }
    None
}

/// Whether a number of shared interrupts is there, and the number is not below it.
fn is_past(spis: Option<u32>, number: u32) -> bool
    ensures { result ≡ is_past number spis }
{
    match spis {
        None => false,
        Some(spis) => spis <= number,
    }
}

impl State {
    /// Whether the number is past the guest's shared interrupts.
    fn is_past_spis(&self, owner: Owner, number: u32) -> bool
        ensures { (before : List Passed) → Stands owner.guest before self.now → result ≡ list_any (λ (passed : Passed). belongs_to owner.guest passed && is_past_spis number (what_of passed)) before }
    {
        is_past(self.last.spis, number)
    }

    /// The item that gives the guest a console.
    fn console_item(&self, owner: Owner) -> Option<&Item>
        ensures { (before : List Passed) → Stands owner.guest before self.now → option_map (λ item. item.now) result ≡ item_where (λ passed. belongs_to owner.guest passed && has_console (what_of passed)) before }
    {
        match &self.last.console {
            None => None,
            Some(item) => Some(item),
        }
    }

    /// The earliest item of another guest that is the interrupt.
    fn other_taker(&self, owner: Owner, number: u32) -> Option<&Item>
        ensures { (before : List Passed) → Stands owner.guest before self.now → option_map (λ item. item.now) result ≡ item_where (λ passed. is_of_other owner.guest passed && is_irq number (what_of passed)) before }
    {
        first_other(self.seen.takers.as_slice(), number, owner.guest)
    }

    /// IrqTaken by the guest's console.
    fn irq_of_console(
        &self,
        alloc: Global,
        owner: Owner,
        number: u32,
    ) -> Result<Option<Why>, AllocError>
        ensures { IfOk result (λ why. (before : List Passed) → Stands owner.guest before self.now →
            why ≡ (if number == 0 then naming_first (λ passed. belongs_to owner.guest passed && has_console (what_of passed)) whys.IrqTaken before else None)) }
    {
        if number != 0 {
            return Ok(None);
        }
        match self.console_item(owner) {
            None => Ok(None),
            Some(item) => Ok(Some(Why::IrqTaken(item.copy(alloc)?))),
        }
    }

    /// IrqTaken by the earliest item of another guest that is the interrupt.
    fn irq_of_another(
        &self,
        alloc: Global,
        owner: Owner,
        number: u32,
    ) -> Result<Option<Why>, AllocError>
        ensures { IfOk result (λ why. (before : List Passed) → Stands owner.guest before self.now →
            why ≡ naming_first (λ passed. is_of_other owner.guest passed && is_irq number (what_of passed)) whys.IrqTaken before) }
    {
        match self.other_taker(owner, number) {
            None => Ok(None),
            Some(item) => Ok(Some(Why::IrqTaken(item.copy(alloc)?))),
        }
    }

    /// TooHigh, or else IrqTaken by the guest's console, or else by another guest.
    pub(crate) fn irq_reason(
        &self,
        alloc: Global,
        owner: Owner,
        number: u32,
    ) -> Result<Option<Why>, AllocError>
        ensures { IfOk result (λ why. (before : List Passed) → Stands owner.guest before self.now → why ≡ irq_reasons owner.guest number before) }
    {
        if self.is_past_spis(owner, number) {
            return Ok(Some(Why::TooHigh));
        }
        match self.irq_of_console(alloc, owner, number)? {
            Some(why) => Ok(Some(why)),
            None => self.irq_of_another(alloc, owner, number),
        }
    }
}
