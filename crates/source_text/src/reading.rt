// What is read of a text so far.
ghost use Rattle.std.specs.Prelude.{◌≡◌, ◌++◌, ◌∷◌, [], ℕ, IfOk, OnOk};
ghost use Rattle.std.specs.Int.{w32, to_be_bytes};
ghost use Rattle.source_text.specs.PrivateTurns.{depth_behind};
ghost use Rattle.source_text.specs.PrivateReadings.{Built, IsRead, act, unread, with_reserve};

use crate::growing::{Growing, close, give, open};
use crate::state::Action;
use fdt_tree::{Reserve, Tree};
use std::alloc::{AllocError, Global};
use texts::List;

/// What is read of a text so far.
#[derive(Drop)]
pub(crate) struct Reading {
    /// The last name.
    pub(crate) name: Vec<u8>,
    /// The last value.
    pub(crate) value: Vec<u8>,
    /// The last address of a reservation.
    pub(crate) address: u64,
    /// The reservations.
    pub(crate) reserves: List<Reserve>,
    /// The tree.
    pub(crate) growing: Growing,
}

/// Nothing is read.
pub(crate) fn start(alloc: Global) -> Result<Reading, AllocError>
    ensures { IfOk result (λ reading. IsRead unread 0 reading) }
{
    let tree = Tree::new(alloc)?;
    let current = tree.root();
    Ok(Reading {
        name: Vec::new(alloc),
        value: Vec::new(alloc),
        address: 0,
        reserves: List::new(alloc),
        growing: Growing { tree, current },
    })
}

/// Adds a reservation, but for a pair of two zeros.
fn add_reserve(reserves: &mut List<Reserve>, address: u64, size: u64) -> Result<(), AllocError>
    ensures { OnOk result (reserves.new ≡ with_reserve reserves.old address size) }
{
    if address == 0 && size == 0 {
        return Ok(());
    }
    reserves.push(Reserve { address, size })
}

/// Adds a byte to a value. No number of more than 8 bits is read.
fn push_byte(value: &mut Vec<u8>, number: u16) -> Result<(), AllocError>
    ensures { OnOk result (value.new.items ≡ value.old.items ++ number ∷ []) }
{
    match u8::try_from(number) {
        Ok(byte) => {
            value.push(byte)?;
            Ok(())
        }
        Err(_) => Err(AllocError),
    }
}

/// Adds a big-endian word to a value. No number of more than 32 bits is read.
fn push_word(value: &mut Vec<u8>, number: u64) -> Result<(), AllocError>
    ensures { OnOk result (value.new.items ≡ value.old.items ++ to_be_bytes w32 number) }
{
    match u32::try_from(number) {
        Ok(word) => value.extend_from_slice(&word.to_be_bytes()),
        Err(_) => Err(AllocError),
    }
}

/// How many nodes are open above the innermost one, behind an action.
pub(crate) fn depth_behind(action: Action, depth: u32) -> Result<u32, AllocError>
    ensures { IfOk result (λ behind. behind ≡ depth_behind action depth) }
{
    match action {
        Action::Open => match depth.checked_add(1) {
            Some(deeper) => Ok(deeper),
            None => Err(AllocError),
        },
        Action::Close => { if depth == 0 { Ok(0) } else { Ok(depth - 1) } }
        _ => Ok(depth),
    }
}

/// Takes what a byte adds.
pub(crate) fn take(reading: &mut Reading, action: Action, c: u8) -> Result<(), AllocError>
    requires { (b : Built) × (depth : ℕ) × IsRead b depth reading.old }
    ensures { (b : Built) (depth : ℕ) → IsRead b depth reading.old → OnOk result (IsRead (act action c b) (depth_behind action depth) reading.new) }
{
    match action {
        Action::Pass => Ok(()),
        Action::StartName => {
            reading.name.clear();
            reading.name.push(c)?;
            Ok(())
        }
        Action::PushName => {
            reading.name.push(c)?;
            Ok(())
        }
        Action::SetAddress(number) => {
            reading.address = number;
            Ok(())
        }
        Action::AddReserve(number) => add_reserve(&mut reading.reserves, reading.address, number),
        Action::StartValue => {
            reading.value.clear();
            Ok(())
        }
        Action::PushByte(number) => push_byte(&mut reading.value, number),
        Action::PushWord(number) => push_word(&mut reading.value, number),
        Action::Give => give(&mut reading.growing, &reading.name, &reading.value),
        Action::GiveEmpty => give(&mut reading.growing, &reading.name, b""),
        Action::Open => open(&mut reading.growing, &reading.name),
        Action::Close => close(&mut reading.growing),
    }
}
