// The interrupts that devices have.
ghost use Rattle.passthrough_dtb.specs.declared.interrupts.Interrupt.{Interrupt as Interrupts};
ghost use Rattle.std.specs.Prelude.{◌≡◌, ◌<◌, ◌≤◌, ◌++◌, ◌∷◌, [], ℕ, List, length, map, flat_map, option_map, OnOk, IfOk};
ghost use Rattle.std.specs.Option.{option_map_or, IsSome};
ghost use Rattle.std.specs.BTreeMap.{get};
ghost use Rattle.std.specs.Ordering.{nat_cmp};
ghost use Rattle.described.specs.declared.item.Part.TheVariants as parts;
ghost use Rattle.fdt_tree.specs.Tree.{Bytes};
ghost use Rattle.fdt_nodes.specs.Entries.{split_entries};
ghost use Rattle.passthrough_dtb.specs.Interrupts.{interrupt_in, interrupts_in, is_no_spi, interrupt_reason, interrupts_from, irq_items};
ghost use Rattle.passthrough_dtb.specs.PrivateTables.{Tells, AreTables};
ghost use Rattle.passthrough_dtb.specs.Whole.{item_in};
ghost use Rattle.passthrough_dtb.specs.PrivateHeld.{device_of, IsDevice, AreDevices};

use crate::devices::Device;
use crate::items::item_in;
use described::{Described, Item, Part, What, Why, described};
use fdt_nodes::{path, with_index};
use fdt_tree::{NodeId, Tree, u32_of};
use std::alloc::{AllocError, Global};
use std::collections::BTreeMap;
use texts::List;

// How many numbers a shared peripheral interrupt may have.
const SPI_COUNT: usize = 988;

// How many bytes an interrupt takes: kind, number and flags.
const INTERRUPT_BYTES: usize = 12;

// Of nodes of the host the interrupts, by number.
type Tables = BTreeMap<NodeId, Vec<bool>>;

/// An interrupt of a GIC: its kind, 0 for a shared peripheral interrupt, and its number among those of its kind.
#[derive(Clone, Copy)]
pub struct Interrupt {
    pub kind: u32,
    pub number: u32,
}

/// The interrupt that three cells say.
fn interrupt_in(entry: &[u8]) -> Interrupt
    requires { 12 ≤ length entry.now }
    ensures { result ≡ interrupt_in entry.now }
{
    let Ok(kind) = u32_of(&entry[..4]) else {
        unreachable!()
    };
    let Ok(number) = u32_of(&entry[4..8]) else {
        unreachable!()
    };
    Interrupt { kind, number }
}

/// Notes an interrupt in a table, where it is shared and has a number up to 987.
fn note(table: &mut Vec<bool>, interrupt: Interrupt)
    requires { length table.old.items ≡ 988 }
    ensures whole { length table.new.items ≡ 988 }
    ensures noted { (left all : List Interrupts) → Tells table.old.items (interrupt ∷ left) all → Tells table.new.items left all }
{
    if interrupt.kind == 0 {
        let number = interrupt.number as usize;
        if number < SPI_COUNT {
            table[number] = true;
        }
    }
}

/// Notes all interrupts of a value.
fn note_all(table: &mut Vec<bool>, value: &[u8])
    requires { length table.old.items ≡ 988 }
    ensures whole { length table.new.items ≡ 988 }
    ensures noted { (all : List Interrupts) → Tells table.old.items (map interrupt_in (split_entries 3 value.now)) all → Tells table.new.items [] all }
{
    let mut rest = value;
    while rest.len() >= INTERRUPT_BYTES {
        let (entry, more) = rest.split_at(INTERRUPT_BYTES);
        note(table, interrupt_in(entry));
        rest = more;
    }
}

/// Notes all interrupts of a node's value, if it has one that is whole.
fn note_value(table: &mut Vec<bool>, value: Option<&[u8]>)
    requires { length table.old.items ≡ 988 }
    ensures whole { length table.new.items ≡ 988 }
    ensures noted { (all : List Interrupts) → Tells table.old.items (option_map_or interrupts_in (option_map (λ v. v.now) value.entry) []) all → Tells table.new.items [] all }
{
    match value {
        None => {}
        Some(bytes) => {
            if bytes.len() % INTERRUPT_BYTES == 0 {
                note_all(table, bytes);
            }
        }
    }
}

/// The interrupts of a host's node, by number.
fn table_of(alloc: Global, value: Option<&[u8]>) -> Result<Vec<bool>, AllocError>
    ensures whole { IfOk result (λ table. length table.items ≡ 988) }
    ensures tells { IfOk result (λ table. Tells table.items [] (option_map_or interrupts_in (option_map (λ v. v.now) value.entry) [])) }
{
    let mut table = vec![in alloc; false; SPI_COUNT]?;
    note_value(&mut table, value);
    Ok(table)
}

/// The first reason against an interrupt, where the host's node has those of the table.
fn interrupt_reason(table: &[bool], interrupt: Interrupt) -> Option<Why>
    requires { length table.now ≡ 988 }
    ensures { (held : List Interrupts) → Tells table.now [] held → result ≡ interrupt_reason held interrupt }
{
    if interrupt.kind != 0 || interrupt.number > 987 {
        return Some(Why::BadValue);
    }
    if !table[interrupt.number as usize] {
        return Some(Why::IrqNotHost);
    }
    None
}

/// Adds the items of the interrupts of one device. All share the path of the first.
fn add_interrupts_of(
    alloc: Global,
    first: &Item,
    table: &[bool],
    value: &[u8],
    items: &mut List<Described>,
) -> Result<(), AllocError>
    requires { length table.now ≡ 988 }
    ensures { (guest : ℕ) (path : Bytes) (held : List Interrupts) → first.now ≡ item_in parts.Irq guest path 0 → Tells table.now [] held → OnOk result (items.new ≡ items.old ++ interrupts_from guest path held 0 (interrupts_in value.now)) }
{
    if value.len() % INTERRUPT_BYTES != 0 {
        return Ok(());
    }
    let mut number = 0u64;
    let mut rest = value;
    while rest.len() >= INTERRUPT_BYTES {
        let (entry, more) = rest.split_at(INTERRUPT_BYTES);
        let interrupt = interrupt_in(entry);
        let own = interrupt_reason(table, interrupt);
        let item = with_index(alloc, first, number)?;
        items.push(described(
            item,
            own,
            What::Irq {
                number: interrupt.number,
            },
        ))?;
        number += 1;
        rest = more;
    }
    Ok(())
}

/// Reads the interrupts of a host's node, unless they are read already: many devices may name one node.
fn read_once(
    alloc: Global,
    host: &Tree,
    node: NodeId,
    tables: &mut Tables,
) -> Result<(), AllocError>
    requires live { node < length host.now.places }
    requires tables { AreTables host.now tables.old }
    ensures tables { OnOk result (AreTables host.now tables.new) }
    ensures there { OnOk result (IsSome (get nat_cmp tables.new node)) }
{
    if !tables.contains_key(&node) {
        let table = table_of(alloc, host.prop(node, b"interrupts"))?;
        tables.insert(node, table)?;
    }
    Ok(())
}

/// Adds the items of the interrupts of one device, where the tables have those of the host's nodes that were read.
fn add_device(
    alloc: Global,
    partial: &Tree,
    host: &Tree,
    guest: u32,
    device: &Device,
    tables: &mut Tables,
    items: &mut List<Described>,
) -> Result<(), AllocError>
    requires device { IsDevice partial.now host.now device.now }
    requires tables { AreTables host.now tables.old }
    ensures items { OnOk result (items.new ≡ items.old ++ irq_items host.now.tree guest (device_of partial.now device.now)) }
    ensures tables { OnOk result (AreTables host.now tables.new) }
{
    let Some(value) = partial.prop(device.node, b"interrupts") else {
        return Ok(());
    };
    let path = path(alloc, partial, device.node)?;
    let first = item_in(alloc, Part::Irq, guest, path.as_slice(), 0)?;
    let Some(node) = device.on_host else {
        let table = table_of(alloc, None)?;
        return add_interrupts_of(alloc, &first, &table, value, items);
    };
    read_once(alloc, host, node, tables)?;
    match tables.get(&node) {
        None => unreachable!(),
        Some(table) => add_interrupts_of(alloc, &first, table, value, items),
    }
}

/// Adds the items of the interrupts of devices.
pub(crate) fn add_interrupts(
    alloc: Global,
    partial: &Tree,
    host: &Tree,
    guest: u32,
    devices: &[Device],
    items: &mut List<Described>,
) -> Result<(), AllocError>
    requires { AreDevices partial.now host.now devices.now }
    ensures { OnOk result (items.new ≡ items.old ++ flat_map (irq_items host.now.tree guest) (map (device_of partial.now) devices.now)) }
{
    let mut tables = BTreeMap::new(alloc);
    for device in devices {
        add_device(alloc, partial, host, guest, device, &mut tables, items)?;
    }
    Ok(())
}
