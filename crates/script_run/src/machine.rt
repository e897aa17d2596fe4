// A machine that runs boot scripts.
ghost use Rattle.std.specs.Prelude.{◌≡◌, ◌≤◌, ◌++◌, ◌∷◌, [], None, not, true, OnOk, IfOk, IfErr, flat_map, length};
ghost use Rattle.std.specs.Option.{option_or};
ghost use Rattle.ib_config.specs.Runs.{run_of};
ghost use Rattle.std.specs.Int.{w32, to_be_bytes};
ghost use Rattle.script_run.specs.Effect.{piece_bytes as bytes_of_piece, value_bytes as bytes_of_value, taken_address, is_load, is_taken, first_address as address_of_first, last_index, loads_at, is_addr, tree_load_of, tree_size as size_of_tree, edited_tree, why_of, has_good_name, CanRun, HasEffect, IsStopped};
ghost use Rattle.fdt_tree.specs.Tree.{is_node_name, is_property_name};
ghost use Rattle.ib_script.specs.declared.command.Command.TheVariants.{Mknod, Set};
ghost use Rattle.script_run.specs.PrivateMoves.{IsMoved, left_behind, first_or_0, stop_of, fault_of};

use described::Loaded;
use fdt_tree::{EditFault, Tree};
use ib_script::{Command, Piece};
use std::alloc::{AllocError, Global};
use std::marker::Model;
use texts::{Bytes, List, Text};

/// Why a command is refused.
#[derive(Clone, Copy, Debug, PartialEq, Eq, Drop)]
pub enum StepWhy {
    /// The path finds no node.
    NoNode,
    /// The node has a child of that name.
    Exists,
    /// The node stands at the greatest depth, 32, the root's being 1.
    Deep,
    /// No tree was taken, or the one that is taken was not loaded, or is not the one that was taken first.
    NoTree,
}

/// Why a script was not run to its end.
#[derive(Clone, Copy, Debug, PartialEq, Eq, Drop)]
pub enum StepFault {
    /// This command, counted from 1, is refused.
    Step(u64, StepWhy),
    /// Memory ran out.
    Memory,
}

/// Why a command was not run.
#[derive(Clone, Copy)]
pub(crate) enum Stop {
    Refused(StepWhy),
    Memory,
}

impl From<AllocError> for Stop {
    ghost use Rattle.script_run.specs.declared.machine.Stop.TheVariants.{Memory};

    ghost from_gives = { λ _ stop. stop ≡ Memory };

    fn from(_: AllocError) -> Stop {
        Stop::Memory
    }
}

/// A machine that runs boot scripts: its device tree, the files loaded so far, and the length of the tree's file in bytes.
#[derive(Drop)]
pub struct Machine {
    tree: Tree,
    loads: List<Loaded>,
    tree_length: u64,
}

impl Model for Machine {
    ghost use Rattle.script_run.specs.State.{State};

    ghost Value = { State };

    ghost use Rattle.script_run.specs.StateCode.{coded_state};

    ghost coded = { coded_state };

    ghost view = { λ m. record { tree = m.tree; loads = m.loads; tree_length = m.tree_length } };
}

impl Machine {
    /// A machine with a tree whose file has this length in bytes. It loaded nothing yet. Takes no memory.
    pub fn new(alloc: Global, tree: Tree, length: u64) -> Machine
        ensures tree { result.tree ≡ tree }
        ensures loads { result.loads ≡ [] }
        ensures length { result.tree_length ≡ length }
    {
        Machine {
            tree,
            loads: List::new(alloc),
            tree_length: length,
        }
    }

    /// The files loaded so far.
    pub fn loads(&self) -> &List<Loaded>
        ensures { result.now ≡ self.now.loads }
    {
        &self.loads
    }

    /// The tree as the commands so far left it.
    pub fn tree(&self) -> &Tree
        ensures { result.now ≡ self.now.tree }
    {
        &self.tree
    }

    /// Gives back the tree as the commands left it, and the files that were loaded. Takes no memory.
    pub fn into_parts(self) -> (Tree, List<Loaded>)
        ensures { result ≡ (self.tree, self.loads) }
    {
        (self.tree, self.loads)
    }

    /// The length of the tree's file, in bytes.
    fn tree_length(&self) -> u64
        ensures { result ≡ self.now.tree_length }
    {
        self.tree_length
    }

    /// Makes a node below the one at a path, where a tree was taken.
    fn make_node(&mut self, first: Option<u64>, path: &Text, name: &Text) -> Result<(), Stop>
        requires { is_node_name name.now ≡ true }
        ensures { IsMoved None 0 0 first (Mknod path.now name.now) 0 self.old result self.new }
    {
        if first.is_none() {
            return Err(Stop::Refused(StepWhy::NoTree));
        }
        match self.tree.mknod(path.as_slice(), name.as_slice()) {
            Ok(_) => Ok(()),
            Err(fault) => Err(why_stopped(fault)),
        }
    }

    /// Sets a property of the node at a path, where a tree was taken.
    fn set_property(
        &mut self,
        alloc: Global,
        first: Option<u64>,
        path: &Text,
        prop: &Text,
        value: &List<Piece>,
    ) -> Result<(), Stop>
        requires { is_property_name prop.now ≡ true }
        ensures { IsMoved None 0 0 first (Set path.now prop.now value.now) 0 self.old result self.new }
    {
        if first.is_none() {
            return Err(Stop::Refused(StepWhy::NoTree));
        }
        let bytes = value_bytes(alloc, value.as_slice())?;
        match self
            .tree
            .set(path.as_slice(), prop.as_slice(), bytes.as_slice())
        {
            Ok(()) => Ok(()),
            Err(fault) => Err(why_stopped(fault)),
        }
    }

    /// Runs the command at an index, behind a first Addr of this address. `load` is the index of the tree's load, `size` the
    /// size of the tree, and `own` the size that was handed in for this command's file.
    fn run_one(
        &mut self,
        alloc: Global,
        load: Option<usize>,
        size: u64,
        index: usize,
        first: Option<u64>,
        command: &Command,
        own: u64,
    ) -> Result<(), Stop>
        requires named { has_good_name command.now ≡ true }
        ensures { IsMoved load size index first command.now own self.old result self.new }
    {
        match command {
            Command::Load { address, name, .. } => {
                let held = if load == Some(index) { size } else { own };
                let file = file_at(alloc, name, *address, held)?;
                self.loads.push(file)?;
                Ok(())
            }
            Command::Addr(address) => {
                if takes(load.is_some(), first, *address) {
                    Ok(())
                } else {
                    Err(Stop::Refused(StepWhy::NoTree))
                }
            }
            Command::Mknod { path, name } => self.make_node(first, path, name),
            Command::Set { path, prop, value } => {
                self.set_property(alloc, first, path, prop, value)
            }
            Command::Resize(_) | Command::SetEnv { .. } | Command::Booti { .. } => Ok(()),
        }
    }
}

/// A file that was loaded, with a copy of its name.
fn file_at(alloc: Global, name: &Text, address: u64, size: u64) -> Result<Loaded, AllocError>
    ensures { IfOk result (λ file. file ≡ record { name = name.now; address = address; size = size }) }
{
    let mut copy = Text::new(alloc);
    copy.append(name.as_str())?;
    Ok(Loaded {
        name: copy,
        address,
        size,
    })
}

/// Whether an Addr is taken.
fn takes(loaded: bool, first: Option<u64>, address: u64) -> bool
    ensures { result ≡ is_taken loaded first address }
{
    match first {
        None => loaded,
        Some(first) => first == address,
    }
}

/// Why an edit was refused.
fn why_stopped(fault: EditFault) -> Stop
    ensures { result ≡ stop_of fault }
{
    match fault {
        EditFault::NoNode => Stop::Refused(StepWhy::NoNode),
        EditFault::Exists => Stop::Refused(StepWhy::Exists),
        EditFault::Deep => Stop::Refused(StepWhy::Deep),
        EditFault::Memory => Stop::Memory,
    }
}

/// Adds the bytes of a cell, the most significant first.
fn put_cells(bytes: &mut Bytes, cells: &[u32]) -> Result<(), AllocError>
    ensures { OnOk result (bytes.new ≡ bytes.old ++ flat_map (to_be_bytes w32) cells.now) }
{
    for cell in cells {
        bytes.append(&cell.to_be_bytes())?;
    }
    Ok(())
}

/// Adds the bytes of a piece.
fn put_piece(bytes: &mut Bytes, piece: &Piece) -> Result<(), AllocError>
    ensures { OnOk result (bytes.new ≡ bytes.old ++ bytes_of_piece piece.now) }
{
    match piece {
        Piece::Cells(cells) => put_cells(bytes, cells.as_slice()),
        Piece::Bytes(more) => bytes.append(more.as_slice()),
        Piece::Word(text) => {
            bytes.append(text.as_slice())?;
            bytes.append(&[0])
        }
    }
}

/// The bytes of a value.
fn value_bytes(alloc: Global, value: &[Piece]) -> Result<Bytes, AllocError>
    ensures { IfOk result (λ bytes. bytes ≡ bytes_of_value value.now) }
{
    let mut bytes = Bytes::new(alloc);
    for piece in value {
        put_piece(&mut bytes, piece)?;
    }
    Ok(bytes)
}

/// The address of the first Addr.
fn first_address(commands: &[Command]) -> Option<u64>
    ensures { result ≡ address_of_first commands.now }
{
    let mut rest = commands;
    while let [command, more @ ..] = rest {
        if let Command::Addr(address) = command {
            return Some(*address);
        }
        rest = more;
    }
    None
}

/// The first Addr, after one command more.
fn first_after(first: Option<u64>, command: &Command) -> Option<u64>
    ensures { result ≡ option_or first (taken_address command.now) }
{
    match first {
        Some(address) => Some(address),
        None => match command {
            Command::Addr(address) => Some(*address),
            _ => None,
        },
    }
}

/// The index of the last load to an address before the first Addr.
fn last_load(commands: &[Command], address: u64) -> Option<usize>
    ensures { result ≡ last_index (loads_at address) (run_of (λ c. not (is_addr c)) commands.now) }
{
    let mut found = None;
    let mut index = 0;
    let mut rest = commands;
    while let [command, more @ ..] = rest {
        match command {
            Command::Addr(_) => return found,
            Command::Load { address: at, .. } => {
                if *at == address {
                    found = Some(index);
                }
            }
            _ => {}
        }
        index += 1;
        rest = more;
    }
    found
}

/// The index of the tree's load: the last load that stands before the first Addr and has its address. None where there is
/// no such load or no Addr.
pub fn tree_load(commands: &List<Command>) -> Option<usize>
    ensures { result ≡ tree_load_of commands.now }
{
    match first_address(commands.as_slice()) {
        Some(address) => last_load(commands.as_slice(), address),
        None => None,
    }
}

/// The size of the tree: that of its file and all Resize numbers, at most 2^64 - 1.
fn tree_size(commands: &[Command], length: u64) -> u64
    ensures { result ≡ size_of_tree commands.now length }
{
    let mut size = length;
    let mut rest = commands;
    while let [command, more @ ..] = rest {
        if let Command::Resize(bytes) = command {
            size = size.saturating_add(*bytes);
        }
        rest = more;
    }
    size
}

/// The sizes that are left behind a command.
fn left_after<'a>(command: &Command, left: &'a [u64]) -> &'a [u64]
    ensures { result.now ≡ left_behind command.now left.now }
{
    match command {
        Command::Load { .. } => match left {
            [] => left,
            [_, others @ ..] => others,
        },
        _ => left,
    }
}

/// The first of the sizes, or 0.
fn own_size(left: &[u64]) -> u64
    ensures { result ≡ first_or_0 left.now }
{
    match left {
        [] => 0,
        [own, ..] => *own,
    }
}

/// The fault of a command that was not run.
fn fault_at(number: u64, stop: Stop) -> StepFault
    ensures { result ≡ fault_of number stop }
{
    match stop {
        Stop::Refused(why) => StepFault::Step(number, why),
        Stop::Memory => StepFault::Memory,
    }
}

/// Runs a script on a machine that loaded nothing yet, with one size in bytes for each Load in their order; that of the
/// tree's load is not read. A refused command is named by its number, counted from 1, and the machine is then as the commands
/// before it left it. After want of memory it is as some number of the first commands left it.
pub fn run(
    alloc: Global,
    commands: &List<Command>,
    sizes: &[u64],
    machine: &mut Machine,
) -> Result<(), StepFault>
    requires { CanRun commands.now sizes.now machine.old }
    ensures effect { OnOk result (HasEffect commands.now sizes.now machine.old machine.new) }
    ensures stopped { IfErr result (IsStopped commands.now sizes.now machine.old machine.new) }
{
    let script = commands.as_slice();
    let load = tree_load(commands);
    let size = tree_size(script, machine.tree_length());
    let mut left = sizes;
    let mut first = None;
    let mut index: usize = 0;
    while index < script.len() {
        let command = &script[index];
        match machine.run_one(alloc, load, size, index, first, command, own_size(left)) {
            Ok(()) => {}
            Err(stop) => return Err(fault_at(index as u64 + 1, stop)),
        }
        left = left_after(command, left);
        first = first_after(first, command);
        index += 1;
    }
    Ok(())
}
