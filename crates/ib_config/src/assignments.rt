// What the lines of a configuration assign.
ghost use Rattle.std.specs.Prelude.{◌≡◌, ◌<◌, IfOk, OnOk, option_map, ◌≤◌, ◌+◌, IsTrue, Ok, Some, slice_get, None, [], drop, length};
ghost use Rattle.std.specs.Option.{option_copied};
ghost use Rattle.std.specs.Str.Lines.{strip_carriage_return};
ghost use Rattle.ib_config.specs.Variables.{text_at};
ghost use Rattle.ib_config.specs.Settings.{Gives};
ghost use Rattle.ib_config.specs.PrivateScan.{held, nothing_assigned, assign, assign_some, rest_read, not_feed, file_read, view, line_at, after_line};

use crate::classes::{Class, split_run};
use crate::fault::ConfigFault;
use crate::lines::{Found, read_line, skip_one};
use indexmap::IndexMap;
use std::alloc::{AllocError, Global};
use std::marker::Model;
use texts::Text;

/// A variable: its name, and the index that it has, if any.
#[derive(PartialEq, Eq, Hash, Drop)]
pub(crate) struct Key {
    pub(crate) name: Text,
    pub(crate) index: Option<u32>,
}

/// The last text of each key that is assigned, in the order of the first assignments.
#[derive(Drop)]
pub(crate) struct Assignments {
    map: IndexMap<Key, Text>,
}

impl Model for Assignments {
    ghost use Rattle.std.specs.Prelude.{ℕ, List};
    ghost use Rattle.ib_config.specs.declared.assignments.Key.{Key as TheKey};

    ghost Value = { List (TheKey × List ℕ) };

    ghost view = { λ a. a.map.entries };
}

impl Assignments {
    /// Nothing assigned. Takes no memory.
    fn new(alloc: Global) -> Assignments
        ensures { held result ≡ nothing_assigned }
    {
        Assignments {
            map: IndexMap::new(alloc),
        }
    }

    /// Notes what a line assigns.
    fn assign(&mut self, alloc: Global, found: Found<'_>) -> Result<(), AllocError>
        ensures { OnOk result (held self.new ≡ assign (held self.old) (view found.entry)) }
    {
        let key = make_key(alloc, found.name, found.index)?;
        let text = copy_text(alloc, found.text)?;
        self.insert(key, text)
    }

    fn insert(&mut self, key: Key, text: Text) -> Result<(), AllocError>
        ensures { OnOk result (held self.new ≡ assign (held self.old) (record { key = key; text = text })) }
    {
        self.map.insert(key, text)?;
        Ok(())
    }

    /// Notes what a line assigns, if it says something.
    fn note(&mut self, alloc: Global, found: Option<Found<'_>>) -> Result<(), AllocError>
        ensures { OnOk result (held self.new ≡ assign_some (held self.old) (option_map view found.entry)) }
    {
        match found {
            Some(found) => self.assign(alloc, found),
            None => Ok(()),
        }
    }

    /// How many keys are assigned.
    pub(crate) fn len(&self) -> usize
        ensures { result ≡ length (held self.now).keys }
    {
        self.map.len()
    }

    /// A key by its place in the order of the first assignments, from 0 on.
    pub(crate) fn key(&self, place: usize) -> &Key
        requires { place < length (held self.now).keys }
        ensures { slice_get (held self.now).keys place ≡ Some result.now }
    {
        match self.map.get_index(place) {
            Some((key, _)) => key,
            None => unreachable!(),
        }
    }

    /// The text of a name and an index. Takes memory for the key.
    pub(crate) fn text(
        &self,
        alloc: Global,
        name: &str,
        index: Option<u32>,
    ) -> Result<Option<&Text>, AllocError>
        ensures { IfOk result (λ text. option_copied text ≡ text_at (held self.now) name.now index) }
    {
        let key = make_key(alloc, name, index)?;
        Ok(self.map.get(&key))
    }
}

/// A copy of a text.
pub(crate) fn copy_text(alloc: Global, text: &str) -> Result<Text, AllocError>
    ensures { IfOk result (λ copy. copy ≡ text.now) }
{
    let mut copy = Text::new(alloc);
    copy.append(text)?;
    Ok(copy)
}

fn make_key(alloc: Global, name: &str, index: Option<u32>) -> Result<Key, AllocError>
    ensures { IfOk result (λ key. key ≡ record { name = name.now; index = index }) }
{
    Ok(Key {
        name: copy_text(alloc, name)?,
        index,
    })
}

/// The first line, without its line feed and the carriage return before that, and what follows it.
fn cut_line(bytes: &[u8]) -> (&[u8], &[u8])
    ensures line { result.0.now ≡ line_at bytes.now }
    ensures rest { result.1.now ≡ after_line bytes.now }
    ensures shorter { 0 < length bytes.now → length result.1.now < length bytes.now }
{
    let (line, rest) = split_run(bytes, Class::Until(b'\n'));
    (without_return(line), skip_one(rest))
}

pub(crate) fn without_return(line: &[u8]) -> &[u8]
    ensures { result.now ≡ strip_carriage_return line.now }
{
    match line {
        [front @ .., b'\r'] => front,
        _ => line,
    }
}

/// What the lines of a file assign, or the first line at fault.
#[tactic(auto, using(crate::proofs::AssignLemmas::read_lemmas))]
pub(crate) fn read_assignments(alloc: Global, bytes: &[u8]) -> Result<Assignments, ConfigFault>
    ensures { Gives (λ a. held a) result (file_read bytes.now) }
{
    let mut assignments = Assignments::new(alloc);
    let mut rest = bytes;
    let mut number: u64 = 1;
    while !rest.is_empty() {
        let (line, more) = cut_line(rest);
        let found = read_line(number, line)?;
        assignments.note(alloc, found)?;
        rest = more;
        number += 1;
    }
    Ok(assignments)
}
