// Values that are groups of words.
ghost use Rattle.std.specs.Prelude.{◌≡◌, ◌≤◌, ◌<◌, ◌+◌, ◌-◌, ◌^◌, IfOk, IfSome, length, drop, true, false, Some};
ghost use Rattle.std.specs.List.{list_all};
ghost use Rattle.ib_config.specs.Rules.{words_of, range_of, pairs, region_of, shm_groups, port_of, port_groups, is_shm_id, is_id_byte, number_between as number_within};
ghost use Rattle.ib_config.specs.PrivateWords.{word_at, after_word, from_word};

use crate::assignments::copy_text;
use crate::classes::{Class, is_digit_byte, is_letter_byte, split_run};
use crate::lines::as_text;
use crate::values::{number, number_between};
use std::alloc::{AllocError, Global};
use texts::{BaseSize, List, Text};

/// A memory region that guests share: its id, the host and the guest address of its first byte, and its size in bytes.
#[derive(Drop)]
pub struct ShmGroup {
    pub id: Text,
    pub host: u64,
    pub guest: u64,
    pub size: u64,
}

/// An event channel of a guest: its port, the number of the peer guest, and the peer's port.
#[derive(Clone, Copy, PartialEq, Eq)]
pub struct PortGroup {
    pub port: u32,
    pub peer: u32,
    pub peer_port: u32,
}

/// A text from its first word on.
fn skip_spaces(text: &[u8]) -> &[u8]
    ensures { result.now ≡ from_word text.now }
{
    split_run(text, Class::Space).1
}

/// The word that a text begins with, and the text from its next word on.
fn next_word(text: &[u8]) -> (&[u8], &[u8])
    ensures word { result.0.now ≡ word_at text.now }
    ensures rest { result.1.now ≡ after_word text.now }
{
    let (word, rest) = split_run(text, Class::Until(b' '));
    (word, skip_spaces(rest))
}

/// BASE SIZE, and what follows.
fn range_at(text: &[u8]) -> (Option<BaseSize>, &[u8])
    ensures range { result.0 ≡ range_of (word_at text.now) (word_at (after_word text.now)) }
    ensures rest { result.1.now ≡ after_word (after_word text.now) }
{
    let (base, rest) = next_word(text);
    let (size, rest) = next_word(rest);
    (range_in(base, size), rest)
}

fn range_in(base: &[u8], size: &[u8]) -> Option<BaseSize>
    ensures { result ≡ range_of base.now size.now }
{
    Some(BaseSize {
        base: number(base)?,
        size: number(size)?,
    })
}

/// The groups BASE SIZE of a text, or none where a word is missing or no number.
pub(crate) fn read_ranges(alloc: Global, text: &[u8]) -> Result<Option<List<BaseSize>>, AllocError>
    ensures { IfOk result (λ ranges. ranges ≡ pairs (words_of text.now)) }
{
    let mut ranges = List::new(alloc);
    let mut rest = skip_spaces(text);
    while !rest.is_empty() {
        let (range, more) = range_at(rest);
        match range {
            Some(range) => ranges.push(range)?,
            None => return Ok(None),
        }
        rest = more;
    }
    Ok(Some(ranges))
}

/// PORT PEER PEERPORT, and what follows.
fn port_at(text: &[u8]) -> (Option<PortGroup>, &[u8])
    ensures group { result.0 ≡ port_of (word_at text.now) (word_at (after_word text.now)) (word_at (after_word (after_word text.now))) }
    ensures rest { result.1.now ≡ after_word (after_word (after_word text.now)) }
{
    let (port, rest) = next_word(text);
    let (peer, rest) = next_word(rest);
    let (peer_port, rest) = next_word(rest);
    (port_in(port, peer, peer_port), rest)
}

fn port_in(port: &[u8], peer: &[u8], peer_port: &[u8]) -> Option<PortGroup>
    ensures { result ≡ port_of port.now peer.now peer_port.now }
{
    Some(PortGroup {
        port: small_number(port)?,
        peer: small_number(peer)?,
        peer_port: small_number(peer_port)?,
    })
}

/// The number below 2^32 that a word spells.
fn small_number(word: &[u8]) -> Option<u32>
    ensures { result ≡ number_within 0 (2 ^ 32 - 1) word.now }
{
    match number_between(0, 0xffff_ffff, word) {
        Some(n) => Some(n as u32),
        None => None,
    }
}

/// The groups PORT PEER PEERPORT of a text, or none where a word is missing or no number below 2^32.
pub(crate) fn read_ports(alloc: Global, text: &[u8]) -> Result<Option<List<PortGroup>>, AllocError>
    ensures { IfOk result (λ ports. ports ≡ port_groups (words_of text.now)) }
{
    let mut ports = List::new(alloc);
    let mut rest = skip_spaces(text);
    while !rest.is_empty() {
        let (port, more) = port_at(rest);
        match port {
            Some(port) => ports.push(port)?,
            None => return Ok(None),
        }
        rest = more;
    }
    Ok(Some(ports))
}

/// ID HOST GUEST SIZE, and what follows.
fn region_at(alloc: Global, text: &[u8]) -> Result<(Option<ShmGroup>, &[u8]), AllocError>
    ensures { IfOk result (λ found. (found.0 ≡ region_of (word_at text.now) (word_at (after_word text.now)) (word_at (after_word (after_word text.now)))
        (word_at (after_word (after_word (after_word text.now)))))
        × (found.1.now ≡ after_word (after_word (after_word (after_word text.now))))) }
{
    let (id, rest) = next_word(text);
    let (host, rest) = next_word(rest);
    let (guest, rest) = next_word(rest);
    let (size, rest) = next_word(rest);
    let region = region_in(alloc, id, host, guest, size)?;
    Ok((region, rest))
}

fn region_in(
    alloc: Global,
    id: &[u8],
    host: &[u8],
    guest: &[u8],
    size: &[u8],
) -> Result<Option<ShmGroup>, AllocError>
    ensures { IfOk result (λ region. region ≡ region_of id.now host.now guest.now size.now) }
{
    if !is_shm_id(id) {
        return Ok(None);
    }
    match (number(host), number(guest), number(size)) {
        (Some(host), Some(guest), Some(size)) => Ok(Some(ShmGroup {
            id: copy_id(alloc, id)?,
            host,
            guest,
            size,
        })),
        _ => Ok(None),
    }
}

/// 1 to 15 letters, digits, `_` and `-`.
fn is_shm_id(id: &[u8]) -> bool
    ensures { result ≡ is_shm_id id.now }
{
    1 <= id.len() && id.len() <= 15 && all_id_bytes(id)
}

fn all_id_bytes(id: &[u8]) -> bool
    ensures { result ≡ list_all is_id_byte id.now }
{
    id.iter().all(|c| is_id_character(*c))
}

fn is_id_character(c: u8) -> bool
    ensures { result ≡ is_id_byte c }
{
    is_letter_byte(c) || is_digit_byte(c) || c == b'_' || c == b'-'
}

#[tactic(auto, using(crate::proofs::WordLemmas::id_is_text))]
fn copy_id(alloc: Global, id: &[u8]) -> Result<Text, AllocError>
    requires { is_shm_id id.now ≡ true }
    ensures { IfOk result (λ copy. copy ≡ id.now) }
{
    copy_text(alloc, as_text(id))
}

/// The groups ID HOST GUEST SIZE of a text, or none where a word is missing or outside its rule.
pub(crate) fn read_regions(alloc: Global, text: &[u8]) -> Result<Option<List<ShmGroup>>, AllocError>
    ensures { IfOk result (λ regions. regions ≡ shm_groups (words_of text.now)) }
{
    let mut regions = List::new(alloc);
    let mut rest = skip_spaces(text);
    while !rest.is_empty() {
        let (region, more) = region_at(alloc, rest)?;
        match region {
            Some(region) => regions.push(region)?,
            None => return Ok(None),
        }
        rest = more;
    }
    Ok(Some(regions))
}
