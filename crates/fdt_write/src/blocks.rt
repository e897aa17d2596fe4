// The blocks of a flattened tree, each after what was written before. After want of memory what was written is no
// matter.
ghost use Rattle.std.specs.Prelude.{◌≡◌, ◌++◌, ◌∷◌, [], ◌+◌, ◌-◌, ◌≤◌, ◌<◌, ◌^◌, length, flat_map, replicate, true, OnOk};
ghost use Rattle.fdt_read.specs.Tokens.{padded};
ghost use Rattle.fdt_write.specs.Blocks.{word_bytes, wide_bytes, with_padding, reserve_bytes, reservation_bytes, token_bytes, structure_bytes};
ghost use Rattle.fdt_write.specs.Flattened.{header_bytes, length_limit};
ghost use Rattle.fdt_write.specs.PrivateHeld.{held};
ghost use Rattle.fdt_write.specs.Meaning.{meaning};
ghost use Rattle.fdt_write.specs.Strings.{ended, strings, strings_of};
ghost use Rattle.fdt_write.specs.PrivateUsed.{is_named};

use crate::names::Names;
use crate::tree_tokens::{TreeToken, TreeTokens};
use byteorder::{BigEndian, ByteOrder};
use fdt_tree::{Reserve, Tree};
use std::alloc::AllocError;

/// Writes a number as four bytes, the most significant first.
fn push_word(out: &mut Vec<u8>, number: u32) -> Result<(), AllocError>
    ensures { OnOk result (out.new.items ≡ out.old.items ++ word_bytes number) }
{
    let mut spelled = [0; 4];
    BigEndian::write_u32(&mut spelled, number);
    out.extend_from_slice(&spelled)
}

/// Writes a number as eight bytes, the most significant first.
fn push_wide(out: &mut Vec<u8>, number: u64) -> Result<(), AllocError>
    ensures { OnOk result (out.new.items ≡ out.old.items ++ wide_bytes number) }
{
    let mut spelled = [0; 8];
    BigEndian::write_u64(&mut spelled, number);
    out.extend_from_slice(&spelled)
}

/// Writes so many zeros, at most three.
fn push_zeros(out: &mut Vec<u8>, count: usize) -> Result<(), AllocError>
    requires { count ≤ 3 }
    ensures { OnOk result (out.new.items ≡ out.old.items ++ replicate count 0) }
{
    out.extend_from_slice(&[0; 3][..count])
}

/// How many zeros follow so many bytes, up to a multiple of four.
fn padding_of(length: usize) -> usize
    requires { length ≤ 2 ^ 63 }
    ensures padding { result ≡ padded length - length }
    ensures few { result ≤ 3 }
{
    4 * ((length + 3) / 4) - length
}

/// Writes a name, its NUL and the padding after them.
fn push_name(out: &mut Vec<u8>, name: &[u8]) -> Result<(), AllocError>
    ensures { OnOk result (out.new.items ≡ out.old.items ++ with_padding (ended name.now)) }
{
    out.extend_from_slice(name)?;
    out.push(0)?;
    push_zeros(out, padding_of(name.len() + 1))
}

/// Writes a value and the padding after it.
fn push_value(out: &mut Vec<u8>, value: &[u8]) -> Result<(), AllocError>
    ensures { OnOk result (out.new.items ≡ out.old.items ++ with_padding value.now) }
{
    out.extend_from_slice(value)?;
    push_zeros(out, padding_of(value.len()))
}

/// Writes a PROP (5.4.1) whose name has this offset in the strings block.
fn push_property(out: &mut Vec<u8>, offset: u32, value: &[u8]) -> Result<(), AllocError>
    requires { length value.now < 2 ^ 32 }
    ensures { OnOk result (out.new.items ≡ out.old.items ++ (word_bytes 3 ++ (word_bytes (length value.now) ++ (word_bytes offset ++ with_padding value.now)))) }
{
    push_word(out, 3)?;
    push_word(out, value.len() as u32)?;
    push_word(out, offset)?;
    push_value(out, value)
}

/// Writes a token (5.4.1), where `names` has the name that it uses.
fn push_token(out: &mut Vec<u8>, names: &Names<'_>, token: &TreeToken<'_>) -> Result<(), AllocError>
    requires named { is_named (held names.now) (meaning token.now) ≡ true }
    requires names_fit { length (strings_of (held names.now)) ≤ length_limit }
    requires fits { length (token_bytes (held names.now) (meaning token.now)) ≤ length_limit }
    ensures { OnOk result (out.new.items ≡ out.old.items ++ token_bytes (held names.now) (meaning token.now)) }
{
    match token {
        TreeToken::BeginNode(name) => {
            push_word(out, 1)?;
            push_name(out, name)
        }
        TreeToken::Property(name, value) => {
            let offset = names.offset(name).unwrap_or(0);
            push_property(out, offset as u32, value)
        }
        TreeToken::EndNode => push_word(out, 2),
        TreeToken::End => push_word(out, 9),
    }
}

/// Writes the structure block (5.4).
pub(crate) fn push_structure(
    out: &mut Vec<u8>,
    tree: &Tree,
    names: &Names<'_>,
) -> Result<(), AllocError>
    requires names { held names.now ≡ strings tree.now.tree }
    requires names_fit { length (strings_of (strings tree.now.tree)) ≤ length_limit }
    requires fits { length (structure_bytes tree.now.tree) ≤ length_limit }
    ensures { OnOk result (out.new.items ≡ out.old.items ++ structure_bytes tree.now.tree) }
{
    for token in TreeTokens::new(tree) {
        push_token(out, names, &token)?;
    }
    Ok(())
}

/// Writes the address and the size of a reservation.
fn push_reserve(out: &mut Vec<u8>, reserve: Reserve) -> Result<(), AllocError>
    ensures { OnOk result (out.new.items ≡ out.old.items ++ reserve_bytes reserve) }
{
    push_wide(out, reserve.address)?;
    push_wide(out, reserve.size)
}

/// Writes the reservation block (5.3).
pub(crate) fn push_reserves(out: &mut Vec<u8>, reserves: &[Reserve]) -> Result<(), AllocError>
    ensures { OnOk result (out.new.items ≡ out.old.items ++ reservation_bytes reserves.now) }
{
    for reserve in reserves {
        push_reserve(out, *reserve)?;
    }
    out.extend_from_slice(&[0; 16])
}

/// Writes the header (5.2), for blocks of these sizes in bytes.
pub(crate) fn push_header(
    out: &mut Vec<u8>,
    boot: u32,
    reserved: u32,
    structured: u32,
    named: u32,
) -> Result<(), AllocError>
    requires { 40 + reserved + structured + named < 2 ^ 32 }
    ensures { OnOk result (out.new.items ≡ out.old.items ++ header_bytes boot reserved structured named) }
{
    let structure = 40 + reserved;
    let strings = structure + structured;
    let words = [
        0xd00dfeed,
        strings + named,
        structure,
        strings,
        40,
        17,
        16,
        boot,
        named,
        structured,
    ];
    push_words(out, &words)
}

/// Writes words, each as four bytes.
fn push_words(out: &mut Vec<u8>, words: &[u32]) -> Result<(), AllocError>
    ensures { OnOk result (out.new.items ≡ out.old.items ++ flat_map word_bytes words.now) }
{
    for word in words {
        push_word(out, *word)?;
    }
    Ok(())
}
