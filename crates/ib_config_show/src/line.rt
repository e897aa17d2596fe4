// Lines that say the value of a variable.
ghost use Rattle.std.specs.Prelude.{◌≡◌, ◌++◌, OnOk, map, string_bytes, decimal};
ghost use Rattle.std.specs.Option.{option_copied, option_map_or};
ghost use Rattle.ib_config.specs.Settings.{shown_key};
ghost use Rattle.ib_config_show.specs.Lines.{line, optional_line, groups_line, switch, unused_line};
ghost use Rattle.ib_config_show.specs.Words.{hex};

use crate::word::{Words, put_groups};
use std::alloc::AllocError;
use texts::{List, Text};

/// Adds NAME or NAME[INDEX] to a text.
fn put_name(out: &mut String, name: &str, index: Option<u32>) -> Result<(), AllocError>
    ensures { OnOk result (string_bytes out.new ≡ string_bytes out.old ++ shown_key (record { name = name.now; index = index })) }
{
    match index {
        Some(index) => write!(out, "{name}[{index}]"),
        None => out.push_str(name),
    }
}

/// Adds the line of a variable and its text.
#[tactic(auto, unfolding(crate::specs::Lines::line))]
pub(crate) fn put_text(
    out: &mut String,
    name: &str,
    index: Option<u32>,
    value: &str,
) -> Result<(), AllocError>
    ensures { OnOk result (string_bytes out.new ≡ string_bytes out.old ++ line name.now index value.now) }
{
    put_name(out, name, index)?;
    writeln!(out, "={value}")
}

/// Adds the line of a variable and its text, if it has one.
#[tactic(auto, unfolding(crate::specs::Lines::optional_line))]
pub(crate) fn put_optional(
    out: &mut String,
    name: &str,
    index: Option<u32>,
    value: Option<&Text>,
) -> Result<(), AllocError>
    ensures { OnOk result (string_bytes out.new ≡ string_bytes out.old ++ optional_line name.now index (option_copied value.entry)) }
{
    match value {
        Some(value) => put_text(out, name, index, value.as_str()),
        None => Ok(()),
    }
}

/// Adds the line of a variable and its number, in decimal.
#[tactic(auto, unfolding(crate::specs::Lines::line))]
pub(crate) fn put_number(
    out: &mut String,
    name: &str,
    index: Option<u32>,
    number: u64,
) -> Result<(), AllocError>
    ensures { OnOk result (string_bytes out.new ≡ string_bytes out.old ++ line name.now index (decimal number)) }
{
    put_name(out, name, index)?;
    writeln!(out, "={number}")
}

/// Adds the line of a variable and its number, in hexadecimal behind `0x`.
#[tactic(auto, unfolding(crate::specs::Lines::line))]
pub(crate) fn put_address(out: &mut String, name: &str, address: u64) -> Result<(), AllocError>
    ensures { OnOk result (string_bytes out.new ≡ string_bytes out.old ++ line name.now None (hex address)) }
{
    put_name(out, name, None)?;
    writeln!(out, "=0x{address:x}")
}

/// Adds the line of a variable and whether it is on: 1 or 0.
pub(crate) fn put_switch(
    out: &mut String,
    name: &str,
    index: Option<u32>,
    on: bool,
) -> Result<(), AllocError>
    ensures { OnOk result (string_bytes out.new ≡ string_bytes out.old ++ line name.now index (switch on)) }
{
    if on {
        put_text(out, name, index, "1")
    } else {
        put_text(out, name, index, "0")
    }
}

/// Adds the line of a variable and its groups of words, if it has any.
#[tactic(auto, unfolding(crate::specs::Lines::groups_line, crate::specs::Lines::line))]
pub(crate) fn put_list<T: Words>(
    out: &mut String,
    name: &str,
    index: Option<u32>,
    groups: &[T],
) -> Result<(), AllocError>
    ensures { OnOk result (string_bytes out.new ≡ string_bytes out.old ++ groups_line name.now index (map T.words groups.now)) }
{
    if groups.is_empty() {
        return Ok(());
    }
    put_name(out, name, index)?;
    out.push_str("=")?;
    put_groups(out, groups)?;
    out.push_str("\n")
}

/// Adds the line of a name that has no effect.
pub(crate) fn put_unused(out: &mut String, name: &str) -> Result<(), AllocError>
    ensures { OnOk result (string_bytes out.new ≡ string_bytes out.old ++ unused_line name.now) }
{
    writeln!(out, "unused {name}")
}
