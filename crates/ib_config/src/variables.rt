// The variables of a configuration: the value of a name and an index, its default, or its fault.
ghost use Rattle.std.specs.Prelude.{◌≡◌, ◌≤◌, ◌<◌, IfOk, IfSome, List as Values, ℕ, Some, None, Err, Ok, unwrap_or, true, false};
ghost use Rattle.std.specs.Option.{option_copied, option_map_or};
ghost use Rattle.ib_config.specs.Settings.{Gives};
ghost use Rattle.ib_config.specs.PrivateScan.{held};
ghost use Rattle.ib_config.specs.Rules as rules_of;
ghost use Rattle.ib_config.specs.Variables as table;
ghost use Rattle.ib_config.specs.Variables.{value_of, text_at, file_text_at};
ghost use Rattle.ib_config.specs.declared.fault.ConfigFault.TheVariants as faults;

use crate::assignments::{Assignments, copy_text};
use crate::fault::ConfigFault;
use crate::values::{file_name, flag, number, number_between};
use std::alloc::{AllocError, Global};
use texts::Text;

/// That a variable is missing.
pub(crate) fn missing<T: Drop>(
    alloc: Global,
    name: &str,
    index: Option<u32>,
) -> Result<T, ConfigFault>
    ensures { Gives (λ x. x) result (Err (faults.Missing name.now (unwrap_or index 0))) }
{
    Err(ConfigFault::Missing(copy_text(alloc, name)?, u64::from(index.unwrap_or(0))))
}

/// That a variable's text is outside its rule.
pub(crate) fn bad_value<T: Drop>(
    alloc: Global,
    name: &str,
    index: Option<u32>,
) -> Result<T, ConfigFault>
    ensures { Gives (λ x. x) result (Err (faults.BadValue name.now (unwrap_or index 0))) }
{
    Err(ConfigFault::BadValue(copy_text(alloc, name)?, u64::from(index.unwrap_or(0))))
}

/// A number that has to be there, from `low` to `high`.
#[tactic(auto, unfolding(crate::specs::Variables::value_of))]
pub(crate) fn required_number(
    alloc: Global,
    assigned: &Assignments,
    name: &str,
    index: Option<u32>,
    low: u64,
    high: u64,
) -> Result<u64, ConfigFault>
    ensures { Gives (λ x. x) result (value_of (held assigned.now) (table.required name.now (rules_of.number_between low high)) index) }
{
    let Some(text) = assigned.text(alloc, name, index)? else {
        return missing(alloc, name, index);
    };
    match number_between(low, high, text.as_slice()) {
        Some(value) => Ok(value),
        None => bad_value(alloc, name, index),
    }
}

/// A number from `low` to `high` that has a default.
#[tactic(auto, unfolding(crate::specs::Variables::value_of))]
pub(crate) fn number_or(
    alloc: Global,
    assigned: &Assignments,
    name: &str,
    index: Option<u32>,
    low: u64,
    high: u64,
    default: u64,
) -> Result<u64, ConfigFault>
    requires { default ≤ high }
    ensures value { Gives (λ x. x) result (value_of (held assigned.now) (table.with_default name.now (rules_of.number_between low high) default) index) }
    ensures within { IfOk result (λ n. n ≤ high) }
{
    let Some(text) = assigned.text(alloc, name, index)? else {
        return Ok(default);
    };
    match number_between(low, high, text.as_slice()) {
        Some(value) => Ok(value),
        None => bad_value(alloc, name, index),
    }
}

/// A number from `low` to `high` that may be left out.
#[tactic(auto, unfolding(crate::specs::Variables::value_of))]
pub(crate) fn optional_number(
    alloc: Global,
    assigned: &Assignments,
    name: &str,
    index: Option<u32>,
    low: u64,
    high: u64,
    default: Option<u64>,
) -> Result<Option<u64>, ConfigFault>
    ensures { Gives (λ x. x) result (value_of (held assigned.now) (table.optional name.now (rules_of.number_between low high) default) index) }
{
    let Some(text) = assigned.text(alloc, name, index)? else {
        return Ok(default);
    };
    match number_between(low, high, text.as_slice()) {
        Some(value) => Ok(Some(value)),
        None => bad_value(alloc, name, index),
    }
}

/// A flag, 0 or 1, that is set by default.
#[tactic(auto, unfolding(crate::specs::Variables::value_of))]
pub(crate) fn flag_or_set(
    alloc: Global,
    assigned: &Assignments,
    name: &str,
    index: Option<u32>,
) -> Result<bool, ConfigFault>
    ensures { Gives (λ x. x) result (value_of (held assigned.now) (table.with_default name.now rules_of.flag true) index) }
{
    let Some(text) = assigned.text(alloc, name, index)? else {
        return Ok(true);
    };
    match flag(text.as_slice()) {
        Some(value) => Ok(value),
        None => bad_value(alloc, name, index),
    }
}

/// The text of a file variable; an empty one counts as missing.
fn file_text<'a>(
    alloc: Global,
    assigned: &'a Assignments,
    name: &str,
    index: Option<u32>,
) -> Result<Option<&'a Text>, AllocError>
    ensures { IfOk result (λ text. option_copied text ≡ file_text_at (held assigned.now) name.now index) }
{
    match assigned.text(alloc, name, index)? {
        Some(text) => Ok(if text.as_slice().is_empty() {
            None
        } else {
            Some(text)
        }),
        None => Ok(None),
    }
}

/// A file that has to be there.
#[tactic(auto, unfolding(crate::specs::Variables::value_of))]
pub(crate) fn required_file(
    alloc: Global,
    assigned: &Assignments,
    name: &str,
    index: Option<u32>,
) -> Result<Text, ConfigFault>
    ensures { Gives (λ x. x) result (value_of (held assigned.now) (table.required_file name.now) index) }
{
    let Some(text) = file_text(alloc, assigned, name, index)? else {
        return missing(alloc, name, index);
    };
    match file_name(alloc, text)? {
        Some(file) => Ok(file),
        None => bad_value(alloc, name, index),
    }
}

/// A file that may be left out.
#[tactic(auto, unfolding(crate::specs::Variables::value_of))]
pub(crate) fn optional_file(
    alloc: Global,
    assigned: &Assignments,
    name: &str,
    index: Option<u32>,
) -> Result<Option<Text>, ConfigFault>
    ensures { Gives (λ x. x) result (value_of (held assigned.now) (table.optional_file name.now) index) }
{
    let Some(text) = file_text(alloc, assigned, name, index)? else {
        return Ok(None);
    };
    match file_name(alloc, text)? {
        Some(file) => Ok(Some(file)),
        None => bad_value(alloc, name, index),
    }
}

/// A text that has a default.
#[tactic(auto, unfolding(crate::specs::Variables::value_of))]
pub(crate) fn text_or(
    alloc: Global,
    assigned: &Assignments,
    name: &str,
    index: Option<u32>,
    default: &str,
) -> Result<Text, ConfigFault>
    ensures { Gives (λ x. x) result (value_of (held assigned.now) (table.with_default name.now Some default.now) index) }
{
    match assigned.text(alloc, name, index)? {
        Some(text) => Ok(copy_text(alloc, text.as_str())?),
        None => Ok(copy_text(alloc, default)?),
    }
}

/// A text that may be left out.
#[tactic(auto, unfolding(crate::specs::Variables::value_of))]
pub(crate) fn optional_text(
    alloc: Global,
    assigned: &Assignments,
    name: &str,
    index: Option<u32>,
) -> Result<Option<Text>, ConfigFault>
    ensures { Gives (λ x. x) result (value_of (held assigned.now) (table.optional name.now Some None) index) }
{
    match assigned.text(alloc, name, index)? {
        Some(text) => Ok(Some(copy_text(alloc, text.as_str())?)),
        None => Ok(None),
    }
}

/// How many guests there are, at most 16.
#[tactic(auto, unfolding(crate::specs::Variables::value_of))]
pub(crate) fn guest_count(alloc: Global, assigned: &Assignments) -> Result<u32, ConfigFault>
    ensures value { Gives (λ x. x) result (value_of (held assigned.now) table.NUM_DOMUS None) }
    ensures few { IfOk result (λ count. count ≤ 16) }
{
    let Some(text) = assigned.text(alloc, "NUM_DOMUS", None)? else {
        return Ok(0);
    };
    match number(text.as_slice()) {
        Some(count) if count <= 16 => Ok(count as u32),
        Some(count) => Err(ConfigFault::TooMany(count)),
        None => bad_value(alloc, "NUM_DOMUS", None),
    }
}
