// The lines of a printed tree, each added to those before. After want of memory what was added is no matter.
ghost use Rattle.std.specs.Prelude.{◌≡◌, ◌++◌, flat_map, OnOk, codes};
ghost use Rattle.fdt_write.specs.Meaning.{meaning};
ghost use Rattle.source_text.specs.Printed.{line, property_line, reserve_line};
ghost use Rattle.source_text.specs.PrivateOpened.{begin_text, depth_after, token_line};

use crate::tabs::Tabs;
use crate::values::append_after_name;
use fdt_tree::Reserve;
use fdt_write::TreeToken;
use std::alloc::{AllocError, Global};
use texts::Bytes;

/// Adds the line of a reservation.
#[tactic(auto, unfolding(crate::specs::Printed::reserve_line))]
fn append_reserve(alloc: Global, out: &mut Bytes, reserve: Reserve) -> Result<(), AllocError>
    ensures { OnOk result (out.new ≡ out.old ++ reserve_line reserve) }
{
    out.append(b"/memreserve/ ")?;
    out.append_hexadecimal(alloc, reserve.address)?;
    out.append(b" ")?;
    out.append_hexadecimal(alloc, reserve.size)?;
    out.append(b";\n")
}

/// Adds the lines of reservations.
pub(crate) fn append_reserves(
    alloc: Global,
    out: &mut Bytes,
    reserves: &[Reserve],
) -> Result<(), AllocError>
    ensures { OnOk result (out.new ≡ out.old ++ flat_map reserve_line reserves.now) }
{
    for reserve in reserves {
        append_reserve(alloc, out, *reserve)?;
    }
    Ok(())
}

/// Adds the line that begins a node.
fn append_begin(out: &mut Bytes, tabs: &Tabs, name: &[u8]) -> Result<(), AllocError>
    ensures { OnOk result (out.new ≡ out.old ++ line tabs.now (begin_text tabs.now name.now)) }
{
    out.append(tabs.as_slice())?;
    if tabs.is_empty() {
        return out.append(b"/ {\n");
    }
    out.append(name)?;
    out.append(b" {\n")
}

/// Adds the line of a property.
fn append_property(
    alloc: Global,
    out: &mut Bytes,
    tabs: &Tabs,
    name: &[u8],
    value: &[u8],
) -> Result<(), AllocError>
    ensures { OnOk result (out.new ≡ out.old ++ property_line tabs.now (name.now, value.now)) }
{
    out.append(tabs.as_slice())?;
    out.append(name)?;
    append_after_name(alloc, out, value)?;
    out.append(b"\n")
}

/// Adds the line of a token, if it has one, and goes into the node that begins or out of the one that ends.
pub(crate) fn append_token(
    alloc: Global,
    out: &mut Bytes,
    tabs: &mut Tabs,
    token: &TreeToken<'_>,
) -> Result<(), AllocError>
    ensures line { OnOk result (out.new ≡ out.old ++ token_line tabs.old (meaning token.now)) }
    ensures depth { OnOk result (tabs.new ≡ depth_after tabs.old (meaning token.now)) }
{
    match token {
        TreeToken::BeginNode(name) => {
            append_begin(out, tabs, name)?;
            tabs.enter()
        }
        TreeToken::Property(name, value) => append_property(alloc, out, tabs, name, value),
        TreeToken::EndNode => {
            tabs.leave();
            out.append(tabs.as_slice())?;
            out.append(b"};\n")
        }
        TreeToken::End => Ok(()),
    }
}
