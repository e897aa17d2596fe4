// The lines of a listing, each added to those before. After want of memory what was added is no matter.
ghost use Rattle.std.specs.Prelude.{◌≡◌, ◌++◌, OnOk};
ghost use Rattle.fdt_listing.specs.Listing.{line, reserve_line, value_text, property_line};

use fdt_tree::Reserve;
use std::alloc::{AllocError, Global};
use texts::Bytes;

/// Adds a text as a line.
pub(crate) fn append_line(out: &mut Bytes, text: &[u8]) -> Result<(), AllocError>
    ensures { OnOk result (out.new ≡ out.old ++ line text.now) }
{
    out.append(text)?;
    out.append(b"\n")
}

/// Adds the line of a reservation.
pub(crate) fn append_reserve(
    alloc: Global,
    out: &mut Bytes,
    reserve: Reserve,
) -> Result<(), AllocError>
    ensures { OnOk result (out.new ≡ out.old ++ reserve_line reserve) }
{
    out.append(b"reserve ")?;
    out.append_hexadecimal(alloc, reserve.address)?;
    out.append(b" ")?;
    out.append_hexadecimal(alloc, reserve.size)?;
    out.append(b"\n")
}

/// Adds a value in hexadecimal digits, or `-` for one of no bytes.
fn append_value(alloc: Global, out: &mut Bytes, value: &[u8]) -> Result<(), AllocError>
    ensures { OnOk result (out.new ≡ out.old ++ value_text value.now) }
{
    if value.is_empty() {
        return out.append(b"-");
    }
    let digits = hex::encode(alloc, value)?;
    out.append(digits.as_bytes())
}

/// Adds the line of a property.
pub(crate) fn append_property(
    alloc: Global,
    out: &mut Bytes,
    name: &[u8],
    value: &[u8],
) -> Result<(), AllocError>
    ensures { OnOk result (out.new ≡ out.old ++ property_line (name.now, value.now)) }
{
    out.append(b"  ")?;
    out.append(name)?;
    out.append(b" ")?;
    append_value(alloc, out, value)?;
    out.append(b"\n")
}
