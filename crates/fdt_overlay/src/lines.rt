// Messages.
ghost use Rattle.std.specs.Prelude.{◌≡◌, ◌++◌, IfOk, OnOk};
ghost use Rattle.fdt_overlay.specs.Lines.{fault_text, fault_message};

use overlaid_trees::OverlayFault;
use run_steps::make_file_message;
use std::alloc::{AllocError, Global};
use texts::Bytes;

/// Adds the name of a fault, and what it is about.
fn append_named(text: &mut Bytes, name: &[u8], about: &Bytes) -> Result<(), AllocError>
    ensures { OnOk result (text.new ≡ text.old ++ (name.now ++ about.now)) }
{
    text.append(name)?;
    text.append(about.as_slice())
}

/// Adds a fault as it is shown: its name, and the path, label or name that it is about.
fn append_fault(text: &mut Bytes, fault: &OverlayFault) -> Result<(), AllocError>
    ensures { OnOk result (text.new ≡ text.old ++ fault_text fault.now) }
{
    match fault {
        OverlayFault::PhandleRange => text.append(b"PhandleRange"),
        OverlayFault::BadLocal(path) => append_named(text, b"BadLocal ", path),
        OverlayFault::Unresolved(label) => append_named(text, b"Unresolved ", label),
        OverlayFault::BadFixup(label) => append_named(text, b"BadFixup ", label),
        OverlayFault::NoTarget(name) => append_named(text, b"NoTarget ", name),
        OverlayFault::Deep(name) => append_named(text, b"Deep ", name),
        OverlayFault::Memory => text.append(b"out of memory"),
    }
}

/// What is said about an overlay that has a fault.
pub(crate) fn make_fault_message(
    alloc: Global,
    name: &str,
    fault: &OverlayFault,
) -> Result<Bytes, AllocError>
    ensures { IfOk result (λ message. message ≡ fault_message name.now fault.now) }
{
    let mut text = Bytes::new(alloc);
    append_fault(&mut text, fault)?;
    make_file_message(alloc, name, text.as_slice())
}
