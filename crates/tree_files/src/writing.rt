// Writing a flattened tree (Devicetree Specification 0.4, chapter 5).
ghost use Rattle.std.specs.Prelude.{◌≡◌, ◌≤◌, ◌∷◌, [], IfOk, IfErr, IsTrue, OnOk, length, not, unwrap_or};
ghost use Rattle.std.specs.List.{list_all};
ghost use Rattle.fdt_read.specs.Reservations.{is_last_pair};
ghost use Rattle.fdt_write.specs.Flattened.{flattened, length_limit};
ghost use Rattle.run_steps.specs.Endings.{Builds};
ghost use Rattle.run_steps.specs.Outputs.{files_of, report_of};
ghost use Rattle.run_steps.specs.Steps.{IsWriting};
ghost use Rattle.run_steps.specs.Stops.{IsOwnDue};
ghost use Rattle.tree_files.specs.Lengths.{IsLengthRefusal};

use crate::messages::make_too_long_message;
use fdt_tree::{Reserve, Tree};
use fdt_write::{WriteFault, write};
use outside::Status;
use run_steps::{Build, Output, Stop};
use std::alloc::{AllocError, Global};
use texts::{Bytes, List, Text};

/// A tree as it is written under a name, with its reservations and the processor that boots. A tree that would have too many
/// bytes stops the run.
pub fn write_tree(
    alloc: Global,
    name: &str,
    tree: &Tree,
    reserves: &[Reserve],
    boot: u32,
) -> Result<Bytes, Stop>
    requires { IsTrue (list_all (λ reserve. not (is_last_pair reserve)) reserves.now) }
    ensures written { IfOk result (λ bytes. bytes ≡ flattened reserves.now boot tree.now.tree) }
    ensures fits { OnOk result (length (flattened reserves.now boot tree.now.tree) ≤ length_limit) }
    ensures stopped { IfErr result (λ stop. IsOwnDue (IsLengthRefusal name.now (length (flattened reserves.now boot tree.now.tree))) stop) }
{
    match write(alloc, tree, reserves, boot) {
        Ok(bytes) => Ok(Bytes::from(bytes)),
        Err(WriteFault::Memory) => Err(Stop::Memory),
        Err(WriteFault::TooLong(bytes)) => Err(Stop::Because(
            Status::Refused,
            make_too_long_message(alloc, name, bytes)?,
        )),
    }
}

/// One output, and a report, where there is one.
pub fn one_output(
    alloc: Global,
    out: &str,
    bytes: Bytes,
    report: Option<Bytes>,
) -> Result<Build, AllocError>
    ensures { IfOk result (λ build. IsWriting ((out.now, bytes) ∷ []) (unwrap_or report []) (Builds (files_of build) (report_of build))) }
{
    let mut name = Text::new(alloc);
    name.append(out)?;
    let mut outputs = List::new(alloc);
    outputs.push(Output { name, bytes })?;
    Ok(Build { outputs, report })
}
