// Writing what was made.
ghost use Rattle.std.specs.Prelude.{◌≡◌, ◌≤◌, ◌<◌, ◌⊎◌, length, map, slice_index_or, [], IfSome, IfNone, IsNone, codes};
ghost use Rattle.outside.specs.Outside.{Rose, and_bytes, TookPrefix};
ghost use Rattle.run_steps.specs.Messages.{line, file_message};
ghost use Rattle.run_steps.specs.Endings.{Said, and_files, TookUpTo, TakesFiles, HasRoom};
ghost use Rattle.run_steps.specs.Outputs.{file_of, files_of, report_of};

use crate::lines::say_of_file;
use crate::output::{Build, Output};
use outside::{Outs, Sink, Status};

/// Writes the outputs in their order, and then the report. Takes no memory. The answer is `Built`, or `Write` at the first
/// output, or the report, that is not taken whole, which the program's line on `err` names.
pub fn write_all<O: Outs, S: Sink, E: Sink>(
    program: &str,
    build: &Build,
    outs: &mut O,
    out: &mut S,
    err: &mut E,
) -> Status
    ensures built { result ≡ Status.Built →
        (O.written outs.new ≡ and_files (O.written outs.old) (files_of build.now))
        × (S.taken out.new ≡ and_bytes (S.taken out.old) (report_of build.now))
        × (err.new ≡ err.old) }
    ensures write { result ≡ Status.Write → (name : _)
        × Said E.taken E.faults err.old err.new (line program.now (file_message name (codes "write failed")))
        × ((Rose (O.faults outs.old) (O.faults outs.new)
        × TookUpTo (O.written outs.old) (O.written outs.new) (files_of build.now) name
        × (out.new ≡ out.old))
        ⊎ ((name ≡ codes "standard output")
        × Rose (S.faults out.old) (S.faults out.new)
        × (O.written outs.new ≡ and_files (O.written outs.old) (files_of build.now))
        × TookPrefix (S.taken out.old) (S.taken out.new) (report_of build.now))) }
    ensures only { (result ≡ Status.Built) ⊎ (result ≡ Status.Write) }
    ensures room { HasRoom (O.room outs.old) (S.room out.old) (files_of build.now) (report_of build.now) → result ≡ Status.Built }
{
    if let Some(output) = write_each(build.outputs.as_slice(), outs) {
        say_of_file(err, program, output.name.as_str(), "write failed");
        return Status::Write;
    }
    if let Some(report) = &build.report {
        if let Err(_failed) = out.put(report.as_slice()) {
            say_of_file(err, program, "standard output", "write failed");
            return Status::Write;
        }
    }
    Status::Built
}

/// Writes the outputs in their order, and answers the one that was not taken whole, if there is one.
fn write_each<'a, O: Outs>(outputs: &'a [Output], outs: &mut O) -> Option<&'a Output>
    ensures all { IfNone result (O.written outs.new ≡ and_files (O.written outs.old) (map file_of outputs.now)) }
    ensures part { IfSome result (λ output. TookUpTo (O.written outs.old) (O.written outs.new) (map file_of outputs.now) output.now.name) }
    ensures failed { IfSome result (λ _. Rose (O.faults outs.old) (O.faults outs.new)) }
    ensures room { TakesFiles (O.room outs.old) (map file_of outputs.now) → IsNone result }
{
    for output in outputs {
        if let Err(_failed) = outs.write(output.name.as_str(), output.bytes.as_slice()) {
            return Some(output);
        }
    }
    None
}
