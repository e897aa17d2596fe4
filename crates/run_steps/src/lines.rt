// Saying a message.
ghost use Rattle.std.specs.Prelude.{◌≡◌};
ghost use Rattle.std.specs.List.{flat_map};
ghost use Rattle.run_steps.specs.Messages.{line, file_message};
ghost use Rattle.run_steps.specs.Endings.{Said};

use outside::Sink;

/// Puts the line of a program's message. Takes no memory; a failure changes nothing but what the stream took.
pub fn say<E: Sink>(err: &mut E, program: &str, message: &[u8])
    ensures { Said E.taken E.faults err.old err.new (line program.now message.now) }
{
    put_parts(err, &[program.as_bytes(), b": ", message, b"\n"]);
}

/// Puts the line of a program's message about a file.
pub(crate) fn say_of_file<E: Sink>(err: &mut E, program: &str, name: &str, text: &str)
    ensures { Said E.taken E.faults err.old err.new (line program.now (file_message name.now text.now)) }
{
    put_parts(
        err,
        &[
            program.as_bytes(),
            b": ",
            name.as_bytes(),
            b": ",
            text.as_bytes(),
            b"\n",
        ],
    );
}

/// Puts bytes one after the other, up to the first that are not taken whole.
fn put_parts<E: Sink>(err: &mut E, parts: &[&[u8]])
    ensures { Said E.taken E.faults err.old err.new (flat_map (λ part. part.now) parts.now) }
{
    for part in parts {
        if let Err(_failed) = err.put(part) {
            return;
        }
    }
}
