// The lines of a script.
ghost use Rattle.std.specs.Prelude.{◌≡◌, ◌++◌, IfOk, OnOk, string_bytes};
ghost use Rattle.ib_script.specs.Text.{line_of_command, text_of};

use crate::command::{Command, Piece};
use crate::words::{put_optional_word, put_property, put_value};
use std::alloc::{AllocError, Global};
use texts::List;

/// Adds the line that sets a property.
#[tactic(auto, unfolding(crate::specs::Text::line_of_command, crate::specs::Text::words_of_command))]
fn put_set(out: &mut String, path: &str, prop: &str, value: &[Piece]) -> Result<(), AllocError>
    ensures { OnOk result (string_bytes out.new ≡ string_bytes out.old ++ line_of_command (Command.Set path.now prop.now value.now)) }
{
    write!(out, "fdt set {path} ")?;
    put_property(out, prop)?;
    put_value(out, value)?;
    out.push_str("\n")
}

/// Adds the line that sets a variable.
#[tactic(auto, unfolding(crate::specs::Text::line_of_command, crate::specs::Text::words_of_command))]
fn put_set_env(out: &mut String, name: &str, value: &str) -> Result<(), AllocError>
    ensures { OnOk result (string_bytes out.new ≡ string_bytes out.old ++ line_of_command (Command.SetEnv name.now value.now)) }
{
    write!(out, "setenv {name}")?;
    put_optional_word(out, value)?;
    out.push_str("\n")
}

/// Adds the line of a command.
#[tactic(auto, unfolding(crate::specs::Text::line_of_command, crate::specs::Text::words_of_command))]
fn put_command(out: &mut String, command: &Command) -> Result<(), AllocError>
    ensures { OnOk result (string_bytes out.new ≡ string_bytes out.old ++ line_of_command command.now) }
{
    match command {
        Command::Load { how, address, name } => {
            let (how, name) = (how.as_str(), name.as_str());
            writeln!(out, "{how} 0x{address:x} {name}")
        }
        Command::Addr(address) => writeln!(out, "fdt addr 0x{address:x}"),
        Command::Resize(bytes) => writeln!(out, "fdt resize 0x{bytes:x}"),
        Command::Mknod { path, name } => {
            let (path, name) = (path.as_str(), name.as_str());
            writeln!(out, "fdt mknod {path} {name}")
        }
        Command::Set { path, prop, value } => {
            put_set(out, path.as_str(), prop.as_str(), value.as_slice())
        }
        Command::SetEnv { name, value } => put_set_env(out, name.as_str(), value.as_str()),
        Command::Booti { kernel, tree } => writeln!(out, "booti 0x{kernel:x} - 0x{tree:x}"),
    }
}

/// The text of a script: the line of each command, in their order.
#[tactic(auto, unfolding(crate::specs::Text::text_of))]
pub fn print(alloc: Global, commands: &List<Command>) -> Result<Vec<u8>, AllocError>
    ensures { IfOk result (λ bytes. bytes.items ≡ text_of commands.now) }
{
    let mut out = String::new(alloc);
    for command in commands.as_slice() {
        put_command(&mut out, command)?;
    }
    Ok(out.into_bytes())
}
