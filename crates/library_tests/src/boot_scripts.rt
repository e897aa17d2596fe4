// The text of commands that no configuration has.
use ib_script::{Command, Piece, print};
use std::alloc::{AllocError, Global};
use std::test::Fail;
use texts::{Bytes, List, Text};

fn text_of(alloc: Global, text: &str) -> Result<Text, AllocError> {
    let mut copy = Text::new(alloc);
    copy.append(text)?;
    Ok(copy)
}

// A property with cells, bytes and a text, and one without a value.
fn values(alloc: Global) -> Result<List<Command>, AllocError> {
    let mut cells = List::new(alloc);
    cells.push(10)?;
    cells.push(0)?;
    let mut bytes = Bytes::new(alloc);
    bytes.append(&[0, 0xab])?;
    let mut value = List::new(alloc);
    value.push(Piece::Cells(cells))?;
    value.push(Piece::Cells(List::new(alloc)))?;
    value.push(Piece::Bytes(bytes))?;
    value.push(Piece::Bytes(Bytes::new(alloc)))?;
    value.push(Piece::Word(text_of(alloc, "a #b")?))?;
    let mut script = List::new(alloc);
    script.push(Command::Set {
        path: text_of(alloc, "/#a")?,
        prop: text_of(alloc, "#b#")?,
        value,
    })?;
    script.push(Command::Set {
        path: text_of(alloc, "/")?,
        prop: text_of(alloc, "c#")?,
        value: List::new(alloc),
    })?;
    Ok(script)
}

// Commands that no configuration has.
fn other_commands(alloc: Global) -> Result<List<Command>, AllocError> {
    let mut script = values(alloc)?;
    script.push(Command::Resize(0))?;
    script.push(Command::SetEnv {
        name: text_of(alloc, "a")?,
        value: text_of(alloc, "b c")?,
    })?;
    script.push(Command::SetEnv {
        name: text_of(alloc, "a")?,
        value: text_of(alloc, "")?,
    })?;
    Ok(script)
}

#[test]
fn empty_values_and_marks_are_printed(rt: HostRuntime) -> Result<(), Fail> {
    let script = other_commands(rt.alloc())?;
    let text = print(rt.alloc(), &script)?;
    let lines = "fdt set /#a \\#b# <0xa 0x0> <> [00 ab] [] \"a #b\"
fdt set / c#
fdt resize 0x0
setenv a b c
setenv a
";
    assert!(rt; text.as_slice() == lines.as_bytes());
    Ok(())
}
