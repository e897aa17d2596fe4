// The commands of a boot script, as U-Boot runs them.
use texts::{Bytes, List, Text};

/// A command of a boot script.
#[derive(Debug, Drop)]
pub enum Command {
    /// Loads a file: the words of the command before the address, the address of the file's first byte, and its name.
    Load {
        how: Text,
        address: u64,
        name: Text,
    },
    /// Takes the device tree at this address for the commands that follow.
    Addr(u64),
    /// Makes the device tree larger by so many bytes.
    Resize(u64),
    /// Makes a node of this name below the node at a path.
    Mknod {
        path: Text,
        name: Text,
    },
    /// Sets a property of the node at a path. Its value is the pieces one after the other; without pieces it is empty.
    Set {
        path: Text,
        prop: Text,
        value: List<Piece>,
    },
    /// Sets a variable of U-Boot, or removes it where the text is empty.
    SetEnv {
        name: Text,
        value: Text,
    },
    /// Starts what lies at the address `kernel` with the device tree at the address `tree`.
    Booti {
        kernel: u64,
        tree: u64,
    },
}

/// A piece of a property's value.
#[derive(Debug, Drop)]
pub enum Piece {
    /// Cells of 32 bits.
    Cells(List<u32>),
    /// Bytes as they stand.
    Bytes(Bytes),
    /// A text.
    Word(Text),
}
