// Files in a host's memory.
use texts::Text;

/// A file that is loaded before Xen starts.
#[derive(Debug, Drop)]
pub struct Loaded {
    /// The file's name.
    pub name: Text,
    /// The host address of its first byte.
    pub address: u64,
    /// How many bytes it has.
    pub size: u64,
}
