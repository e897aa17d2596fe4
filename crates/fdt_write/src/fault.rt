// Why a tree is not written.

/// Why a tree is not written.
#[derive(Debug, Drop)]
pub enum WriteFault {
    /// The canonical bytes are more than 2,097,152. The number is theirs, or 2^64 - 1 where that is less.
    TooLong(u64),
    /// No memory was left.
    Memory,
}
