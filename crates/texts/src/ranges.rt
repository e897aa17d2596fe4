// Ranges of frames, and ranges of bytes.

/// Host frames `first` to `first + count - 1`. A frame is a host page of 4,096 bytes, named by its address divided by
/// 4,096.
#[derive(Clone, Copy, Debug, PartialEq, Eq)]
pub struct FrameRange {
    /// The first frame.
    pub first: u64,
    /// How many frames there are.
    pub count: u64,
}

/// A range of addresses, as an entry of a `reg` gives it (Devicetree Specification 0.4, 2.3.6).
#[derive(Clone, Copy, Debug, PartialEq, Eq)]
pub struct BaseSize {
    /// The first address.
    pub base: u64,
    /// How many bytes there are.
    pub size: u64,
}
