// What a guest's page is, and ranges of pages that are mapped to frames.

/// What a guest's page is. The kind decides the rights and the memory type of the words that map it.
#[derive(Clone, Copy, Debug, PartialEq, Eq)]
pub enum Kind {
    /// Memory of the guest alone: read, write and execute.
    Ram,
    /// Registers of a device that is passed through: read and write.
    Device,
    /// Memory that several guests name by one id: read and write.
    Shared,
}

/// `count` guest pages from `page` on, mapped one by one to the host frames from `first` on. A page is named, as a frame
/// is, by its address divided by 4,096.
#[derive(Clone, Copy, Debug, PartialEq, Eq)]
pub struct MapRange {
    /// The first guest page.
    pub page: u64,
    /// The host frame that it goes to.
    pub first: u64,
    /// How many pages and frames there are.
    pub count: u64,
    /// What the pages are.
    pub kind: Kind,
}
