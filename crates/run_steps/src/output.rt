// What a run makes before its first write.
use texts::{Bytes, List, Text};

/// A file that is to be written.
#[derive(Drop)]
pub struct Output {
    /// Its name, as it is handed to the outputs.
    pub name: Text,
    /// All its bytes.
    pub bytes: Bytes,
}

/// All that a run writes: files in their order, and a report on standard output, where there is one.
#[derive(Drop)]
pub struct Build {
    /// The files, in the order in which they are written.
    pub outputs: List<Output>,
    /// What is put on standard output behind the last file.
    pub report: Option<Bytes>,
}
