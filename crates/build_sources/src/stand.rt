// What a build stands on.
use described::Loaded;
use fdt_tree::{Reserve, Tree};
use run_steps::Output;
use texts::{Bytes, List};

/// What a build stands on.
#[derive(Drop)]
pub struct Stand {
    /// The host's tree, as it is after the script.
    pub tree: Tree,
    /// The reservations of the tree's file.
    pub reserves: List<Reserve>,
    /// The processor that boots, as the tree's file says.
    pub boot: u32,
    /// The files that were loaded.
    pub loads: List<Loaded>,
    /// The outputs before those of the build: of a configuration its boot script.
    pub before: List<Output>,
    /// The lines before the report: of a configuration the names that have no effect.
    pub lines: Bytes,
}
