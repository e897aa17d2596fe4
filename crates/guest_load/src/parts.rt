// The parts that a guest is started with.
ghost use Rattle.std.specs.Prelude.{◌≡◌, ◌≤◌, ◌^◌, IfOk, IfErr, Some, Ok, length, codes};
ghost use Rattle.std.specs.Option.{option_copied};
ghost use Rattle.outside.specs.Reads.{Reads};
ghost use Rattle.run_steps.specs.Steps.{IsReading, nothing};
ghost use Rattle.run_steps.specs.Stops.{StopsFor, IsOwnDue};
ghost use Rattle.tree_files.specs.Trees.{flat_tree, IsTreeFile};
ghost use Rattle.guest_load.specs.Banks.{first_bank};
ghost use Rattle.guest_load.specs.Heads.{image_head};
ghost use Rattle.guest_load.specs.LoadPlaces.{end_of};
ghost use Rattle.guest_load.specs.Parts.{AfterBank, AfterGuest, AfterHead, AfterKernel, AfterRamdisk, AfterParts, IsRamdisk, AreParts, kernel_limit};
ghost use Rattle.guest_load.specs.PrivateMeant.{meant, meant_parts};

use crate::bank::first_bank;
use crate::head::{ImageHead, read_head};
use crate::places::Place;
use crate::words::Asked;
use outside::{Files, Status};
use run_steps::{Stop, make_file_message, measure, read_file};
use std::alloc::Global;
use tree_files::{TreeFile, read_tree};

/// The longest kernel that is read, in bytes.
const KERNEL_LIMIT: u64 = 67_108_864;

/// The parts that a guest is started with.
#[derive(Drop)]
pub(crate) struct Parts {
    /// Its tree.
    pub(crate) tree: TreeFile,
    /// The first bank of its memory.
    pub(crate) bank: Place,
    /// The head of the kernel.
    pub(crate) head: ImageHead,
    /// The length of the kernel's file, in bytes.
    pub(crate) kernel: u64,
    /// The length of the ramdisk's file, in bytes, where there is one.
    pub(crate) ramdisk: Option<u64>,
}

/// The bank of a guest's tree.
fn find_bank(alloc: Global, name: &str, tree: &TreeFile) -> Result<Place, Stop>
    ensures bank { IfOk result (λ bank. first_bank tree.now.flat.tree.tree ≡ Some bank) }
    ensures low { IfOk result (λ bank. end_of bank ≤ 2 ^ 40) }
    ensures stopped { IfErr result (λ stop. IsOwnDue (AfterBank name.now (flat_tree tree.now) nothing) stop) }
{
    match first_bank(&tree.flat.tree) {
        Some(bank) => Ok(bank),
        None => Err(Stop::Because(Status::Refused, make_file_message(alloc, name, b"NoBank")?)),
    }
}

/// The tree of a guest, and its bank.
fn read_guest<F: Files>(alloc: Global, name: &str, files: &mut F) -> Result<(TreeFile, Place), Stop>
    ensures tree { IfOk result (λ guest. IsTreeFile (F.held files.old) name.now (flat_tree guest.0)) }
    ensures bank { IfOk result (λ guest. first_bank guest.0.flat.tree.tree ≡ Some guest.1) }
    ensures low { IfOk result (λ guest. end_of guest.1 ≤ 2 ^ 40) }
    ensures stopped { IfErr result (StopsFor F.counts files.old files.new (AfterGuest (F.held files.old) name.now nothing)) }
    ensures only_read { Reads F.held F.counts files.old files.new }
{
    let tree = read_tree(alloc, name, files)?;
    let bank = find_bank(alloc, name, &tree)?;
    Ok((tree, bank))
}

/// The head of a kernel.
fn find_head(alloc: Global, name: &str, bytes: &[u8]) -> Result<ImageHead, Stop>
    ensures head { IfOk result (λ head. image_head bytes.now ≡ Some head) }
    ensures stopped { IfErr result (λ stop. IsOwnDue (AfterHead name.now bytes.now nothing) stop) }
{
    match read_head(bytes) {
        Ok(head) => Ok(head),
        Err(_) => Err(Stop::Because(Status::Format, make_file_message(alloc, name, b"NotImage")?)),
    }
}

/// The head of a kernel, and the length of its file in bytes.
fn read_kernel<F: Files>(alloc: Global, name: &str, files: &mut F) -> Result<(ImageHead, u64), Stop>
    ensures read { IfOk result (λ kernel. (file : _) × IsReading (F.held files.old) name.now kernel_limit (Ok file) × (image_head file ≡ Some kernel.0) × (kernel.1 ≡ length file)) }
    ensures stopped { IfErr result (StopsFor F.counts files.old files.new (AfterKernel (F.held files.old) name.now nothing)) }
    ensures only_read { Reads F.held F.counts files.old files.new }
{
    let bytes = read_file(alloc, name, KERNEL_LIMIT, files)?;
    let head = find_head(alloc, name, &bytes)?;
    Ok((head, bytes.len() as u64))
}

/// The length of a ramdisk in bytes, where one is named.
fn measure_ramdisk<F: Files>(
    alloc: Global,
    name: Option<&str>,
    files: &mut F,
) -> Result<Option<u64>, Stop>
    ensures measured { IfOk result (λ size. IsRamdisk (F.held files.old) (option_copied name.entry) size) }
    ensures stopped { IfErr result (StopsFor F.counts files.old files.new (AfterRamdisk (F.held files.old) (option_copied name.entry) nothing)) }
    ensures only_read { Reads F.held F.counts files.old files.new }
{
    match name {
        None => Ok(None),
        Some(name) => match measure(alloc, name, files) {
            Ok(size) => Ok(Some(size)),
            Err(stop) => Err(stop),
        },
    }
}

/// The parts, in the order in which they are read.
pub(crate) fn read_parts<F: Files>(
    alloc: Global,
    asked: &Asked<'_>,
    files: &mut F,
) -> Result<Parts, Stop>
    ensures read { IfOk result (λ parts. AreParts (F.held files.old) (meant asked.now) (meant_parts parts)) }
    ensures low { IfOk result (λ parts. end_of parts.bank ≤ 2 ^ 40) }
    ensures stopped { IfErr result (StopsFor F.counts files.old files.new (AfterParts (F.held files.old) (meant asked.now) nothing)) }
    ensures kept { F.held files.new ≡ F.held files.old }
{
    let (tree, bank) = read_guest(alloc, asked.tree, files)?;
    let (head, kernel) = read_kernel(alloc, asked.kernel, files)?;
    let ramdisk = measure_ramdisk(alloc, asked.ramdisk, files)?;
    Ok(Parts {
        tree,
        bank,
        head,
        kernel,
        ramdisk,
    })
}
