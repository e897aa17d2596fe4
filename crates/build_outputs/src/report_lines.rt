// The lines of a report, each added to those before. After want of memory part of a line may stand there.
ghost use Rattle.std.specs.Prelude.{◌≡◌, ◌++◌, ◌<◌, ◌^◌, OnOk, codes, decimal};
ghost use Rattle.build_outputs.specs.ReportLines.{spi_line, peer_text, port_line, name_text, counts_text, head_line, free_line, counted, generated_line, ram_in, ram_pages};

use described::{Kind, MapRange};
use domain_plan::GuestPlan;
use std::alloc::{AllocError, Global};
use texts::Bytes;

/// The number that stands for dom0 among peers.
const DOM0: u64 = 0xffff_ffff;

/// Adds the line of the frames that are left. After want of memory part of it may stand in the report.
pub(crate) fn append_free(alloc: Global, report: &mut Bytes, frames: u64) -> Result<(), AllocError>
    ensures { OnOk result (report.new ≡ report.old ++ free_line frames) }
{
    report.append(b"free ")?;
    report.append_decimal(alloc, frames)?;
    report.append(b"\n")
}

/// Adds a count with what stands before it.
fn append_count(alloc: Global, text: &mut Bytes, label: &[u8], count: u64) -> Result<(), AllocError>
    ensures { OnOk result (text.new ≡ text.old ++ counted label.now count) }
{
    text.append(label)?;
    text.append_decimal(alloc, count)
}

/// Adds the line of the tree that is generated for a number: how many guests it has, their pages of memory and the tables
/// of their images, and how many frames are left, all in decimal; a page has 4,096 bytes. After want of memory part of it
/// may stand in the text.
pub fn append_generated(
    alloc: Global,
    text: &mut Bytes,
    number: u64,
    guests: u64,
    ram: u64,
    tables: u64,
    free: u64,
) -> Result<(), AllocError>
    ensures { OnOk result (text.new ≡ text.old ++ generated_line number guests ram tables free) }
{
    append_count(alloc, text, b"gen ", number)?;
    append_count(alloc, text, b" guests ", guests)?;
    append_count(alloc, text, b" ram ", ram)?;
    append_count(alloc, text, b" tables ", tables)?;
    append_count(alloc, text, b" free ", free)?;
    text.append(b"\n")
}

/// Adds the line of an interrupt.
pub(crate) fn append_spi(alloc: Global, report: &mut Bytes, number: u32) -> Result<(), AllocError>
    ensures { OnOk result (report.new ≡ report.old ++ spi_line number) }
{
    report.append(b"  spi ")?;
    report.append_decimal(alloc, u64::from(number))?;
    report.append(b"\n")
}

/// Adds the other side of a port.
fn append_peer(alloc: Global, report: &mut Bytes, peer: u64) -> Result<(), AllocError>
    ensures { OnOk result (report.new ≡ report.old ++ peer_text peer) }
{
    if peer == DOM0 {
        return report.append(b"dom0");
    }
    report.append(b"domU")?;
    report.append_decimal(alloc, peer)
}

/// Adds the line of a port.
pub(crate) fn append_port(
    alloc: Global,
    report: &mut Bytes,
    port: (u32, u64, u32),
) -> Result<(), AllocError>
    ensures { OnOk result (report.new ≡ report.old ++ port_line port) }
{
    report.append(b"  port ")?;
    report.append_decimal(alloc, u64::from(port.0))?;
    report.append(b" to ")?;
    append_peer(alloc, report, port.1)?;
    report.append(b" ")?;
    report.append_decimal(alloc, u64::from(port.2))?;
    report.append(b"\n")
}

/// The pages of memory in a run.
fn ram_in(run: &MapRange) -> u64
    ensures { result ≡ ram_in run.now }
{
    match run.kind {
        Kind::Ram => run.count,
        Kind::Device | Kind::Shared => 0,
    }
}

/// The pages of memory in runs.
pub(crate) fn pages_in(runs: &[MapRange]) -> u64
    requires { ram_pages runs.now < 2 ^ 64 }
    ensures { result ≡ ram_pages runs.now }
{
    let mut pages = 0;
    for run in runs {
        pages += ram_in(run);
    }
    pages
}

/// Adds a guest's name and path.
fn append_name(alloc: Global, report: &mut Bytes, plan: &GuestPlan) -> Result<(), AllocError>
    ensures { OnOk result (report.new ≡ report.old ++ name_text plan.now) }
{
    report.append(b"domU")?;
    report.append_decimal(alloc, plan.number)?;
    report.append(b" ")?;
    report.append(plan.path.as_slice())
}

/// Adds a guest's counts.
fn append_counts(
    alloc: Global,
    report: &mut Bytes,
    plan: &GuestPlan,
    tables: u64,
) -> Result<(), AllocError>
    requires { ram_pages plan.now.ranges < 2 ^ 64 }
    ensures { OnOk result (report.new ≡ report.old ++ counts_text plan.now tables) }
{
    let pages = pages_in(plan.ranges.as_slice());
    report.append(b" cpus ")?;
    report.append_decimal(alloc, u64::from(plan.cpus))?;
    report.append(b" ram ")?;
    report.append_decimal(alloc, pages)?;
    report.append(b" tables ")?;
    report.append_decimal(alloc, tables)
}

/// Adds the first line of a guest.
pub(crate) fn append_head(
    alloc: Global,
    report: &mut Bytes,
    plan: &GuestPlan,
    tables: u64,
) -> Result<(), AllocError>
    requires { ram_pages plan.now.ranges < 2 ^ 64 }
    ensures { OnOk result (report.new ≡ report.old ++ head_line plan.now tables) }
{
    append_name(alloc, report, plan)?;
    append_counts(alloc, report, plan, tables)?;
    report.append(b"\n")
}
