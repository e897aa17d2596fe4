// The lines of a guest.
ghost use Rattle.std.specs.Prelude.{◌≡◌, ◌++◌, All, OnOk, flat_map};
ghost use Rattle.described.specs.Maps.{AreMapRanges};
ghost use Rattle.build_outputs.specs.ReportLines.{port_line, ram_pages, spi_line};
ghost use Rattle.described.specs.RunLines.{run_line, HasAddresses};
ghost use Rattle.build_outputs.specs.Report.{guest_lines};

use crate::report_lines::{append_head, append_port, append_spi, pages_in};
use described::{MapRange, append_run};
use domain_plan::GuestPlan;
use std::alloc::{AllocError, Global};
use texts::Bytes;

/// Adds the lines of a guest whose image has so many tables: its number, path, vCPUs, pages of memory and tables; then a
/// line for each run of its map, each interrupt and each port. Addresses are in bytes and hexadecimal, all counts in
/// decimal; a page has 4,096 bytes. After want of memory part of it may stand in the report.
#[tactic(auto, unfolding(crate::specs::Report::guest_lines))]
pub(crate) fn append_guest(
    alloc: Global,
    report: &mut Bytes,
    plan: &GuestPlan,
    tables: u64,
) -> Result<(), AllocError>
    requires { AreMapRanges plan.now.ranges }
    ensures { OnOk result (report.new ≡ report.old ++ guest_lines plan.now tables) }
{
    append_head(alloc, report, plan, tables)?;
    append_runs(alloc, report, plan.ranges.as_slice())?;
    append_spis(alloc, report, plan.spis.as_slice())?;
    append_ports(alloc, report, plan.ports.as_slice())
}

/// A guest's pages of memory, of 4,096 bytes each.
pub(crate) fn ram_pages(plan: &GuestPlan) -> u64
    requires { AreMapRanges plan.now.ranges }
    ensures { result ≡ ram_pages plan.now.ranges }
{
    pages_in(plan.ranges.as_slice())
}

/// Adds the lines of runs.
fn append_runs(alloc: Global, report: &mut Bytes, runs: &[MapRange]) -> Result<(), AllocError>
    requires { All HasAddresses runs.now }
    ensures { OnOk result (report.new ≡ report.old ++ flat_map run_line runs.now) }
{
    for run in runs {
        append_run(alloc, report, run)?;
    }
    Ok(())
}

/// Adds the lines of interrupts.
fn append_spis(alloc: Global, report: &mut Bytes, spis: &[u32]) -> Result<(), AllocError>
    ensures { OnOk result (report.new ≡ report.old ++ flat_map spi_line spis.now) }
{
    for number in spis {
        append_spi(alloc, report, *number)?;
    }
    Ok(())
}

/// Adds the lines of ports.
fn append_ports(
    alloc: Global,
    report: &mut Bytes,
    ports: &[(u32, u64, u32)],
) -> Result<(), AllocError>
    ensures { OnOk result (report.new ≡ report.old ++ flat_map port_line ports.now) }
{
    for port in ports {
        append_port(alloc, report, *port)?;
    }
    Ok(())
}
