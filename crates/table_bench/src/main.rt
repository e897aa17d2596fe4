//! Jobs to measure, each with a number: `chunks N` draws N chunks from 16,777,216 free frames, `tables N` builds the tables of
//! N GiB of memory that lie one frame too high for blocks, so that each page has a word of its own, and `blocks N` those of
//! N GiB that lie right. It writes nothing, and answers how many chunks or tables there are.
#![tactic(auto)]

ghost use Rattle.std.specs.Prelude.{◌<◌, ◌≤◌};

use described::{Kind, MapRange};
use frame_alloc::FramePool;
use stage2_tables::build_tables;
use std::alloc::{AllocError, Global};
use std::io;
use texts::{FrameRange, List};

// All frames of 64 GiB of host memory.
const FRAMES: u64 = 1 << 24;

/// A pool of all frames.
fn pool(alloc: Global) -> Result<FramePool, AllocError> {
    let mut ranges = List::new(alloc);
    ranges.push(FrameRange {
        first: 0,
        count: FRAMES,
    })?;
    FramePool::new(alloc, &ranges)
}

/// Draws chunks, and answers how many there were.
fn draw_chunks(alloc: Global, count: u64) -> Result<u64, AllocError> {
    let mut pool = pool(alloc)?;
    let mut drawn = 0u64;
    for _ in 0..count {
        if pool.take_chunk().is_ok() {
            drawn = drawn.saturating_add(1);
        }
    }
    Ok(drawn)
}

/// Builds the tables of so many GiB of memory, which lies `shift` frames past a multiple of 1 GiB, and answers how many there
/// are; none where there is no room.
fn count_tables(alloc: Global, gigabytes: u64, shift: u64) -> Result<u64, AllocError>
    requires some { 0 < gigabytes }
    requires low { gigabytes ≤ 64 }
    requires near { shift ≤ 1 }
{
    let mut ranges = List::new(alloc);
    ranges.push(MapRange {
        page: 1 << 18,
        first: FRAMES + shift,
        count: gigabytes << 18,
        kind: Kind::Ram,
    })?;
    let mut pool = pool(alloc)?;
    match build_tables(alloc, &ranges, &mut pool) {
        Ok(image) => Ok(image.page_count() as u64),
        Err(_) => Ok(0),
    }
}

/// What a job answers, or nothing where there is no such job.
fn measured(alloc: Global, job: &str, number: u64) -> Result<Option<u64>, AllocError> {
    if job == "chunks" {
        return Ok(Some(draw_chunks(alloc, number)?));
    }
    if number == 0 || number > 64 {
        return Ok(None);
    }
    match job {
        "tables" => Ok(Some(count_tables(alloc, number, 1)?)),
        "blocks" => Ok(Some(count_tables(alloc, number, 0)?)),
        _ => Ok(None),
    }
}

fn main(rt: HostRuntime) -> io::Result<()> {
    let words: Vec<String> = std::env::args(&rt)?.collect(rt.alloc())?;
    if let [_, job, number] = words.as_slice() {
        if let Ok(number) = number.parse::<u64>() {
            if let Some(answer) = measured(rt.alloc(), job.as_str(), number)? {
                return println!(rt; "{job} {number}: {answer}");
            }
        }
    }
    println!(rt; "usage: table_bench chunks|tables|blocks NUMBER")
}
