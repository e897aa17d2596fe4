// Images: their words and pages, the tables of a map, and how many words an audit reads.
ghost use Rattle.std.specs.Prelude.{◌<◌, ◌≤◌};

use described::{Kind, MapRange};
use frame_alloc::FramePool;
use stage2_tables::{TableFault, build_tables};
use stage2_walk::{Counted, Image, Run, TableWords, runs};
use std::alloc::{AllocError, Global};
use std::test::Fail;
use texts::{FrameRange, List};

/// A pool of so many frames from `first` on.
fn frames(alloc: Global, first: u64, count: u64) -> Result<FramePool, AllocError>
    requires near { first ≤ 16 }
    requires few { count ≤ 16 }
{
    let mut ranges = List::new(alloc);
    ranges.push(FrameRange { first, count })?;
    FramePool::new(alloc, &ranges)
}

/// The tables of guest pages from 1 GiB on, which go to as many frames from `first` on.
fn tables(
    alloc: Global,
    first: u64,
    count: u64,
    kind: Kind,
    pool: &mut FramePool,
) -> Result<Image, TableFault>
    requires near { first ≤ 0x40000 }
    requires some { 0 < count }
    requires few { count ≤ 1024 }
{
    let mut ranges = List::new(alloc);
    ranges.push(MapRange {
        page: 0x40000,
        first,
        count,
        kind,
    })?;
    build_tables(alloc, &ranges, pool)
}

#[test]
fn word_that_is_put_is_there(rt: HostRuntime) -> Result<(), Fail> {
    let mut image = Image::new(rt.alloc(), 2);
    image.reserve(2)?;
    image.push(2);
    assert!(rt; !image.holds(3));
    image.push(3);
    assert!(rt; image.holds(3));
    image.put(3, 511, 0x1003);
    assert_eq!(rt; image.word(3, 511), Some(0x1003));
    assert_eq!(rt; image.word(2, 511), Some(0));
    Ok(())
}

#[test]
fn tables_are_drawn_from_the_lowest_frames_around_a_pair(rt: HostRuntime) -> Result<(), Fail> {
    let mut pool = frames(rt.alloc(), 1, 9)?;
    let image = tables(rt.alloc(), 0x10, 1, Kind::Device, &mut pool)?;
    assert_eq!(rt; image.root(), 2);
    assert_eq!(rt; image.page_count(), 4);
    assert_eq!(rt; image.frame_at(2), 1);
    assert_eq!(rt; image.frame_at(3), 4);
    assert_eq!(rt; image.word(2, 1), Some(0x1003));
    assert_eq!(rt; image.word(1, 0), Some(0x4003));
    assert_eq!(rt; image.word(4, 0), Some(0x0040_0000_0001_06c7));
    assert_eq!(rt; pool.free_frames(), 5);
    Ok(())
}

#[test]
fn too_few_frames_are_told_and_stay(rt: HostRuntime) -> Result<(), Fail> {
    let mut pool = frames(rt.alloc(), 2, 3)?;
    let refused = tables(rt.alloc(), 0x10, 1, Kind::Device, &mut pool).err();
    assert_eq!(rt; refused, Some(TableFault::NoFrame { needed: 4, free: 3 }));
    assert_eq!(rt; pool.free_frames(), 3);
    Ok(())
}

#[test]
fn frames_without_a_pair_are_told_and_stay(rt: HostRuntime) -> Result<(), Fail> {
    let mut pool = frames(rt.alloc(), 1, 7)?;
    for half in 1..4 {
        pool.carve(FrameRange {
            first: 2 * half,
            count: 1,
        })?;
    }
    let refused = tables(rt.alloc(), 0x10, 1, Kind::Device, &mut pool).err();
    assert_eq!(rt; refused, Some(TableFault::NoPair { needed: 4, free: 4 }));
    assert_eq!(rt; pool.free_frames(), 4);
    Ok(())
}

/// A block of 2 MiB and a page behind it, in an image whose words are counted.
fn block_and_page(alloc: Global) -> Result<Counted, TableFault> {
    let mut pool = frames(alloc, 2, 4)?;
    Ok(Counted::new(tables(alloc, 0x40000, 513, Kind::Ram, &mut pool)?))
}

#[test]
fn audit_reads_each_word_once(rt: HostRuntime) -> Result<(), Fail> {
    let mut words = block_and_page(rt.alloc())?;
    let root = words.root();
    assert!(rt; words.holds(root));
    assert!(rt; words.holds(root + 1));
    let found = runs(rt.alloc(), &mut words)?;
    let run = Run {
        page: 0x40000,
        first: 0x40000,
        count: 513,
        attr: 0x7fc,
    };
    assert_eq!(rt; found.as_slice(), [run].as_slice());
    assert_eq!(rt; words.reads(), 2048);
    Ok(())
}
