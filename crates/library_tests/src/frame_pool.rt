// Draws with ample memory.
use frame_alloc::{FramePool, PoolFault};
use std::test::Fail;
use texts::{FrameRange, List};

#[test]
fn draws_a_chunk_a_pair_and_frames(rt: HostRuntime) -> Result<(), Fail> {
    let mut ranges = List::new(rt.alloc());
    ranges.push(FrameRange { first: 0, count: 1 })?;
    ranges.push(FrameRange {
        first: 2,
        count: 1022,
    })?;
    let mut pool = FramePool::new(rt.alloc(), &ranges)?;
    assert_eq!(rt; pool.free_frames(), 1023);
    assert_eq!(rt; pool.chunks(), 1);
    pool.reserve(2)?;
    assert_eq!(rt; pool.take_chunk(), Ok(512));
    assert_eq!(rt; pool.take_pair(), Ok(2));
    assert_eq!(rt; pool.take_frame(), Some(0));
    assert_eq!(rt; pool.take_frame(), Some(4));
    assert_eq!(rt; pool.take_chunk(), Err(PoolFault::NoChunk));
    assert_eq!(rt; pool.free_frames(), 507);
    Ok(())
}

#[test]
fn runs_are_the_lowest_that_are_long_enough(rt: HostRuntime) -> Result<(), Fail> {
    let mut ranges = List::new(rt.alloc());
    ranges.push(FrameRange { first: 0, count: 2 })?;
    ranges.push(FrameRange { first: 3, count: 5 })?;
    let mut pool = FramePool::new(rt.alloc(), &ranges)?;
    pool.reserve(1)?;
    assert_eq!(rt; pool.take_run(3), Ok(3));
    assert_eq!(rt; pool.take_run(2), Ok(0));
    assert_eq!(rt; pool.take_run(3), Err(PoolFault::NoRun));
    assert_eq!(rt; pool.take_run(2), Ok(6));
    assert_eq!(rt; pool.free_frames(), 0);
    Ok(())
}

#[test]
fn holes_in_every_eight_frames_leave_pairs_and_no_chunk(rt: HostRuntime) -> Result<(), Fail> {
    let mut ranges = List::new(rt.alloc());
    ranges.push(FrameRange {
        first: 0,
        count: 4096,
    })?;
    let mut pool = FramePool::new(rt.alloc(), &ranges)?;
    for index in 0..512 {
        pool.carve(FrameRange {
            first: 8 * index + 1,
            count: 1,
        })?;
    }
    assert_eq!(rt; pool.free_frames(), 3584);
    assert_eq!(rt; pool.chunks(), 0);
    assert_eq!(rt; pool.take_frame(), Some(0));
    assert_eq!(rt; pool.take_pair(), Ok(2));
    Ok(())
}

#[test]
fn pool_that_was_carved_whole_has_no_frame(rt: HostRuntime) -> Result<(), Fail> {
    let mut ranges = List::new(rt.alloc());
    ranges.push(FrameRange { first: 0, count: 8 })?;
    let mut pool = FramePool::new(rt.alloc(), &ranges)?;
    pool.carve(FrameRange { first: 0, count: 8 })?;
    assert_eq!(rt; pool.take_frame(), None);
    Ok(())
}
