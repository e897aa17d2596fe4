// The pool of free host frames.
ghost use Rattle.std.specs.Prelude.{◌≡◌, ◌+◌, ◌^◌, ◌<◌, ◌≤◌, ◌⊎◌, drop, length, Some, None, Err, IfOk, IfErr, OnOk, OnErr};
ghost use Rattle.frame_alloc.specs.Frames.{frames_in, AreFrameRanges, AreFrames, without, lowest_frame, lowest_run, lowest_chunk, lowest_pair, chunk_count};

use crate::extent_list::ExtentList;
use crate::extents::{extents_of, frame_count};
use crate::groups::{CHUNK_SIZE, PAIR_SIZE, chunks_in, lowest_group, lowest_run};
use crate::removal::{remove_range, take_lowest};
use std::alloc::{AllocError, Global};
use std::marker::Model;
use texts::{FrameRange, List};

/// Why the pool gave nothing.
#[derive(Clone, Copy, PartialEq, Eq, Debug)]
pub enum PoolFault {
    /// No 512 consecutive frames from a multiple of 512 on are free.
    NoChunk,
    /// No two consecutive frames from an even one on are free.
    NoPair,
    /// No run of so many consecutive frames is free.
    NoRun,
    /// There is no memory for one more extent, as a split would need.
    Memory,
}

/// The free host frames, each a host page of 4,096 bytes named by its address divided by 4,096. Contracts see the
/// ascending list of them, and as `spare` how many more extents there is room for.
#[derive(Drop)]
pub struct FramePool {
    extents: ExtentList,
}

/// Want of memory is the fault Memory.
impl From<AllocError> for PoolFault {
    ghost use Rattle.frame_alloc.specs.declared.pool.PoolFault.{PoolFault};

    ghost from_gives = { λ _ fault. fault ≡ PoolFault.Memory };

    fn from(_error: AllocError) -> PoolFault {
        PoolFault::Memory
    }
}

impl Model for FramePool {
    ghost use Rattle.frame_alloc.specs.Pools.{Pool};

    ghost Value = { Pool };

    ghost use Rattle.frame_alloc.specs.PoolViews.{pool_view, IsPool};

    ghost view = { pool_view };

    ghost invariant = { IsPool };
}

impl FramePool {
    /// The pool of the frames of sorted ranges, which end at or below frame 2^28. Ranges may touch, and empty ones add
    /// nothing. Its only error is want of memory.
    pub fn new(alloc: Global, free: &List<FrameRange>) -> Result<FramePool, AllocError>
        requires { AreFrameRanges free.now }
        ensures { IfOk result (λ pool. pool.free ≡ frames_in free.now) }
    {
        Ok(FramePool {
            extents: extents_of(alloc, free.as_slice())?,
        })
    }

    /// Makes room for `extents` more extents: for as many calls of `carve`, `take_run`, `take_chunk` and `take_pair`, each
    /// of which adds one at most. Want of memory comes only where there is less room than that, and the free frames stay.
    pub fn reserve(&mut self, extents: u64) -> Result<(), AllocError>
        ensures same { self.new.free ≡ self.old.free }
        ensures grown { self.old.spare ≤ self.new.spare }
        ensures ok { OnOk result (extents ≤ self.new.spare) }
        ensures room { OnErr result (self.old.spare < extents) }
    {
        let wanted = (extents as usize).saturating_sub(self.extents.unused_count);
        self.extents.slots.reserve(wanted)
    }

    /// Takes every free frame of a range away, which ends at or below frame 2^28. Want of memory comes only where nothing
    /// is spare, and changes nothing.
    pub fn carve(&mut self, range: FrameRange) -> Result<(), AllocError>
        requires { range.first + range.count ≤ 2 ^ 28 }
        ensures ok { OnOk result (self.new.free ≡ without range.first range.count self.old.free) }
        ensures err { OnErr result (self.new ≡ self.old) }
        ensures room { OnErr result (self.old.spare ≡ 0) }
        ensures spare { self.old.spare ≤ self.new.spare + 1 }
    {
        remove_range(&mut self.extents, range.first, range.count)
    }

    /// Takes the lowest run of `count` consecutive free frames away, and answers its first frame. NoRun exactly where there
    /// is none. Memory comes only where nothing is spare. A refusal changes nothing.
    pub fn take_run(&mut self, count: u64) -> Result<u64, PoolFault>
        requires { 0 < count }
        ensures run { IfOk result (λ first. lowest_run count self.old.free ≡ Some first) }
        ensures ok { IfOk result (λ first. self.new.free ≡ without first count self.old.free) }
        ensures none { IfErr result (λ fault. fault ≡ PoolFault.NoRun → lowest_run count self.old.free ≡ None) }
        ensures missing { lowest_run count self.old.free ≡ None → result ≡ Err PoolFault.NoRun }
        ensures only { IfErr result (λ fault. (fault ≡ PoolFault.NoRun) ⊎ (fault ≡ PoolFault.Memory)) }
        ensures room { IfErr result (λ fault. fault ≡ PoolFault.Memory → self.old.spare ≡ 0) }
        ensures err { OnErr result (self.new ≡ self.old) }
        ensures spare { self.old.spare ≤ self.new.spare + 1 }
    {
        let first = lowest_run(&self.extents, count).ok_or(PoolFault::NoRun)?;
        remove_range(&mut self.extents, first, count)?;
        Ok(first)
    }

    /// Takes the lowest chunk away, and answers its first frame: 512 consecutive free frames, the first a multiple of
    /// 512. NoChunk exactly where there is none. Memory comes only where nothing is spare. A refusal changes nothing.
    pub fn take_chunk(&mut self) -> Result<u64, PoolFault>
        ensures chunk { IfOk result (λ first. lowest_chunk self.old.free ≡ Some first) }
        ensures ok { IfOk result (λ first. self.new.free ≡ without first 512 self.old.free) }
        ensures none { IfErr result (λ fault. fault ≡ PoolFault.NoChunk → lowest_chunk self.old.free ≡ None) }
        ensures missing { lowest_chunk self.old.free ≡ None → result ≡ Err PoolFault.NoChunk }
        ensures only { IfErr result (λ fault. (fault ≡ PoolFault.NoChunk) ⊎ (fault ≡ PoolFault.Memory)) }
        ensures room { IfErr result (λ fault. fault ≡ PoolFault.Memory → self.old.spare ≡ 0) }
        ensures err { OnErr result (self.new ≡ self.old) }
        ensures spare { self.old.spare ≤ self.new.spare + 1 }
    {
        let first = lowest_group(&self.extents, CHUNK_SIZE).ok_or(PoolFault::NoChunk)?;
        remove_range(&mut self.extents, first, CHUNK_SIZE)?;
        Ok(first)
    }

    /// Takes the lowest pair away, and answers its first frame: two consecutive free frames, the first even. NoPair
    /// exactly where there is none. Memory comes only where nothing is spare. A refusal changes nothing.
    pub fn take_pair(&mut self) -> Result<u64, PoolFault>
        ensures pair { IfOk result (λ first. lowest_pair self.old.free ≡ Some first) }
        ensures ok { IfOk result (λ first. self.new.free ≡ without first 2 self.old.free) }
        ensures none { IfErr result (λ fault. fault ≡ PoolFault.NoPair → lowest_pair self.old.free ≡ None) }
        ensures missing { lowest_pair self.old.free ≡ None → result ≡ Err PoolFault.NoPair }
        ensures only { IfErr result (λ fault. (fault ≡ PoolFault.NoPair) ⊎ (fault ≡ PoolFault.Memory)) }
        ensures room { IfErr result (λ fault. fault ≡ PoolFault.Memory → self.old.spare ≡ 0) }
        ensures err { OnErr result (self.new ≡ self.old) }
        ensures spare { self.old.spare ≤ self.new.spare + 1 }
    {
        let first = lowest_group(&self.extents, PAIR_SIZE).ok_or(PoolFault::NoPair)?;
        remove_range(&mut self.extents, first, PAIR_SIZE)?;
        Ok(first)
    }

    /// Takes the lowest free frame away, and answers it. None exactly where no frame is free. Takes no memory.
    pub fn take_frame(&mut self) -> Option<u64>
        ensures lowest_frame { result ≡ lowest_frame self.old.free }
        ensures rest { self.new.free ≡ drop 1 self.old.free }
        ensures spare { self.old.spare ≤ self.new.spare }
    {
        take_lowest(&mut self.extents)
    }

    /// How many frames are free. The free frames are ascending and below 2^28. Takes no memory.
    pub fn free_frames(&self) -> u64
        ensures count { result ≡ length self.now.free }
        ensures ascending { AreFrames self.now.free }
    {
        frame_count(&self.extents)
    }

    /// How many chunks `take_chunk` could still give. Takes no memory.
    pub fn chunks(&self) -> u64
        ensures { result ≡ chunk_count self.now.free }
    {
        chunks_in(&self.extents)
    }
}
