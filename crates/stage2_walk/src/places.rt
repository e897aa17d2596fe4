// The index of an image: at which place the page of a frame stands.
ghost use Rattle.std.specs.Prelude.{◌≡◌, ◌<◌, ◌≤◌, length};
ghost use Rattle.std.specs.List.{AllWithin};
ghost use Rattle.stage2_walk.specs.Places.{place_in, AreAscending};

/// A frame, and how many pages stand before its page.
#[derive(Clone, Copy, PartialEq, Eq, Debug)]
pub struct Place {
    pub frame: u64,
    pub place: usize,
}

/// How many entries of an ascending index have a lower frame.
pub fn count_below(index: &[Place], frame: u64) -> usize
    requires { AreAscending index.now }
    ensures within { result ≤ length index.now }
    ensures below { AllWithin (λ entry. entry.frame < frame) index.now 0 result }
    ensures above { AllWithin (λ entry. frame ≤ entry.frame) index.now result (length index.now) }
{
    index.partition_point(|entry| entry.frame < frame)
}

/// The place of the page of a frame, or `None` where an ascending index has no such frame.
pub fn find_place(index: &[Place], frame: u64) -> Option<usize>
    requires { AreAscending index.now }
    ensures { result ≡ place_in index.now frame }
{
    let count = count_below(index, frame);
    if count == index.len() {
        return None;
    }
    if index[count].frame != frame {
        return None;
    }
    Some(index[count].place)
}
