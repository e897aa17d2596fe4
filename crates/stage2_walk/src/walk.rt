// The stage 2 walk over an image.
ghost use Rattle.std.specs.Prelude.{◌≡◌, ◌^◌, ◌<◌};
ghost use Rattle.stage2_walk.specs.Walks.{walk, walk_root, walk_middle, walk_page};

use crate::descriptor::{Meaning, describe};
use crate::image::Image;
use crate::levels::{region_offset, table_index};

/// Where the walk of a guest address ends (Arm ARM, VMSAv8-64 stage 2 translation).
#[derive(Clone, Copy, PartialEq, Eq, Debug)]
pub enum Step {
    /// At a host address, with bits 54:51 and 11:2 of the leaf word in their places.
    Mapped { address: u64, attr: u64 },
    /// At an invalid or reserved word of this level.
    Fault(u8),
    /// At a table of this level, in this frame, that the image lacks.
    NoPage(u8, u64),
}

impl Image {
    /// Where the walk of a guest address ends. Takes no memory.
    #[tactic(auto, unfolding(crate::specs::Walks::walk))]
    pub fn walk(&self, address: u64) -> Step
        requires { address < 2 ^ 40 }
        ensures { result ≡ walk self.now.pages self.now.root address }
    {
        self.walk_root(self.root() + address / (1 << 39), address)
    }

    /// The walk from a table of level 1 on.
    #[tactic(auto, unfolding(crate::specs::Walks::walk_root))]
    fn walk_root(&self, frame: u64, address: u64) -> Step
        requires { address < 2 ^ 40 }
        ensures { result ≡ walk_root self.now.pages address frame }
    {
        let Some(word) = self.word(frame, table_index(1, address)) else {
            return Step::NoPage(1, frame);
        };
        match describe(word, 1) {
            Meaning::Invalid => Step::Fault(1),
            Meaning::Reserved => Step::Fault(1),
            Meaning::Table { frame: next } => self.walk_middle(next, address),
            Meaning::Leaf { frame: first, attr } => Step::Mapped {
                address: first * 4096 + region_offset(1, address),
                attr,
            },
        }
    }

    /// The walk from a table of level 2 on.
    #[tactic(auto, unfolding(crate::specs::Walks::walk_middle))]
    fn walk_middle(&self, frame: u64, address: u64) -> Step
        requires { address < 2 ^ 40 }
        ensures { result ≡ walk_middle self.now.pages address frame }
    {
        let Some(word) = self.word(frame, table_index(2, address)) else {
            return Step::NoPage(2, frame);
        };
        match describe(word, 2) {
            Meaning::Invalid => Step::Fault(2),
            Meaning::Reserved => Step::Fault(2),
            Meaning::Table { frame: next } => self.walk_page(next, address),
            Meaning::Leaf { frame: first, attr } => Step::Mapped {
                address: first * 4096 + region_offset(2, address),
                attr,
            },
        }
    }

    /// The walk from a table of level 3 on.
    #[tactic(auto, unfolding(crate::specs::Walks::walk_page))]
    fn walk_page(&self, frame: u64, address: u64) -> Step
        requires { address < 2 ^ 40 }
        ensures { result ≡ walk_page self.now.pages address frame }
    {
        let Some(word) = self.word(frame, table_index(3, address)) else {
            return Step::NoPage(3, frame);
        };
        match describe(word, 3) {
            Meaning::Invalid => Step::Fault(3),
            Meaning::Reserved => Step::Fault(3),
            Meaning::Table { .. } => Step::Fault(3),
            Meaning::Leaf { frame: first, attr } => Step::Mapped {
                address: first * 4096 + region_offset(3, address),
                attr,
            },
        }
    }
}
