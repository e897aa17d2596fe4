// What a stage 2 descriptor means.
ghost use Rattle.std.specs.Prelude.{◌≡◌, ◌≤◌, ◌<◌, ◌^◌, ◌+◌};
ghost use Rattle.described.specs.Regions.{span};
ghost use Rattle.stage2_walk.specs.Descriptors.{meaning, leaf, bits, frame_field, attribute_field};
ghost use Rattle.stage2_walk.specs.MeaningFrames.{HasLowFrame};

use crate::levels::pages_spanned;

/// What a stage 2 descriptor means (Arm ARM, VMSAv8-64 stage 2 descriptor formats). Frames are addresses divided by
/// 4,096.
#[derive(Clone, Copy, PartialEq, Eq, Debug)]
pub enum Meaning {
    /// Bit 0 is clear: nothing is mapped.
    Invalid,
    /// Bits 1:0 are 01 at level 3: nothing is mapped.
    Reserved,
    /// The table of the next level is in this frame.
    Table { frame: u64 },
    /// A page or block: its first frame, and bits 54:51 and 11:2 of the word in their places.
    Leaf { frame: u64, attr: u64 },
}

/// `width` bits of a word, from bit `low` on.
fn field(word: u64, low: u32, width: u32) -> u64
    requires { low + width ≤ 63 }
    ensures value { result ≡ bits word low width }
    ensures fits { result < 2 ^ width }
{
    (word >> low) % (1 << width)
}

/// The leaf that a word of a level is.
fn leaf_of(word: u64, level: u8) -> Meaning
    requires at_least { 1 ≤ level }
    requires at_most { level ≤ 3 }
    ensures leaf { result ≡ leaf level word }
    ensures low { HasLowFrame result }
{
    let span = pages_spanned(level);
    Meaning::Leaf {
        frame: field(word, 12, 36) / span * span,
        attr: (field(word, 51, 4) << 51) + (field(word, 2, 10) << 2),
    }
}

/// What a word of a level means.
#[tactic(auto, unfolding(crate::specs::Descriptors::meaning))]
pub fn describe(word: u64, level: u8) -> Meaning
    requires at_least { 1 ≤ level }
    requires at_most { level ≤ 3 }
    ensures meaning { result ≡ meaning level word }
    ensures low { HasLowFrame result }
{
    if field(word, 0, 1) == 0 {
        return Meaning::Invalid;
    }
    if field(word, 1, 1) == 1 {
        if level == 3 {
            return leaf_of(word, level);
        }
        return Meaning::Table {
            frame: field(word, 12, 36),
        };
    }
    if level == 3 {
        return Meaning::Reserved;
    }
    leaf_of(word, level)
}
