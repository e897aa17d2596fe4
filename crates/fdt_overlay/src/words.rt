// The words of the command line.
ghost use Rattle.std.specs.Prelude.{◌≡◌, map, string_bytes, option_map};
ghost use Rattle.fdt_overlay.specs.Asked.{asked};
ghost use Rattle.fdt_overlay.specs.PrivateMeant.{meant};

/// The most overlays of one run.
const OVERLAY_LIMIT: usize = 16;

/// The files that the words name.
#[derive(Clone, Copy)]
pub(crate) struct Asked<'a> {
    /// The tree that the overlays are applied to.
    pub(crate) base: &'a str,
    /// The tree that is written.
    pub(crate) out: &'a str,
    /// The overlays, in the order in which they are applied.
    pub(crate) overlays: &'a [String],
}

/// What the words ask for, the program's name first.
#[tactic(auto, unfolding(crate::specs::Asked::asked))]
pub(crate) fn read_words(words: &[String]) -> Option<Asked<'_>>
    ensures { option_map meant result ≡ asked (map string_bytes words.now) }
{
    match words {
        [_, base, out, overlays @ ..] => {
            if overlays.is_empty() || overlays.len() > OVERLAY_LIMIT {
                None
            } else {
                Some(Asked {
                    base: base.as_str(),
                    out: out.as_str(),
                    overlays,
                })
            }
        }
        _ => None,
    }
}
