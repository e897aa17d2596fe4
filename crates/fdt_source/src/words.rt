// The words of the command line.
ghost use Rattle.std.specs.Prelude.{◌≡◌, map, string_bytes, option_map};
ghost use Rattle.fdt_source.specs.Words.{asked};
ghost use Rattle.fdt_source.specs.PrivateMeant.{meant};

/// What the words ask for.
#[derive(Clone, Copy)]
pub(crate) enum Asked<'a> {
    /// The tree of this name is printed.
    Print(&'a str),
    /// The text of the first name is read, and its tree is written under the second.
    Build(&'a str, &'a str),
}

/// What the words ask for, the program's name first.
#[tactic(auto, unfolding(crate::specs::Words::asked))]
pub(crate) fn read_words(words: &[String]) -> Option<Asked<'_>>
    ensures { option_map meant result ≡ asked (map string_bytes words.now) }
{
    match words {
        [_, word, tree] => {
            if word.as_str() == "print" {
                Some(Asked::Print(tree.as_str()))
            } else {
                None
            }
        }
        [_, word, text, out] => {
            if word.as_str() == "build" {
                Some(Asked::Build(text.as_str(), out.as_str()))
            } else {
                None
            }
        }
        _ => None,
    }
}
