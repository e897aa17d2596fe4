// The words of the command line.
ghost use Rattle.std.specs.Prelude.{◌≡◌, map, string_bytes, option_map};
ghost use Rattle.guest_load.specs.Words.{asked};
ghost use Rattle.guest_load.specs.PrivateMeant.{meant};

/// The files that the words name.
#[derive(Clone, Copy)]
pub(crate) struct Asked<'a> {
    /// The guest's tree.
    pub(crate) tree: &'a str,
    /// Its kernel.
    pub(crate) kernel: &'a str,
    /// The tree that is written.
    pub(crate) out: &'a str,
    /// The ramdisk, where there is one.
    pub(crate) ramdisk: Option<&'a str>,
}

/// What the words ask for, the program's name first.
#[tactic(auto, unfolding(crate::specs::Words::asked))]
pub(crate) fn read_words(words: &[String]) -> Option<Asked<'_>>
    ensures { option_map meant result ≡ asked (map string_bytes words.now) }
{
    match words {
        [_, tree, kernel, out] => Some(Asked {
            tree: tree.as_str(),
            kernel: kernel.as_str(),
            out: out.as_str(),
            ramdisk: None,
        }),
        [_, tree, kernel, out, ramdisk] => Some(Asked {
            tree: tree.as_str(),
            kernel: kernel.as_str(),
            out: out.as_str(),
            ramdisk: Some(ramdisk.as_str()),
        }),
        _ => None,
    }
}
