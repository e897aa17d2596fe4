// The words of the command line.
ghost use Rattle.std.specs.Prelude.{◌≡◌, map, string_bytes, option_copied};
ghost use Rattle.filters.specs.Words.{asked_file};

/// The name of the file that the words of a filter ask for, the program's name first: `-`, which is standard input, where
/// there is no other word. Words that ask for none are more than two.
#[tactic(auto, unfolding(crate::specs::Words::asked_file))]
pub fn read_words(words: &[String]) -> Option<&str>
    ensures { option_copied result ≡ asked_file (map string_bytes words.now) }
{
    match words {
        [_] => Some("-"),
        [_, file] => Some(file.as_str()),
        _ => None,
    }
}
