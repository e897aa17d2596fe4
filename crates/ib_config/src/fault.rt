// Why a configuration is refused.
ghost use Rattle.std.specs.Prelude.{◌≡◌};
ghost use Rattle.ib_config.specs.declared.fault.ConfigFault.TheVariants.{Memory};

use std::alloc::{AllocError, AllocFailed};
use texts::Text;

/// Why a configuration is refused: a line at fault by its number, counted from 1, or a variable by its name and its
/// index, which is 0 for a variable without one.
#[derive(Drop)]
pub enum ConfigFault {
    /// The line is no UTF-8.
    NotUtf8(u64),
    /// The line does not begin with a name and `=` or `[`.
    BadName(u64),
    /// After `[` no index of one to four digits and `]=`.
    BadIndex(u64),
    /// The value begins with a quote that does not stand again on the line.
    OpenQuote(u64),
    /// The value has a character that bash would read in a special way, or something else than a comment follows it.
    NotPlain(u64),
    /// The name is one of ImageBuilder's that have no effect here.
    Unsupported(u64),
    /// The variable has to be there.
    Missing(Text, u64),
    /// The variable's text is outside its rule.
    BadValue(Text, u64),
    /// So many guests; there can be 16.
    TooMany(u64),
    /// Memory ran out.
    Memory,
}

impl From<AllocError> for ConfigFault {
    ghost from_gives = { λ _ fault. fault ≡ Memory };

    fn from(_: AllocError) -> ConfigFault {
        ConfigFault::Memory
    }
}

impl<T: Drop> From<AllocFailed<T>> for ConfigFault {
    ghost from_gives = { λ _ fault. fault ≡ Memory };

    fn from(_: AllocFailed<T>) -> ConfigFault {
        ConfigFault::Memory
    }
}
