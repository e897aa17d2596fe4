// Items with their own reasons, and tests of ranges.
ghost use Rattle.std.specs.Prelude.{◌≡◌, ◌∷◌, []};
ghost use Rattle.described.specs.Reasons.{described, is_not_page, is_too_high, is_too_large};

use crate::{Described, Item, What, Why};

/// Whether one of two addresses or the size, in bytes, is no multiple of a page's 4,096 bytes, or the size is 0.
pub fn is_not_page(one: u64, other: u64, size: u64) -> bool
    ensures { result ≡ is_not_page (one ∷ other ∷ []) size }
{
    one % 4096 != 0 || other % 4096 != 0 || size % 4096 != 0 || size == 0
}

/// Whether a range of `size` bytes from one of two addresses on ends past 2^40.
pub fn is_too_high(one: u64, other: u64, size: u64) -> bool
    ensures { result ≡ is_too_high (one ∷ other ∷ []) size }
{
    ends_high(one, size) || ends_high(other, size)
}

// Whether a range ends past 2^40.
fn ends_high(address: u64, size: u64) -> bool
    ensures { result ≡ is_too_high (address ∷ []) size }
{
    u128::from(address) + u128::from(size) > 1 << 40
}

/// Whether a size in bytes is more than 1 GiB.
pub fn is_too_large(size: u64) -> bool
    ensures { result ≡ is_too_large size }
{
    size > 1 << 30
}

/// An item with its own reason; where it has one, what it describes is unread.
pub fn described(item: Item, own: Option<Why>, what: What) -> Described
    ensures { result ≡ described item own what }
{
    match own {
        None => Described {
            item,
            own: None,
            what,
        },
        Some(why) => Described {
            item,
            own: Some(why),
            what: What::Unread,
        },
    }
}
