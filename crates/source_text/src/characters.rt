// The characters of source.
ghost use Rattle.std.specs.Prelude.{◌≡◌, not};
ghost use Rattle.std.specs.List.{list_all};
ghost use Rattle.source_text.specs.Characters.{is_node_byte, is_property_byte, is_space, is_string_byte};
ghost use Rattle.source_text.specs.Printed.{is_string};
ghost use Rattle.source_text.specs.BadNames.{is_bad_node};

/// Whether a node's name may have this character.
#[tactic(auto, unfolding(crate::specs::Characters::is_node_byte))]
pub(crate) fn is_in_node_name(c: u8) -> bool
    ensures { result ≡ is_node_byte c }
{
    (97 <= c && c <= 122 || 65 <= c && c <= 90 || 48 <= c && c <= 57)
        || (c == 44 || c == 46 || c == 95 || c == 43 || c == 45 || c == 64)
}

/// Whether a property's name may have this character.
#[tactic(auto, unfolding(crate::specs::Characters::is_property_byte))]
pub(crate) fn is_in_property_name(c: u8) -> bool
    ensures { result ≡ is_property_byte c }
{
    (97 <= c && c <= 122 || 65 <= c && c <= 90 || 48 <= c && c <= 57)
        || (c == 44 || c == 46 || c == 95 || c == 43 || c == 63 || c == 35 || c == 45)
}

/// Whether a string in quotes may have this character.
#[tactic(auto, unfolding(crate::specs::Characters::is_string_byte))]
pub(crate) fn is_in_string(c: u8) -> bool
    ensures { result ≡ is_string_byte c }
{
    32 <= c && c <= 126 && !(c == 34 || c == 92)
}

/// Whether the character is a space, a tab, a line feed or a carriage return.
#[tactic(auto, unfolding(crate::specs::Characters::is_space))]
pub(crate) fn is_spacing(c: u8) -> bool
    ensures { result ≡ is_space c }
{
    c == 32 || c == 9 || c == 10 || c == 13
}

/// Whether all characters of a name may stand in a node's name.
pub(crate) fn is_node_name(name: &[u8]) -> bool
    ensures { result ≡ list_all is_node_byte name.now }
{
    name.iter().all(|c| is_in_node_name(*c))
}

/// Whether all characters of a name may stand in a property's name.
pub(crate) fn is_property_name(name: &[u8]) -> bool
    ensures { result ≡ list_all is_property_byte name.now }
{
    name.iter().all(|c| is_in_property_name(*c))
}

/// Whether all characters may stand in a string in quotes.
fn are_in_string(text: &[u8]) -> bool
    ensures { result ≡ list_all is_string_byte text.now }
{
    text.iter().all(|c| is_in_string(*c))
}

/// Whether bytes are shown as a string in quotes.
pub(crate) fn is_shown_in_quotes(text: &[u8]) -> bool
    ensures { result ≡ is_string text.now }
{
    !text.is_empty() && are_in_string(text)
}
