// Laws over the definitions. Each is the contract of a function that does nothing.
ghost use Rattle.source_text.specs.ReadLaws.{IsOne, IsReadBack};

/// A text says one tree and one list of reservations, if any.
pub fn one_source()
    ensures { IsOne }
{}

/// What is printed says what it was printed from: for a tree with an unnamed root, names in their sets, values of bytes and a
/// depth of at most 32, and reservations of 64-bit numbers without a pair of zeros.
pub fn printed_is_read()
    ensures { IsReadBack }
{}
