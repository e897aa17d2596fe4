// Where the reader stands in a text.
/// Where the reader stands as to comments.
#[derive(Clone, Copy, Debug)]
pub(crate) enum Comment {
    /// In none.
    Outside,
    /// In none, and none begins here: the byte before was the last `/` of a keyword.
    Fresh,
    /// Behind a `/` that may begin one.
    Slash,
    /// In one that ends at the line feed.
    ToFeed,
    /// In one that ends at `*/`.
    ToStar,
    /// In one that ends at `*/`, behind a `*`.
    Star,
}

/// The words between slashes.
#[derive(Clone, Copy, Debug)]
pub(crate) enum Keyword {
    /// `/dts-v1/`
    Version,
    /// `/memreserve/`
    Reserve,
}

/// What a name may still be that of.
#[derive(Clone, Copy, Debug)]
pub(crate) enum Kind {
    /// A property or a node.
    Either,
    /// A property.
    Property,
    /// A node.
    Node,
}

/// How far a number is read, and what it is so far.
#[derive(Clone, Copy, Debug)]
pub(crate) enum Digits {
    /// `0`
    Zero,
    /// `0x`
    Prefix,
    /// `0x` and digits.
    Hexadecimal(u64),
    /// Digits of which the first is no `0`.
    Decimal(u64),
}

/// What comes next.
#[derive(Clone, Copy, Debug)]
pub(crate) enum Next {
    /// `/dts-v1/`.
    Start,
    /// The byte of a keyword behind so many of its bytes.
    Word(Keyword, u8),
    /// The semicolon behind `/dts-v1/`.
    VersionEnd,
    /// A reservation or the root.
    Item,
    /// The address of a reservation, behind some spacing or none.
    Address(bool),
    /// More digits of the address, or what follows it.
    AddressDigits(Digits),
    /// The size of a reservation, behind some spacing or none.
    Size(bool),
    /// More digits of the size, or what follows it.
    SizeDigits(Digits),
    /// The semicolon behind a reservation.
    ReserveEnd,
    /// The brace that opens the root.
    RootOpen,
    /// A node, the end of the open one, or, where no node stands in it yet, a property.
    Body(bool),
    /// More of a name, or what follows it.
    Name(Kind),
    /// What follows a name.
    AfterName(Kind),
    /// A value.
    Value,
    /// More of a string, or its end.
    Quoted,
    /// A word behind some spacing or none, or the end of words.
    Cells(bool),
    /// More digits of a word, or what follows it.
    CellDigits(Digits),
    /// The first digit of a byte, or the end of bytes.
    Pairs,
    /// The second digit of a byte, behind the first.
    Half(u8),
    /// A comma and one more value, or the end of a property.
    AfterValue,
    /// The semicolon behind the brace that closes a node.
    Closed,
    /// Nothing: the root is closed.
    Over,
}

/// What a byte adds to what was read.
#[derive(Clone, Copy, Debug)]
pub(crate) enum Action {
    /// Nothing.
    Pass,
    /// The first byte of a name.
    StartName,
    /// One more byte of a name.
    PushName,
    /// The address of a reservation.
    SetAddress(u64),
    /// The size of a reservation, which is whole.
    AddReserve(u64),
    /// The beginning of a value.
    StartValue,
    /// One more byte of a value.
    PushByte(u16),
    /// One more word of a value.
    PushWord(u64),
    /// A property with its value.
    Give,
    /// A property without a value.
    GiveEmpty,
    /// The beginning of a node.
    Open,
    /// The end of a node below the root.
    Close,
}
