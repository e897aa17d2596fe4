// Where a byte leads the reader.
ghost use Rattle.std.specs.Prelude.{◌≡◌, ◌≤◌, false, ◌+◌, ◌*◌, ◌^◌, ◌||◌, ◌&&◌, Option, Some, None, nat_lt, suc, length, slice_get, if◌then◌else◌};
ghost use Rattle.std.specs.Char.{digit_value};
ghost use Rattle.source_text.specs.Characters.{is_space};
ghost use Rattle.source_text.specs.PrivateTurns as turns;

use crate::characters::{is_in_node_name, is_in_property_name, is_in_string, is_spacing};
use crate::state::{Action, Comment, Digits, Keyword, Kind, Next};

/// Where a byte leads, as to comments and what comes next, and what it adds; none where it cannot stand.
type Turn = Option<(Comment, Next, Action)>;

/// The numbers of an address and a size are below this.
const WIDE_LIMIT: u128 = 1 << 64;

/// The numbers of cells are below this.
const CELL_LIMIT: u128 = 1 << 32;

fn to(next: Next, action: Action) -> Turn
    ensures { result ≡ turns.to next action }
{
    Some((Comment::Outside, next, action))
}

fn pass(next: Next) -> Turn
    ensures { result ≡ turns.pass next }
{
    to(next, Action::Pass)
}

/// The turn where the byte is the wanted one.
fn only(wanted: u8, turn: Turn, c: u8) -> Turn
    ensures { result ≡ turns.only wanted turn c }
{
    if c == wanted { turn } else { None }
}

/// The value of a digit or a letter, and 36 for any other byte.
fn digit_of(c: u8) -> u8
    ensures value { result ≡ digit_value c }
    ensures small { result ≤ 36 }
{
    if c < 48 {
        36
    } else if c < 58 {
        c - 48
    } else if c < 65 {
        36
    } else if c < 91 {
        c - 55
    } else if c < 97 {
        36
    } else if c < 123 {
        c - 87
    } else {
        36
    }
}

/// A number with one more digit, where it is below the limit.
fn grown(limit: u128, number: u64, base: u8, digit: u8) -> Option<u64>
    requires { limit ≤ 2 ^ 64 }
    ensures { result ≡ if nat_lt (number * base + digit) limit then Some (number * base + digit) else None }
{
    let grown = u128::from(number) * u128::from(base) + u128::from(digit);
    if grown < limit {
        Some(grown as u64)
    } else {
        None
    }
}

/// The digits with one more.
fn with_digit(limit: u128, digits: Digits, c: u8) -> Option<Digits>
    requires { limit ≤ 2 ^ 64 }
    ensures { result ≡ turns.with_digit limit digits c }
{
    let digit = digit_of(c);
    match digits {
        Digits::Zero => {
            if c == b'x' {
                Some(Digits::Prefix)
            } else {
                None
            }
        }
        Digits::Prefix => {
            if digit < 16 {
                Some(Digits::Hexadecimal(u64::from(digit)))
            } else {
                None
            }
        }
        Digits::Hexadecimal(number) => match grown(limit, number, 16, digit) {
            Some(number) => Some(Digits::Hexadecimal(number)),
            None => None,
        },
        Digits::Decimal(number) => match grown(limit, number, 10, digit) {
            Some(number) => Some(Digits::Decimal(number)),
            None => None,
        },
    }
}

/// The first digit of a number.
fn first_digit(c: u8) -> Option<Digits>
    ensures { result ≡ turns.first_digit c }
{
    let digit = digit_of(c);
    if c == b'0' {
        Some(Digits::Zero)
    } else if digit < 10 {
        Some(Digits::Decimal(u64::from(digit)))
    } else {
        None
    }
}

/// The byte goes on with the number, or cannot stand.
fn is_digit_of(digits: Digits, c: u8) -> bool
    ensures { result ≡ turns.is_digit_of digits c }
{
    match digits {
        Digits::Zero => c == b'x',
        Digits::Prefix => true,
        Digits::Hexadecimal(_) => digit_of(c) < 16,
        Digits::Decimal(_) => digit_of(c) < 10,
    }
}

/// The number so far.
fn number_of(digits: Digits) -> u64
    ensures { result ≡ turns.number_of digits }
{
    match digits {
        Digits::Zero | Digits::Prefix => 0,
        Digits::Hexadecimal(number) | Digits::Decimal(number) => number,
    }
}

fn may_be_property(kind: Kind) -> bool
    ensures { result ≡ turns.may_be_property kind }
{
    match kind {
        Kind::Node => false,
        Kind::Either | Kind::Property => true,
    }
}

fn may_be_node(kind: Kind) -> bool
    ensures { result ≡ turns.may_be_node kind }
{
    match kind {
        Kind::Property => false,
        Kind::Either | Kind::Node => true,
    }
}

/// One more byte of a name, which may still be that of a property, and of a node.
fn name_turn(action: Action, property: bool, node: bool) -> Turn
    ensures { result ≡ turns.name_turn action property node }
{
    match (property, node) {
        (true, true) => to(Next::Name(Kind::Either), action),
        (true, false) => to(Next::Name(Kind::Property), action),
        (false, true) => to(Next::Name(Kind::Node), action),
        (false, false) => None,
    }
}

/// Behind a name.
fn after_name_turn(kind: Kind, c: u8) -> Turn
    ensures { result ≡ turns.after_name_turn kind c }
{
    if may_be_property(kind) && c == b';' {
        to(Next::Body(true), Action::GiveEmpty)
    } else if may_be_property(kind) && c == b'=' {
        to(Next::Value, Action::StartValue)
    } else if may_be_node(kind) && c == b'{' {
        to(Next::Body(true), Action::Open)
    } else {
        None
    }
}

/// Behind the semicolon of a node, above which so many are open.
fn closed_turn(depth: u32) -> Turn
    ensures { result ≡ turns.closed_turn depth }
{
    if depth == 0 {
        pass(Next::Over)
    } else {
        to(Next::Body(false), Action::Close)
    }
}

/// In a node: its end, a name, or nothing else.
fn body_turn(fresh: bool, depth: u32, c: u8) -> Turn
    ensures { result ≡ turns.body_turn fresh depth c }
{
    if c == b'}' {
        pass(Next::Closed)
    } else {
        name_turn(
            Action::StartName,
            fresh && is_in_property_name(c),
            depth < 31 && is_in_node_name(c),
        )
    }
}

/// A value begins.
fn value_turn(c: u8) -> Turn
    ensures { result ≡ turns.value_turn c }
{
    if c == b'"' {
        pass(Next::Quoted)
    } else if c == b'<' {
        pass(Next::Cells(true))
    } else if c == b'[' {
        pass(Next::Pairs)
    } else {
        None
    }
}

/// The digits of a cell.
fn cell_digits(found: Option<Digits>) -> Turn
    ensures { result ≡ turns.digits_turn Next.CellDigits found }
{
    match found {
        Some(digits) => pass(Next::CellDigits(digits)),
        None => None,
    }
}

/// The digits of an address.
fn address_digits(found: Option<Digits>) -> Turn
    ensures { result ≡ turns.digits_turn Next.AddressDigits found }
{
    match found {
        Some(digits) => pass(Next::AddressDigits(digits)),
        None => None,
    }
}

/// The digits of a size.
fn size_digits(found: Option<Digits>) -> Turn
    ensures { result ≡ turns.digits_turn Next.SizeDigits found }
{
    match found {
        Some(digits) => pass(Next::SizeDigits(digits)),
        None => None,
    }
}

/// Between cells.
fn cells_turn(separated: bool, c: u8) -> Turn
    ensures { result ≡ turns.cells_turn separated c }
{
    if c == b'>' {
        pass(Next::AfterValue)
    } else if separated {
        cell_digits(first_digit(c))
    } else {
        None
    }
}

/// Between bytes.
fn pairs_turn(c: u8) -> Turn
    ensures { result ≡ turns.pairs_turn c }
{
    let digit = digit_of(c);
    if c == b']' {
        pass(Next::AfterValue)
    } else if digit < 16 {
        pass(Next::Half(digit))
    } else {
        None
    }
}

/// Behind a value.
fn after_value_turn(c: u8) -> Turn
    ensures { result ≡ turns.after_value_turn c }
{
    if c == b',' {
        pass(Next::Value)
    } else if c == b';' {
        to(Next::Body(true), Action::Give)
    } else {
        None
    }
}

/// A byte that is no spacing, where spacing could stand. So many nodes are open above the innermost one.
fn token_turn(next: Next, depth: u32, c: u8) -> Turn
    ensures { result ≡ turns.token_turn next depth c }
{
    match next {
        Next::Address(true) => address_digits(first_digit(c)),
        Next::Size(true) => size_digits(first_digit(c)),
        Next::VersionEnd | Next::ReserveEnd => only(b';', pass(Next::Item), c),
        Next::RootOpen => only(b'{', pass(Next::Body(true)), c),
        Next::Body(fresh) => body_turn(fresh, depth, c),
        Next::AfterName(kind) => after_name_turn(kind, c),
        Next::Value => value_turn(c),
        Next::Cells(separated) => cells_turn(separated, c),
        Next::Pairs => pairs_turn(c),
        Next::AfterValue => after_value_turn(c),
        Next::Closed => only(b';', closed_turn(depth), c),
        _ => None,
    }
}

/// What comes next behind some spacing.
fn spaced(next: Next) -> Next
    ensures { result ≡ turns.spaced next }
{
    match next {
        Next::Address(_) => Next::Address(true),
        Next::Size(_) => Next::Size(true),
        Next::Cells(_) => Next::Cells(true),
        _ => next,
    }
}

/// Where spacing may stand: a space, the `/` of a comment, or a byte that is none.
fn gap_turn(next: Next, depth: u32, c: u8) -> Turn
    ensures { result ≡ turns.gap_turn next depth c }
{
    if is_spacing(c) {
        pass(spaced(next))
    } else if c == b'/' {
        Some((Comment::Slash, next, Action::Pass))
    } else {
        token_turn(next, depth, c)
    }
}

/// The same turn, with what is whole with it.
fn with_action(action: Action, turn: Turn) -> Turn
    ensures { result ≡ turns.with_action action turn }
{
    match turn {
        Some((comment, next, _)) => Some((comment, next, action)),
        None => None,
    }
}

/// In an address.
fn address_turn(digits: Digits, depth: u32, c: u8) -> Turn
    ensures { result ≡ turns.number_turn (2 ^ 64) digits Next.AddressDigits (Next.Size false) Action.SetAddress depth c }
{
    if is_digit_of(digits, c) {
        address_digits(with_digit(WIDE_LIMIT, digits, c))
    } else {
        with_action(
            Action::SetAddress(number_of(digits)),
            gap_turn(Next::Size(false), depth, c),
        )
    }
}

/// In a size.
fn size_turn(digits: Digits, depth: u32, c: u8) -> Turn
    ensures { result ≡ turns.number_turn (2 ^ 64) digits Next.SizeDigits Next.ReserveEnd Action.AddReserve depth c }
{
    if is_digit_of(digits, c) {
        size_digits(with_digit(WIDE_LIMIT, digits, c))
    } else {
        with_action(
            Action::AddReserve(number_of(digits)),
            gap_turn(Next::ReserveEnd, depth, c),
        )
    }
}

/// In a cell.
fn cell_turn(digits: Digits, depth: u32, c: u8) -> Turn
    ensures { result ≡ turns.number_turn (2 ^ 32) digits Next.CellDigits (Next.Cells false) Action.PushWord depth c }
{
    if is_digit_of(digits, c) {
        cell_digits(with_digit(CELL_LIMIT, digits, c))
    } else {
        with_action(
            Action::PushWord(number_of(digits)),
            gap_turn(Next::Cells(false), depth, c),
        )
    }
}

/// The bytes of a keyword between its slashes.
fn word_text(word: Keyword) -> &'static [u8]
    ensures { result.now ≡ turns.word_text word }
{
    match word {
        Keyword::Version => b"dts-v1",
        Keyword::Reserve => b"memreserve",
    }
}

/// What comes behind a keyword.
fn after_word(word: Keyword) -> Next
    ensures { result ≡ turns.after_word word }
{
    match word {
        Keyword::Version => Next::VersionEnd,
        Keyword::Reserve => Next::Address(false),
    }
}

/// One more byte of a keyword, behind so many: the next one, or its last slash.
fn word_turn(word: Keyword, read: u8, c: u8) -> Turn
    ensures { result ≡ turns.word_turn word read (slice_get (turns.word_text word) read) c }
{
    match word_text(word).get(usize::from(read)) {
        None => only(
            b'/',
            Some((Comment::Fresh, after_word(word), Action::Pass)),
            c,
        ),
        Some(wanted) => only(*wanted, pass(Next::Word(word, read + 1)), c),
    }
}

/// In a string.
fn quoted_turn(c: u8) -> Turn
    ensures { result ≡ turns.quoted_turn c }
{
    if c == b'"' {
        to(Next::AfterValue, Action::PushByte(0))
    } else if is_in_string(c) {
        to(Next::Quoted, Action::PushByte(u16::from(c)))
    } else {
        None
    }
}

/// The second digit of a byte.
fn half_turn(high: u8, c: u8) -> Turn
    ensures { result ≡ turns.half_turn high c }
{
    let digit = digit_of(c);
    if digit < 16 {
        to(
            Next::Pairs,
            Action::PushByte(u16::from(high) * 16 + u16::from(digit)),
        )
    } else {
        None
    }
}

/// In a name.
fn in_name_turn(kind: Kind, depth: u32, c: u8) -> Turn
    ensures { result ≡ turns.in_name_turn kind depth c }
{
    if is_in_property_name(c) || is_in_node_name(c) {
        name_turn(
            Action::PushName,
            may_be_property(kind) && is_in_property_name(c),
            may_be_node(kind) && is_in_node_name(c),
        )
    } else {
        gap_turn(Next::AfterName(kind), depth, c)
    }
}

/// A byte outside comments.
fn outside_turn(next: Next, depth: u32, c: u8) -> Turn
    ensures { result ≡ turns.outside_turn next depth c }
{
    match next {
        Next::Word(word, read) => word_turn(word, read, c),
        Next::AddressDigits(digits) => address_turn(digits, depth, c),
        Next::SizeDigits(digits) => size_turn(digits, depth, c),
        Next::CellDigits(digits) => cell_turn(digits, depth, c),
        Next::Name(kind) => in_name_turn(kind, depth, c),
        Next::Quoted => quoted_turn(c),
        Next::Half(high) => half_turn(high, c),
        _ => gap_turn(next, depth, c),
    }
}

/// A byte behind a `/` that begins no comment: a keyword, or the root.
fn slash_turn(next: Next, c: u8) -> Turn
    ensures { result ≡ turns.slash_turn next c }
{
    match next {
        Next::Start => only(b'd', pass(Next::Word(Keyword::Version, 1)), c),
        Next::Item => {
            if c == b'm' {
                pass(Next::Word(Keyword::Reserve, 1))
            } else if c == b'{' {
                pass(Next::Body(true))
            } else if is_spacing(c) {
                pass(Next::RootOpen)
            } else {
                None
            }
        }
        _ => None,
    }
}

/// Where a byte leads.
pub(crate) fn turn(comment: Comment, next: Next, depth: u32, c: u8) -> Turn
    ensures { result ≡ turns.turn comment next depth c }
{
    match comment {
        Comment::Outside => outside_turn(next, depth, c),
        Comment::Fresh => {
            if c == b'/' {
                None
            } else {
                gap_turn(next, depth, c)
            }
        }
        Comment::Slash => match c {
            b'/' => Some((Comment::ToFeed, next, Action::Pass)),
            b'*' => Some((Comment::ToStar, next, Action::Pass)),
            _ => slash_turn(next, c),
        },
        Comment::ToFeed => {
            if c == b'\n' {
                pass(spaced(next))
            } else {
                Some((Comment::ToFeed, next, Action::Pass))
            }
        }
        Comment::ToStar => {
            if c == b'*' {
                Some((Comment::Star, next, Action::Pass))
            } else {
                Some((Comment::ToStar, next, Action::Pass))
            }
        }
        Comment::Star => {
            if c == b'/' {
                pass(spaced(next))
            } else if c == b'*' {
                Some((Comment::Star, next, Action::Pass))
            } else {
                Some((Comment::ToStar, next, Action::Pass))
            }
        }
    }
}

/// Whether a text may end here, as to comments.
fn may_end(comment: Comment) -> bool
    ensures { result ≡ turns.may_end comment }
{
    match comment {
        Comment::Outside | Comment::ToFeed => true,
        _ => false,
    }
}

/// Whether the root is closed.
fn is_over(next: Next) -> bool
    ensures { result ≡ turns.is_over next }
{
    match next {
        Next::Over => true,
        _ => false,
    }
}

/// Whether a text that ends here is whole.
pub(crate) fn is_done(comment: Comment, next: Next) -> bool
    ensures { result ≡ turns.is_done comment next }
{
    may_end(comment) && is_over(next)
}
