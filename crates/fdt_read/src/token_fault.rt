// Where a token may stand, and which names it may have.
ghost use Rattle.std.specs.Prelude.{◌≡◌, ◌==◌, not};
ghost use Rattle.std.specs.List.{list_all};
ghost use Rattle.fdt_read.specs.Found.{meant};
ghost use Rattle.texts.specs.Rows.{first_that_applies};
ghost use Rattle.fdt_read.specs.Refusals.{rows_at};
ghost use Rattle.fdt_read.specs.Spelling.{is_name};

use crate::fault::FdtFault;
use crate::tokens::Found;

/// Whether a name is not empty and has no `/`.
fn named(name: &[u8]) -> bool
    ensures { result ≡ is_name name.now }
{
    !name.is_empty() && has_no_slash(name)
}

/// Whether a name has no `/`.
fn has_no_slash(name: &[u8]) -> bool
    ensures { result ≡ list_all (λ c. not (c == 47)) name.now }
{
    name.iter().all(|c| *c != b'/')
}

/// The fault of a token at an offset, by what is known of those before it: how many nodes are open, whether there was a
/// node, and whether the last token that is no PROP and no NOP was END_NODE.
pub fn fault_of(
    level: u32,
    started: bool,
    past_child: bool,
    offset: u64,
    found: &Found,
) -> Option<FdtFault>
    ensures { result ≡ first_that_applies (rows_at level started past_child offset (meant found.now)) }
{
    match found {
        Found::Broken => Some(FdtFault::Token(offset)),
        Found::Nop => None,
        Found::End => {
            if level > 0 || !started {
                Some(FdtFault::Token(offset))
            } else {
                None
            }
        }
        Found::EndNode => {
            if !started || level == 0 {
                Some(FdtFault::Token(offset))
            } else {
                None
            }
        }
        Found::Begin(name) => {
            if started && level == 0 {
                Some(FdtFault::Token(offset))
            } else if started && !named(name) {
                Some(FdtFault::Name(offset))
            } else if level == 32 {
                Some(FdtFault::Deep(offset))
            } else {
                None
            }
        }
        Found::Property(name, _) => {
            if !started || level == 0 {
                return Some(FdtFault::Token(offset));
            }
            match name {
                None => Some(FdtFault::Name(offset)),
                Some(name) => {
                    if name.as_slice().is_empty() {
                        Some(FdtFault::Name(offset))
                    } else if past_child {
                        Some(FdtFault::Order(offset))
                    } else {
                        None
                    }
                }
            }
        }
    }
}
