// A text that contracts see as the list of its bytes.
ghost use Rattle.std.specs.Prelude.{◌≡◌, [], ◌++◌, OnOk, OnErr};

use std::alloc::{AllocError, Global};
use std::hash::{Hash, Hasher};
use std::marker::Model;

/// A text that contracts see as the list of its bytes.
#[derive(Debug, Drop)]
pub struct Text {
    inner: String,
}

impl Model for Text {
    ghost use Rattle.std.specs.Prelude.{ℕ, List, string_bytes};

    ghost Value = { List ℕ };

    ghost view = { λ text. string_bytes text.inner };
}

impl Text {
    /// No text. Takes no memory.
    pub fn new(alloc: Global) -> Text
        ensures { result ≡ [] }
    {
        Text {
            inner: String::new(alloc),
        }
    }

    /// The bytes of the text.
    pub fn as_slice(&self) -> &[u8]
        ensures { result.now ≡ self.now }
    {
        self.inner.as_bytes()
    }

    /// The text.
    pub fn as_str(&self) -> &str
        ensures { result.now ≡ self.now }
    {
        self.inner.as_str()
    }

    /// Adds `more` at the end. After want of memory the text is as it was.
    pub fn append(&mut self, more: &str) -> Result<(), AllocError>
        ensures ok { OnOk result (self.new ≡ self.old ++ more.now) }
        ensures err { OnErr result (self.new ≡ self.old) }
    {
        self.inner.push_str(more)
    }
}

/// Two texts are equal where their bytes are.
impl PartialEq for Text {
    ghost use Rattle.std.specs.Prelude.{bytes_eq};
    ghost use Rattle.std.proofs.Common.{rules};
    ghost use Rattle.std.specs.Cmp.Rules.{comparing};

    ghost eq = { bytes_eq };

    ghost laws = { Prim.search (comparing, rules) };

    fn eq(&self, other: &Text) -> bool {
        self.as_str() == other.as_str()
    }
}

impl Eq for Text {
    ghost use Rattle.std.proofs.Common.{rules};
    ghost use Rattle.std.specs.Cmp.Rules.{comparing};

    ghost laws = { Prim.search (comparing, rules) };
}

/// A text feeds a hasher what a `str` of the same bytes does.
impl Hash for Text {
    ghost use Rattle.std.specs.Hash as fed;
    ghost use Rattle.std.proofs.Common.{rules};
    ghost use Rattle.std.specs.Cmp.Rules.{hashing};

    ghost hash_input = { λ text. fed.str text };

    ghost respects_eq = { Prim.search (hashing, rules) };

    fn hash<H: Hasher>(&self, state: &mut H) {
        self.as_str().hash(state);
    }
}
