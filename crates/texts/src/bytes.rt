// Bytes that contracts see as their list.
ghost use Rattle.std.specs.Prelude.{◌≡◌, [], ◌++◌, OnOk, OnErr, IfOk, decimal};
ghost use Rattle.texts.specs.NumberTexts.{hexadecimal};
ghost use Rattle.texts.specs.Stores.{stored};

use std::alloc::{AllocError, Global};
use std::marker::Model;
use std::rc::Rc;

// Where bytes are kept.
#[derive(Debug, Drop)]
enum Store {
    // In a vector of their own.
    Own(Vec<u8>),
    // In a vector that copies share.
    Shared(Rc<Vec<u8>>),
}

impl Store {
    fn as_slice(&self) -> &[u8]
        ensures { result.now ≡ stored self.now }
    {
        match self {
            Store::Own(bytes) => bytes.as_slice(),
            Store::Shared(bytes) => bytes.as_ref().as_slice(),
        }
    }
}

// A vector of its own with the bytes of a shared one.
fn to_vec(shared: &Rc<Vec<u8>>) -> Result<Vec<u8>, AllocError>
    ensures { IfOk result (λ copy. copy.items ≡ shared.now.value.items) }
{
    let bytes = shared.as_ref();
    bytes.as_slice().to_vec(*bytes.allocator())
}

/// Bytes that need not be UTF-8, as paths, names and ids of a device tree are. Copies of `into_shared`'s answer share
/// its memory.
#[derive(Debug, Drop)]
pub struct Bytes {
    store: Store,
}

impl Model for Bytes {
    ghost use Rattle.std.specs.Prelude.{ℕ, List};
    ghost use Rattle.texts.specs.Stores.{stored};

    ghost Value = { List ℕ };

    ghost view = { λ bytes. stored bytes.store };
}

impl Bytes {
    /// No bytes. Takes no memory.
    pub fn new(alloc: Global) -> Bytes
        ensures { result ≡ [] }
    {
        Bytes {
            store: Store::Own(Vec::new(alloc)),
        }
    }

    /// All the bytes.
    pub fn as_slice(&self) -> &[u8]
        ensures { result.now ≡ self.now }
    {
        self.store.as_slice()
    }

    /// The same bytes, in a form of which a copy takes no memory.
    pub fn into_shared(self) -> Result<Bytes, AllocError>
        ensures { IfOk result (λ shared. shared ≡ self) }
    {
        let store = match self.store {
            Store::Own(bytes) => Store::Shared(Rc::new(*bytes.allocator(), bytes)?),
            shared => shared,
        };
        Ok(Bytes { store })
    }

    /// A copy, which of shared bytes takes no memory.
    pub fn copy(&self, alloc: Global) -> Result<Bytes, AllocError>
        ensures { IfOk result (λ copy. copy ≡ self.now) }
    {
        let store = match &self.store {
            Store::Own(bytes) => Store::Own(bytes.as_slice().to_vec(alloc)?),
            Store::Shared(bytes) => Store::Shared(bytes.clone()?),
        };
        Ok(Bytes { store })
    }

    /// Adds `more` at the end. After want of memory the bytes are as they were.
    pub fn append(&mut self, more: &[u8]) -> Result<(), AllocError>
        ensures ok { OnOk result (self.new ≡ self.old ++ more.now) }
        ensures err { OnErr result (self.new ≡ self.old) }
    {
        match &mut self.store {
            Store::Own(bytes) => bytes.extend_from_slice(more),
            Store::Shared(shared) => {
                let mut own = to_vec(shared)?;
                own.extend_from_slice(more)?;
                self.store = Store::Own(own);
                Ok(())
            }
        }
    }

    /// Adds a number in decimal digits. After want of memory the bytes are as they were.
    pub fn append_decimal(&mut self, alloc: Global, number: u64) -> Result<(), AllocError>
        ensures ok { OnOk result (self.new ≡ self.old ++ decimal number) }
        ensures err { OnErr result (self.new ≡ self.old) }
    {
        let shown = format!(in alloc; "{number}")?;
        self.append(shown.as_bytes())
    }

    /// Adds a number as `0x` and lower-case hexadecimal digits. After want of memory the bytes are as they were.
    pub fn append_hexadecimal(&mut self, alloc: Global, number: u64) -> Result<(), AllocError>
        ensures ok { OnOk result (self.new ≡ self.old ++ hexadecimal number) }
        ensures err { OnErr result (self.new ≡ self.old) }
    {
        let shown = format!(in alloc; "0x{number:x}")?;
        self.append(shown.as_bytes())
    }

    /// Gives the bytes back as a vector. Takes memory where they are shared.
    pub fn into_vec(self) -> Result<Vec<u8>, AllocError>
        ensures { IfOk result (λ vector. vector.items ≡ self) }
    {
        match self.store {
            Store::Own(bytes) => Ok(bytes),
            Store::Shared(bytes) => match Rc::try_unwrap(bytes) {
                Ok(bytes) => Ok(bytes),
                Err(shared) => to_vec(&shared),
            },
        }
    }
}

/// Takes the vector over, without memory of its own.
impl From<Vec<u8>> for Bytes {
    ghost from_gives = { λ v b. b ≡ v.items };

    fn from(inner: Vec<u8>) -> Bytes {
        Bytes {
            store: Store::Own(inner),
        }
    }
}
