// Names and lists of names.
ghost use Rattle.mt_term.specs.Seen.{seen};
ghost use Rattle.std.specs.Prelude.{◌≡◌, [], ◌∷◌, ◌++◌, length, slice_get, IfOk, OnOk, OnErr};

use std::alloc::{AllocError, AllocFailed, Global};
use std::clone::Clone;
use std::marker::Model;

/// A name, seen as the list of its bytes.
#[derive(Drop, Debug)]
pub struct Name {
    bytes: Vec<u8>,
}

impl Model for Name {
    ghost use Rattle.std.specs.Prelude.{ℕ, List};

    ghost Value = { List ℕ };

    ghost view = { λ n. n.bytes.items };
}

impl Name {
    /// The empty name.
    pub fn new(alloc: Global) -> Name
        ensures { result ≡ [] }
    {
        Name {
            bytes: Vec::new(alloc),
        }
    }

    /// The name of these bytes.
    pub fn from_vec(bytes: Vec<u8>) -> Name
        ensures { result ≡ bytes.items }
    {
        Name { bytes }
    }

    /// The name of these bytes, copied.
    pub fn from_bytes(alloc: Global, bytes: &[u8]) -> Result<Name, AllocError>
        ensures { IfOk result (λ n. n ≡ bytes.now) }
    {
        Ok(Name {
            bytes: bytes.to_vec(alloc)?,
        })
    }

    /// The bytes.
    pub fn as_bytes(&self) -> &[u8]
        ensures { result.now ≡ self.now }
    {
        &self.bytes
    }
}

impl Clone for Name {
    fn clone(&self) -> Result<Name, AllocError>
        ensures { IfOk result (λ n. n ≡ self.now) }
    {
        Ok(Name {
            bytes: self.bytes.clone()?,
        })
    }
}

/// Names, in order.
#[derive(Drop, Debug)]
pub struct Names {
    items: Vec<Name>,
}

impl Model for Names {
    ghost use Rattle.std.specs.Prelude.{ℕ, List};

    ghost Value = { List (List ℕ) };

    ghost view = { λ n. n.items.items };
}

impl Names {
    /// No names.
    pub fn new(alloc: Global) -> Names
        ensures { result ≡ [] }
    {
        Names {
            items: Vec::new(alloc),
        }
    }

    /// Appends a name.
    pub fn push(&mut self, name: Name) -> Result<(), AllocError>
        ensures ok { OnOk result (self.new ≡ self.old ++ name ∷ []) }
        ensures err { OnErr result (self.new ≡ self.old) }
    {
        self.items.push(name)?;
        Ok(())
    }

    /// How many names there are.
    pub fn len(&self) -> usize
        ensures { result ≡ length self.now }
    {
        self.items.len()
    }

    /// The name at a place.
    pub fn get(&self, at: usize) -> Option<&Name>
        ensures { seen result ≡ slice_get self.now at }
    {
        self.items.get(at)
    }

    /// The names as a slice.
    pub fn as_slice(&self) -> &[Name]
        ensures { result.now ≡ self.now }
    {
        &self.items
    }
}

impl Clone for Names {
    fn clone(&self) -> Result<Names, AllocError>
        ensures { IfOk result (λ n. n ≡ self.now) }
    {
        let mut items = Vec::new(*self.items.allocator());
        for name in &self.items {
            items.push(name.clone()?)?;
        }
        Ok(Names { items })
    }
}
