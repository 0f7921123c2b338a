ghost use Rattle.std.specs.Prelude.{◌≡◌, ◌-◌, ◌^◌, ◌<◌, [], ◌∷◌, ◌++◌, false, OnOk, OnErr, length, map, position};
ghost use Rattle.std.specs.List.{list_any};
ghost use Rattle.opt_tables.specs.Keys.{known_by, known_names, are_same, Name};

use crate::key::Key;
use indexmap::IndexSet;
use std::alloc::{AllocError, Global};
use std::marker::Model;

/// Different keys in the order in which they were added, each found in constant time. Contracts see the bytes of their
/// names.
pub struct Keys<'a> {
    /// The keys up to the first that is more than a name. A name alone takes a third of the memory of a key.
    names: IndexSet<&'a str>,
    /// The keys from there on.
    others: IndexSet<Key<'a>>,
}

impl<'a> Model for Keys<'a> {
    ghost use Rattle.std.specs.Prelude.{List, ◌++◌, ◌+◌, ◌^◌, ◌<◌, map};
    ghost use Rattle.indexmap.specs.IndexSet.{index_set_len};
    ghost use Rattle.opt_tables.specs.Keys.{Known, known_by, known_names};

    ghost Value = { List Known };

    ghost view = { λ keys. known_names keys.names.keys ++ map known_by keys.others.keys };

    ghost invariant = { λ keys. index_set_len keys.names + index_set_len keys.others < 2 ^ 32 };
}

// By hand, so that proofs about values that hold one need not look into the sets.
impl Drop for Keys<'_> {
    fn drop(self) {
        let Keys {
            names: _names,
            others: _others,
        } = self;
    }
}

/// Whether a key is one of these names.
fn is_among(names: &IndexSet<&str>, key: Key<'_>) -> bool
    ensures { result ≡ list_any (are_same (known_by key.entry)) (known_names names.now.keys) }
{
    let Key::Name(name) = key else {
        return false;
    };
    names.contains(name)
}

impl<'a> Keys<'a> {
    /// No keys.
    pub fn new(alloc: Global) -> Keys<'a>
        ensures { result ≡ [] }
    {
        Keys {
            names: IndexSet::new(alloc),
            others: IndexSet::new(alloc),
        }
    }

    /// Whether a key is one of these.
    pub fn has(&self, key: Key<'a>) -> bool
        ensures { result ≡ list_any (are_same (known_by key.entry)) self.now }
    {
        is_among(&self.names, key) || self.others.contains(&key)
    }

    /// The place of a name among these, from 0.
    pub fn find(&self, name: &str) -> Option<u32>
        ensures { result ≡ position (are_same (Name name.now)) self.now }
    {
        if let Some(place) = self.names.get_index_of(name) {
            return Some(place as u32);
        }
        let place = self.others.get_index_of(&Key::Name(name))?;
        Some((self.names.len() + place) as u32)
    }

    /// Adds a key that is not one of these.
    pub fn add(&mut self, key: Key<'a>) -> Result<(), AllocError>
        requires fits { length self.old < 2 ^ 32 - 1 }
        requires absent { list_any (are_same (known_by key)) self.old ≡ false }
        ensures ok { OnOk result (self.new ≡ self.old ++ known_by key.entry ∷ []) }
        ensures err { OnErr result (self.new ≡ self.old) }
    {
        match key {
            Key::Name(name) => self.add_name(name),
            _ => self.add_behind(key),
        }
    }

    /// Adds a name that is not one of these.
    fn add_name(&mut self, name: &'a str) -> Result<(), AllocError>
        requires fits { length self.old < 2 ^ 32 - 1 }
        requires absent { list_any (are_same (Name name.now)) self.old ≡ false }
        ensures ok { OnOk result (self.new ≡ self.old ++ Name name.now ∷ []) }
        ensures err { OnErr result (self.new ≡ self.old) }
    {
        if !self.others.is_empty() {
            return self.add_behind(Key::Name(name));
        }
        self.names.insert(name)?;
        Ok(())
    }

    /// Adds a key that is not one of these behind the names that are kept alone.
    fn add_behind(&mut self, key: Key<'a>) -> Result<(), AllocError>
        requires fits { length self.old < 2 ^ 32 - 1 }
        requires absent { list_any (are_same (known_by key)) self.old ≡ false }
        ensures ok { OnOk result (self.new ≡ self.old ++ known_by key.entry ∷ []) }
        ensures err { OnErr result (self.new ≡ self.old) }
    {
        self.others.insert(key)?;
        Ok(())
    }
}
