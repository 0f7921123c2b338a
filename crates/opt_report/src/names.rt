//! The names of records, each found in constant time.
ghost use Rattle.std.specs.Prelude.{◌≡◌, ◌≤◌, ◌^◌, ℕ, List, count_by, length, map, position, bytes_eq, IfOk};

use indexmap::IndexSet;
use opt_base::OutOfMemory;
use opt_model::{Arc, Basket, Commodity, Nutrient, Offer, Place};
use std::alloc::Global;
use std::marker::Model;

/// A record that is known by a name.
pub trait Named: Sized {
    ghost use Rattle.std.specs.Prelude.{List, ℕ};

    /// The bytes of the name.
    ghost name_of: { Self → List ℕ };

    /// The name.
    fn name(&self) -> &str
        ensures { result.now ≡ name_of self.now };
}

impl Named for Basket {
    ghost name_of = { λ r. r.basket };

    fn name(&self) -> &str {
        self.basket.as_str()
    }
}

impl Named for Commodity {
    ghost name_of = { λ r. r.commodity };

    fn name(&self) -> &str {
        self.commodity.as_str()
    }
}

impl Named for Nutrient {
    ghost name_of = { λ r. r.nutrient };

    fn name(&self) -> &str {
        self.nutrient.as_str()
    }
}

impl Named for Offer {
    ghost name_of = { λ r. r.offer };

    fn name(&self) -> &str {
        self.offer.as_str()
    }
}

impl Named for Arc {
    ghost name_of = { λ r. r.arc };

    fn name(&self) -> &str {
        self.arc.as_str()
    }
}

impl Named for Place {
    ghost name_of = { λ r. r.place };

    fn name(&self) -> &str {
        self.place.as_str()
    }
}

/// Different names by their numbers, from 0. Contracts see their bytes.
#[derive(Debug)]
pub struct Names<'a> {
    names: IndexSet<&'a str>,
}

impl<'a> Model for Names<'a> {
    ghost use Rattle.std.specs.Prelude.{List, ℕ, map, length, ◌≤◌, ◌^◌};

    ghost Value = { List (List ℕ) };

    ghost view = { λ names. map (λ name. name.now) names.names.keys };

    ghost invariant = { λ names. length names.names.keys ≤ 2 ^ 24 };
}

// By hand, so that proofs about values that hold one need not look into the set.
impl Drop for Names<'_> {
    fn drop(self) {
        let Names { names: _names } = self;
    }
}

impl<'a> Names<'a> {
    /// The names of a table's records, no two of which are known by one.
    pub fn of<R: Named>(alloc: Global, records: &'a [R]) -> Result<Names<'a>, OutOfMemory>
        requires few { length records.now ≤ 2 ^ 24 }
        requires distinct { (name : List ℕ)
            → count_by (λ r. bytes_eq (R.name_of r) name) records.now ≤ 1 }
        ensures { IfOk result (λ names. names ≡ map R.name_of records.now) }
    {
        let mut names = IndexSet::new(alloc);
        for one in records {
            names.insert(one.name())?;
        }
        Ok(Names { names })
    }

    /// The number of a name, if it is one of these.
    pub fn find(&self, name: &str) -> Option<u32>
        ensures { result ≡ position (bytes_eq name.now) self.now }
    {
        let number = self.names.get_index_of(name)?;
        Some(number as u32)
    }
}
