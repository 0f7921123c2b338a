//! Items that are sorted into piles by number.
ghost use Rattle.std.specs.Prelude.{◌≡◌, ◌<◌, [], ◌∷◌, ◌++◌, length, replicate, IfOk, OnOk};
ghost use Rattle.opt_model.specs.Quantities.{list_if};
ghost use Rattle.opt_rows.specs.Piles.{pile_at, pile_with};

use std::alloc::{AllocError, Global};
use std::marker::Model;

/// Items in the order in which they were added.
#[derive(Debug, Drop)]
struct Pile<T> {
    items: Vec<T>,
}

impl<T> Model for Pile<T> {
    ghost use Rattle.std.specs.Prelude.{List};

    ghost Value = { List T };

    ghost view = { λ p. p.items.items };
}

impl<T: Copy> Pile<T> {
    /// No item.
    fn new(alloc: Global) -> Pile<T>
        ensures { result ≡ [] }
    {
        Pile {
            items: Vec::new(alloc),
        }
    }

    /// Adds an item.
    fn add(&mut self, item: T) -> Result<(), AllocError>
        ensures { OnOk result (self.new ≡ self.old ++ item ∷ []) }
    {
        self.items.push(item)?;
        Ok(())
    }
}

/// Piles by their numbers, from 0.
#[derive(Debug, Drop)]
pub struct Piles<T> {
    piles: Vec<Pile<T>>,
}

impl<T> Model for Piles<T> {
    ghost use Rattle.std.specs.Prelude.{List};

    ghost Value = { List (List T) };

    ghost view = { λ p. p.piles.items };
}

impl<T: Copy> Piles<T> {
    /// So many piles without an item.
    pub fn new(alloc: Global, count: usize) -> Result<Piles<T>, AllocError>
        ensures { IfOk result (λ piles. piles ≡ replicate count []) }
    {
        let mut piles = Vec::with_capacity(alloc, count)?;
        for _ in 0..count {
            piles.push(Pile::new(alloc))?;
        }
        Ok(Piles { piles })
    }

    /// Adds an item to the pile of this number; where there is no such pile, it is passed over.
    pub fn add(&mut self, number: u32, item: T) -> Result<(), AllocError>
        ensures { OnOk result (self.new ≡ pile_with self.old number (item ∷ [])) }
    {
        if (number as usize) < self.piles.len() {
            self.piles[number as usize].add(item)?;
        }
        Ok(())
    }

    /// The same where the item is wanted.
    pub fn add_if(&mut self, is_wanted: bool, number: u32, item: T) -> Result<(), AllocError>
        ensures { OnOk result
            (self.new ≡ pile_with self.old number (list_if is_wanted (item ∷ []))) }
    {
        if is_wanted {
            self.add(number, item)?;
        }
        Ok(())
    }

    /// The items of the pile of this number.
    pub fn pile(&self, number: u32) -> &[T]
        requires { number < length self.now }
        ensures { result.now ≡ pile_at self.now number }
    {
        self.piles[number as usize].items.as_slice()
    }
}
