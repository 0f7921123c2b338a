ghost use Rattle.std.specs.Prelude.{◌≡◌, [], ◌∷◌, ◌++◌, ℕ, ℤ, List, IfOk, OnOk, OnErr};

use std::alloc::{AllocError, Global};
use std::marker::Model;

/// Terms of a row or of a column: numbers with their coefficients.
#[derive(Debug, Drop)]
pub struct Terms {
    items: Vec<(u32, i64)>,
}

impl Model for Terms {
    ghost Value = { List (ℕ × ℤ) };

    ghost view = { λ t. t.items.items };
}

impl Terms {
    /// No term.
    pub fn new(alloc: Global) -> Terms
        ensures { result ≡ [] }
    {
        Terms {
            items: Vec::new(alloc),
        }
    }

    /// A copy of these terms.
    pub fn from_slice(alloc: Global, items: &[(u32, i64)]) -> Result<Terms, AllocError>
        ensures { IfOk result (λ terms. terms ≡ items.now) }
    {
        Ok(Terms {
            items: Vec::from_slice(alloc, items)?,
        })
    }

    /// Adds a term at the end.
    pub fn push(&mut self, number: u32, coefficient: i64) -> Result<(), AllocError>
        ensures ok { OnOk result (self.new ≡ self.old ++ (number, coefficient) ∷ []) }
        ensures err { OnErr result (self.new ≡ self.old) }
    {
        self.items.push((number, coefficient))?;
        Ok(())
    }

    /// The terms.
    pub fn as_slice(&self) -> &[(u32, i64)]
        ensures { result.now ≡ self.now }
    {
        &self.items
    }
}

impl PartialEq for Terms {
    ghost use Rattle.opt_system.specs.Equal.{entries_eq, entries_eq_laws};

    ghost eq = { entries_eq };

    ghost laws = { entries_eq_laws };

    fn eq(&self, other: &Terms) -> bool {
        self.items == other.items
    }
}
