ghost use Rattle.std.specs.Prelude.{◌≡◌};
ghost use Rattle.opt_tree.specs.Certificates.{AreEntries};

use std::marker::Model;

/// The entries of a certificate's point: quantities and their values, by rising quantity, each value from 1 to 2^63 - 1.
/// A quantity that is not listed has value 0.
#[derive(Debug, Drop)]
pub struct PointEntries {
    entries: Vec<(u32, i64)>,
}

impl Model for PointEntries {
    ghost use Rattle.std.specs.Prelude.{ℕ, ℤ, List};
    ghost use Rattle.opt_tree.specs.Certificates.{AreEntries};

    ghost Value = { List (ℕ × ℤ) };

    ghost view = { λ p. p.entries.items };

    ghost invariant = { λ p. AreEntries p.entries.items };
}

impl PointEntries {
    /// These entries.
    pub(crate) fn new(entries: Vec<(u32, i64)>) -> PointEntries
        requires { AreEntries entries.items }
        ensures { result ≡ entries.items }
    {
        PointEntries { entries }
    }

    /// The quantities with their values, by rising quantity.
    pub fn as_slice(&self) -> &[(u32, i64)]
        ensures value { result.now ≡ self.now }
        ensures entries { AreEntries self.now }
    {
        &self.entries
    }
}
