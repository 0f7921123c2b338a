ghost use Rattle.std.specs.Prelude.{◌≡◌};

use std::marker::Model;

/// Multipliers of 128 bits: how often the objective is taken, and how often rows are, by the row's number.
#[derive(Debug, Drop)]
pub struct Raw {
    q: i128,
    entries: Vec<(u32, i128)>,
}

impl Model for Raw {
    ghost use Rattle.opt_bound.specs.Multipliers.{Multipliers};
    ghost use Rattle.opt_simplex.specs.Kept.{AreRaw};

    ghost Value = { Multipliers };

    ghost view = { λ r. record { q = r.q; entries = r.entries.items } };

    ghost invariant = { λ r. AreRaw (record { q = r.q; entries = r.entries.items }) };
}

impl Raw {
    ghost use Rattle.opt_simplex.specs.Kept.{AreRaw};

    /// These multipliers.
    pub(crate) fn new(q: i128, entries: Vec<(u32, i128)>) -> Raw
        requires { AreRaw (record { q = q; entries = entries.items }) }
        ensures { result ≡ record { q = q; entries = entries.items } }
    {
        Raw { q, entries }
    }

    /// How often the objective is taken, at least 0.
    pub fn q(&self) -> i128
        ensures value { result ≡ self.now.q }
        ensures kept { AreRaw self.now }
    {
        self.q
    }

    /// How often rows are taken: rows with their multipliers, by rising row, none of them 0.
    pub fn entries(&self) -> &[(u32, i128)]
        ensures value { result.now ≡ self.now.entries }
        ensures kept { AreRaw self.now }
    {
        &self.entries
    }
}
