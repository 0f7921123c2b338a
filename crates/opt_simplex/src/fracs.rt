use crate::fractional::{ceiling, first_fractional, floor};
use std::marker::Model;

/// Fractions: numerators with denominators of at least 1.
#[derive(Debug, Drop)]
pub struct Fracs {
    fractions: Vec<(i128, i128)>,
}

impl Model for Fracs {
    ghost use Rattle.std.specs.Prelude.{List, ℤ, All};
    ghost use Rattle.opt_simplex.specs.Kept.{IsFraction};

    ghost Value = { List (ℤ × ℤ) };

    ghost view = { λ f. f.fractions.items };

    ghost invariant = { λ f. All IsFraction f.fractions.items };
}

impl Fracs {
    ghost use Rattle.std.specs.Prelude.{◌≡◌, ◌<◌, All, IfSome, length};
    ghost use Rattle.opt_simplex.specs.Kept.{IsFraction};
    ghost use Rattle.opt_simplex.specs.Soundness.{fraction_at};
    ghost use Rattle.opt_simplex.specs.Guide.{floor_of, ceiling_of, first_fractional as first_fractional_of};

    /// These fractions.
    pub(crate) fn new(fractions: Vec<(i128, i128)>) -> Fracs
        requires { All IsFraction fractions.items }
        ensures { result ≡ fractions.items }
    {
        Fracs { fractions }
    }

    /// The fractions, as numerator and denominator.
    pub fn as_slice(&self) -> &[(i128, i128)]
        ensures value { result.now ≡ self.now }
        ensures kept { All IsFraction self.now }
    {
        &self.fractions
    }

    /// The greatest whole number that is at most fraction `j`.
    pub fn floor(&self, j: usize) -> i128
        requires { j < length self.now }
        ensures value { result ≡ floor_of (fraction_at self.now j) }
        ensures kept { All IsFraction self.now }
    {
        let fractions = self.as_slice();
        floor(&fractions[j])
    }

    /// The least whole number that is at least fraction `j`.
    pub fn ceiling(&self, j: usize) -> i128
        requires { j < length self.now }
        ensures value { result ≡ ceiling_of (fraction_at self.now j) }
        ensures kept { All IsFraction self.now }
    {
        let fractions = self.as_slice();
        ceiling(&fractions[j])
    }

    /// The place of the first fraction that is not a whole number.
    pub fn first_fractional(&self) -> Option<usize>
        ensures value { result ≡ first_fractional_of self.now }
        ensures inside { IfSome result (λ j. j < length self.now) }
        ensures kept { All IsFraction self.now }
    {
        first_fractional(self.as_slice())
    }
}
