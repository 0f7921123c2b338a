ghost use Rattle.std.specs.Prelude.{◌≡◌, List, ℤ, IfOk};

use crate::out_of_memory::OutOfMemory;
use std::alloc::Global;
use std::marker::Model;

/// A list of numbers, one for each quantity.
#[derive(Debug, Drop)]
pub struct Point {
    values: Vec<i64>,
}

impl Model for Point {
    ghost Value = { List ℤ };

    ghost view = { λ p. p.values.items };
}

impl Point {
    /// A copy of these numbers.
    pub fn from_slice(alloc: Global, values: &[i64]) -> Result<Point, OutOfMemory>
        ensures { IfOk result (λ point. point ≡ values.now) }
    {
        let values = Vec::from_slice(alloc, values)?;
        Ok(Point { values })
    }

    /// The numbers, by quantity.
    pub fn as_slice(&self) -> &[i64]
        ensures { result.now ≡ self.now }
    {
        self.values.as_slice()
    }
}
