//! What the steps of rations hold of a nutrient.
ghost use Rattle.std.specs.Prelude.{◌≡◌, ◌^◌, ◌*ℤ◌, length, pos, IfOk};
ghost use Rattle.opt_model.specs.Quantities.{step_of};
ghost use Rattle.opt_tables.specs.Facts.{IsModel, IsFrom};
ghost use Rattle.opt_rows.specs.Listed.{step_content_of, step_contents};
ghost use Rattle.opt_rows.specs.Piles.{ArePiles};

use crate::piles::Piles;
use crate::steps::step_of;
use opt_tables::{Content, Tables};
use std::alloc::{AllocError, Global};

/// How much of a nutrient a step of a commodity's ration holds.
#[derive(Clone, Copy, Debug, PartialEq, Eq)]
pub struct StepContent {
    /// The number of the commodity's record.
    pub commodity: u32,
    /// Units times 100, from 0 to 2 * 10^9.
    pub units: i64,
}

/// Units times 100 in a step.
fn units(tables: &Tables, content: &Content) -> i64
    requires { IsFrom (pos 0) (pos (10 ^ 6)) content.now.per_100g }
    ensures { result ≡ content.now.per_100g *ℤ step_of tables.now content.now.commodity }
{
    content.per_100g * step_of(tables, content.commodity)
}

/// What a step of a commodity's ration holds.
fn step_content(tables: &Tables, content: &Content) -> StepContent
    requires { IsFrom (pos 0) (pos (10 ^ 6)) content.now.per_100g }
    ensures { result ≡ step_content_of tables.now content.now }
{
    StepContent {
        commodity: content.commodity,
        units: units(tables, content),
    }
}

/// What the steps of all commodities hold, by the nutrients.
pub fn step_contents(alloc: Global, tables: &Tables) -> Result<Piles<StepContent>, AllocError>
    requires { IsModel tables.now }
    ensures { IfOk result
        (ArePiles (length tables.now.nutrients) (step_contents tables.now)) }
{
    let mut contents = Piles::new(alloc, tables.nutrients().len())?;
    for content in tables.contents() {
        contents.add(content.nutrient, step_content(tables, content))?;
    }
    Ok(contents)
}
