ghost use Rattle.opt_base.specs.Answers.{Gives};
ghost use Rattle.opt_tables.specs.Demand.{basket_lines_in, with_few};

use crate::key::Key;
use crate::lines::{Line, Lines};
use crate::link::Link;
use crate::row::Row;
use opt_base::{File, Kind, ModelFault, Refusal};
use opt_model::{BASKET_LIMIT, Basket, Name, has_baskets};
use opt_read::{Cells, Setup};
use std::alloc::Global;

/// What a record of baskets.csv says but for the basket's name: nothing.
#[derive(Clone, Copy, Debug, PartialEq, Eq)]
pub struct BasketLine;

impl Line for BasketLine {
    ghost use Rattle.opt_tables.specs.Lines.{name_key};
    ghost use Rattle.opt_tables.specs.Demand.{basket_line_of};

    ghost line_of = { λ settings. basket_line_of };

    ghost key_of = { λ settings. name_key };

    fn read(row: &Row<'_>, _setup: &Setup) -> Result<BasketLine, Refusal> {
        row.name(1)?;
        Ok(BasketLine)
    }

    fn key<'a>(&self, row: &Row<'a>, _setup: &Setup) -> Key<'a> {
        Key::Name(row.text(1))
    }
}

impl Link<Basket, ()> for BasketLine {
    ghost use Rattle.opt_tables.specs.Demand.{basket_of};

    ghost record_of = { λ settings named. basket_of };

    fn link(
        &self,
        alloc: Global,
        row: &Row<'_>,
        _setup: &Setup,
        _named: &(),
    ) -> Result<Basket, ModelFault> {
        Ok(Basket {
            basket: Name::new(alloc, row.text(1))?,
        })
    }
}

/// These lines, of which there must be one and may not be more than the limit.
fn few<'a>(lines: Lines<'a, BasketLine>) -> Result<Lines<'a, BasketLine>, ModelFault>
    ensures { Gives (λ lines. lines) result (with_few lines.entry) }
{
    let count = lines.rows();
    if count == 0 {
        return Err(ModelFault::Refused(Refusal::of_file(File::Baskets, Kind::EmptyTable)));
    }
    if count as usize > BASKET_LIMIT {
        let kind = Kind::TooMany(u64::from(count));
        return Err(ModelFault::Refused(Refusal::of_file(File::Baskets, kind)));
    }
    Ok(lines)
}

/// The lines of baskets.csv: 1 to 16 where the format has baskets of its own, else none.
pub fn basket_lines<'a>(
    alloc: Global,
    setup: &Setup,
    grid: &'a Result<Cells, Refusal>,
) -> Result<Lines<'a, BasketLine>, ModelFault>
    ensures { Gives (λ lines. lines) result (basket_lines_in setup.now grid.now) }
{
    let lines = Lines::read(alloc, File::Baskets, setup, grid)?;
    if has_baskets(setup.format()) {
        few(lines)
    } else {
        Ok(lines)
    }
}
