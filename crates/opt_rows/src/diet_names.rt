ghost use Rattle.std.specs.Prelude.{◌≡◌};
ghost use Rattle.opt_rows.specs.Names.{Finds, nutrient_names_of, nutrient_names, group_names_of, group_names_in, group_names};

use crate::counts::{basket_count, group_count, month_count};
use opt_model::{Need, RowName};
use opt_tables::Tables;

/// Looks for the row of this number among those of a need: an error is its name, Ok how many numbers are left past them.
fn find_nutrient_of(tables: &Tables, need: &Need, i: u32) -> Result<u32, RowName>
    ensures { Finds (nutrient_names_of tables.now need.now) i result }
{
    let months = month_count(tables);
    if i < months {
        return Err(RowName::Nutrient {
            basket: need.basket,
            nutrient: need.nutrient,
            month: i + 1,
        });
    }
    Ok(i - months)
}

/// Looks for the row of this number among those of the nutrients.
pub fn find_nutrient(tables: &Tables, i: u32) -> Result<u32, RowName>
    ensures { Finds (nutrient_names tables.now) i result }
{
    let needs = tables.needs();
    let mut rest = i;
    for d in 0..needs.len() {
        let need = needs[d];
        rest = find_nutrient_of(tables, &need, rest)?;
    }
    Ok(rest)
}

/// Looks for the row of this number among those of a group in a basket.
fn find_group_of(tables: &Tables, basket: u32, group: u32, i: u32) -> Result<u32, RowName>
    ensures { Finds (group_names_of tables.now basket group) i result }
{
    let months = month_count(tables);
    if i >= 2 * months {
        return Ok(i - 2 * months);
    }
    let month = i / 2 + 1;
    if i % 2 == 0 {
        Err(RowName::GroupLow {
            basket,
            group,
            month,
        })
    } else {
        Err(RowName::GroupHigh {
            basket,
            group,
            month,
        })
    }
}

/// Looks for the row of this number among those of the groups in a basket.
fn find_group_in(tables: &Tables, basket: u32, i: u32) -> Result<u32, RowName>
    ensures { Finds (group_names_in tables.now basket) i result }
{
    let mut rest = i;
    for group in 0..group_count(tables) {
        rest = find_group_of(tables, basket, group, rest)?;
    }
    Ok(rest)
}

/// Looks for the row of this number among those of the groups.
pub fn find_group(tables: &Tables, i: u32) -> Result<u32, RowName>
    ensures { Finds (group_names tables.now) i result }
{
    let mut rest = i;
    for basket in 0..basket_count(tables) {
        rest = find_group_in(tables, basket, rest)?;
    }
    Ok(rest)
}
