//! The commodities of the groups.
ghost use Rattle.std.specs.Prelude.{◌≡◌, ◌∷◌, [], length, OnOk, IfOk};
ghost use Rattle.opt_tables.specs.Facts.{IsModel};
ghost use Rattle.opt_rows.specs.Listed.{member_of, members_of};
ghost use Rattle.opt_rows.specs.Piles.{pile_in, ArePiles};

use crate::piles::Piles;
use opt_model::Commodity;
use opt_tables::Tables;
use std::alloc::{AllocError, Global};

/// A commodity of a group, by the number of its record, with the step of its ration in grams.
#[derive(Clone, Copy, Debug, PartialEq, Eq)]
pub struct Member {
    pub commodity: u32,
    pub step_g: i64,
}

/// A commodity with its number.
fn member_of(number: u32, commodity: &Commodity) -> Member
    ensures { result ≡ member_of number commodity.now }
{
    Member {
        commodity: number,
        step_g: commodity.step_g,
    }
}

/// Adds a commodity to its group, where it has one.
fn add_member(
    members: &mut Piles<Member>,
    number: u32,
    commodity: &Commodity,
) -> Result<(), AllocError>
    ensures { OnOk result (members.new
        ≡ pile_in members.old commodity.now.group (member_of number commodity.now ∷ [])) }
{
    match commodity.group {
        Some(group) => {
            members.add(group, member_of(number, commodity))?;
            Ok(())
        }
        None => Ok(()),
    }
}

/// The commodities, by their groups.
pub fn members_of(alloc: Global, tables: &Tables) -> Result<Piles<Member>, AllocError>
    requires { IsModel tables.now }
    ensures { IfOk result (ArePiles (length tables.now.groups) (members_of tables.now)) }
{
    let mut members = Piles::new(alloc, tables.groups().len())?;
    for (number, commodity) in tables.commodities().iter().enumerate() {
        add_member(&mut members, number as u32, commodity)?;
    }
    Ok(members)
}
