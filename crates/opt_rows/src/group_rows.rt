//! The rows of the groups in the baskets.
ghost use Rattle.std.specs.Prelude.{◌≡◌, [], ◌∷◌, ◌++◌, map, length, pos, ◌≤ℤ◌, OnOk};
ghost use Rattle.std.specs.List.{flat_map};
ghost use Rattle.opt_model.specs.Quantities.{over, over_months};
ghost use Rattle.opt_model.specs.Rows.{group_rows};
ghost use Rattle.opt_model.specs.declared.quantity.Quantity.TheVariants.{Ration};
ghost use Rattle.opt_tables.specs.Facts.{IsModel};
ghost use Rattle.opt_network.specs.Numbering.{IsLayoutOf};
ghost use Rattle.opt_rows.specs.Gathering.{entries_of};
ghost use Rattle.opt_rows.specs.Listed.{members_of};
ghost use Rattle.opt_rows.specs.Parts.{group_pair};
ghost use Rattle.opt_rows.specs.Piles.{ArePiles};
ghost use Rattle.opt_rows.specs.Systems.{row_over};

use crate::counts::{basket_count, group_count, month_count};
use crate::group_members::{Member, members_of};
use crate::piles::Piles;
use crate::term_buffer::{TermBuffer, push_at_least, push_at_most};
use opt_base::OutOfMemory;
use opt_model::{Group, Quantity};
use opt_network::Layout;
use opt_system::RowList;
use opt_tables::Tables;
use std::alloc::Global;

/// A group of a basket, with its number and its commodities.
#[derive(Clone, Copy)]
struct Share<'a> {
    basket: u32,
    number: u32,
    group: &'a Group,
    members: &'a [Member],
}

/// The term of the grams of a commodity in a basket.
fn ration_term(basket: u32, member: &Member, month: u32) -> (Quantity, i64)
    ensures quantity { result.0 ≡ Ration basket member.now.commodity month }
    ensures coefficient { result.1 ≡ member.now.step_g }
{
    let ration = Quantity::Ration {
        basket,
        commodity: member.commodity,
        month,
    };
    (ration, member.step_g)
}

/// Adds the grams of a group's commodities in a basket.
fn add_rations(
    terms: &mut TermBuffer,
    layout: &Layout,
    members: &[Member],
    basket: u32,
    month: u32,
) -> Result<(), OutOfMemory>
    ensures { OnOk result (terms.new ≡ terms.old ++ entries_of layout.now.quantities
        (flat_map (λ r. (Ration basket r.commodity month, r.step_g) ∷ []) members.now)) }
{
    for member in members {
        terms.add(layout, ration_term(basket, member, month))?;
    }
    Ok(())
}

/// Adds both rows of a group of a basket in a month.
fn add_both(
    rows: &mut RowList,
    alloc: Global,
    tables: &Tables,
    layout: &Layout,
    share: &Share<'_>,
    month: u32,
) -> Result<(), OutOfMemory>
    requires model { IsModel tables.now }
    requires layout { IsLayoutOf tables.now layout.now }
    requires high { pos 0 ≤ℤ share.now.group.now.max_g }
    requires members { share.now.members.now ≡ members_of tables.now share.now.number }
    ensures { OnOk result (rows.new ≡ rows.old ++ map (row_over layout.now.quantities)
        (group_pair tables.now share.now.basket share.now.number share.now.group.now month)) }
{
    let mut terms = TermBuffer::new(alloc);
    add_rations(&mut terms, layout, share.members, share.basket, month)?;
    push_at_least(rows, layout, &terms, &share.group.min_g)?;
    push_at_most(rows, layout, &terms, &share.group.max_g)?;
    Ok(())
}

/// Adds the rows of a group of a basket.
fn add_months(
    rows: &mut RowList,
    alloc: Global,
    tables: &Tables,
    layout: &Layout,
    share: &Share<'_>,
) -> Result<(), OutOfMemory>
    requires model { IsModel tables.now }
    requires layout { IsLayoutOf tables.now layout.now }
    requires high { pos 0 ≤ℤ share.now.group.now.max_g }
    requires members { share.now.members.now ≡ members_of tables.now share.now.number }
    ensures { OnOk result (rows.new ≡ rows.old ++ map (row_over layout.now.quantities)
        (over_months tables.now
        (group_pair tables.now share.now.basket share.now.number share.now.group.now))) }
{
    for earlier in 0..month_count(tables) {
        add_both(rows, alloc, tables, layout, share, earlier + 1)?;
    }
    Ok(())
}

/// Adds the rows of a basket.
fn add_basket(
    rows: &mut RowList,
    alloc: Global,
    tables: &Tables,
    layout: &Layout,
    members: &Piles<Member>,
    basket: u32,
) -> Result<(), OutOfMemory>
    requires model { IsModel tables.now }
    requires layout { IsLayoutOf tables.now layout.now }
    requires members { ArePiles (length tables.now.groups) (members_of tables.now) members.now }
    ensures { OnOk result (rows.new ≡ rows.old ++ map (row_over layout.now.quantities)
        (over tables.now.groups λ g group. over_months tables.now
        (group_pair tables.now basket g group))) }
{
    let groups = tables.groups();
    for number in 0..group_count(tables) {
        let group = &groups[number as usize];
        let share = Share {
            basket,
            number,
            group,
            members: members.pile(number),
        };
        add_months(rows, alloc, tables, layout, &share)?;
    }
    Ok(())
}

/// Adds the rows of all baskets and groups.
pub fn add_group_rows(
    rows: &mut RowList,
    alloc: Global,
    tables: &Tables,
    layout: &Layout,
) -> Result<(), OutOfMemory>
    requires { IsLayoutOf tables.now layout.now }
    ensures { OnOk result (rows.new
        ≡ rows.old ++ map (row_over layout.now.quantities) (group_rows tables.now)) }
{
    let _settings = tables.settings();
    let members = members_of(alloc, tables)?;
    for basket in 0..basket_count(tables) {
        add_basket(rows, alloc, tables, layout, &members, basket)?;
    }
    Ok(())
}
