//! Whom a place feeds.
ghost use Rattle.std.specs.Prelude.{◌≡◌, ◌*◌, ◌^◌, ◌<◌, ◌≤◌, ◌≤ℤ◌, ◌&&◌, pos, length, IfOk};
ghost use Rattle.opt_model.specs.Tables.{heads_at};
ghost use Rattle.opt_model.specs.Quantities.{all_heads, is_point};
ghost use Rattle.opt_model.specs.declared.limits.TheConstants.{BASKET_LIMIT, MONTH_LIMIT, PERSON_LIMIT};
ghost use Rattle.opt_tables.specs.Facts.{IsModel};
ghost use Rattle.opt_network.specs.Counts.{is_fed};
ghost use Rattle.opt_network.specs.Fed.{mark_number, is_marked, marks_with, MarksFed};

use opt_model::{MONTH_LIMIT, Persons, PlaceKind};
use opt_tables::Tables;
use std::alloc::{AllocError, Global};
use std::marker::Model;

/// The persons of a basket whom a place feeds in a month.
fn heads_of(tables: &Tables, place: u32, basket: u32, month: u32) -> i64
    requires { IsModel tables.now }
    ensures value { result ≡ heads_at tables.now place basket month }
    ensures low { pos 0 ≤ℤ result }
    ensures high { result ≤ℤ pos PERSON_LIMIT }
{
    tables.heads_at(place, basket, month)
}

/// All persons whom a place feeds in a month.
pub fn all_heads(tables: &Tables, place: u32, month: u32) -> i64
    requires { IsModel tables.now }
    ensures value { result ≡ all_heads tables.now place month }
    ensures low { pos 0 ≤ℤ result }
    ensures high { result ≤ℤ pos (BASKET_LIMIT * PERSON_LIMIT) }
{
    let mut heads = 0;
    for basket in 0..tables.baskets().len() {
        heads += heads_of(tables, place, basket as u32, month);
    }
    heads
}

/// Whether food is handed out at such a place.
fn is_point(kind: PlaceKind) -> bool
    ensures { result ≡ is_point kind }
{
    matches!(kind, PlaceKind::Point)
}

/// Whether a place of this kind feeds somebody in a month.
pub fn is_fed(tables: &Tables, place: u32, kind: PlaceKind, month: u32) -> bool
    requires { IsModel tables.now }
    ensures { result ≡ is_fed tables.now place kind month }
{
    is_point(kind) && all_heads(tables, place, month) >= 1
}

/// In which months each place feeds somebody. Whom the places feed is looked through once.
#[derive(Debug, Drop)]
pub struct FedMonths {
    /// `MONTH_LIMIT` marks for each place, from month 1 on.
    marks: Vec<bool>,
}

impl Model for FedMonths {
    ghost use Rattle.std.specs.Prelude.{Bool, List};

    ghost Value = { List Bool };

    ghost view = { λ f. f.marks.items };
}

/// The number of the mark of a place and a month.
fn mark_number(place: u32, month: u32) -> usize
    requires { 1 ≤ month }
    ensures { result ≡ mark_number place month }
{
    place as usize * MONTH_LIMIT as usize + (month as usize - 1)
}

/// Marks the place and the month of a record that names somebody.
fn mark(marks: &mut Vec<bool>, persons: &Persons)
    requires month { 1 ≤ persons.now.month }
    requires inside { mark_number persons.now.place persons.now.month < length marks.old.items }
    ensures { marks.new.items ≡ marks_with marks.old.items persons.now }
{
    if persons.persons >= 1 {
        marks[mark_number(persons.place, persons.month)] = true;
    }
}

impl FedMonths {
    /// In which months the places of a model feed somebody.
    pub fn of_tables(alloc: Global, tables: &Tables) -> Result<FedMonths, AllocError>
        requires { IsModel tables.now }
        ensures { IfOk result (MarksFed tables.now) }
    {
        let count = tables.places().len() * MONTH_LIMIT as usize;
        let mut marks = vec![in alloc; false; count]?;
        for persons in tables.persons() {
            mark(&mut marks, persons);
        }
        Ok(FedMonths { marks })
    }

    /// Whether a place of this kind feeds somebody in a month.
    pub fn is_fed(&self, place: u32, kind: PlaceKind, month: u32) -> bool
        requires { 1 ≤ month }
        ensures { result ≡ (is_point kind && is_marked self.now place month) }
    {
        is_point(kind) && matches!(self.marks.get(mark_number(place, month)), Some(true))
    }
}
