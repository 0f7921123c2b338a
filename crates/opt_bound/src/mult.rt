ghost use Rattle.std.specs.Prelude.{◌≡◌, [], ◌<◌, ◌≤◌, ◌↔◌, pos, IfOk, IfSome, IsTrue, All, unsigned_abs};
ghost use Rattle.opt_sums.specs.Sums.{at};
ghost use Rattle.opt_sums.specs.Entries.{IsRising, coef};
ghost use Rattle.opt_bound.specs.Kept.{IsByRow};
ghost use Rattle.opt_bound.specs.Faults.{entry_fault_of, first_fault_of};

use crate::fault::EntryFault;
use crate::limits::MULTIPLIER_LIMIT;
use opt_base::OutOfMemory;
use opt_sums::{has_no_zero, is_rising};
use opt_system::{RowKind, System};
use std::alloc::{AllocError, Global};
use std::marker::Model;

/// The multipliers are kept by row as well where that takes at most this many places for each entry.
const PLACES_EACH: usize = 4;

/// Multipliers: how often the objective is taken, and how often rows are, by the row's number.
///
/// Where that takes not much more memory they are kept by row as well, so that a row's multiplier is found without a search.
#[derive(Debug, Drop)]
pub struct Mult {
    q: i64,
    entries: Vec<(u32, i64)>,
    by_row: Option<Vec<i64>>,
}

impl Model for Mult {
    ghost use Rattle.opt_bound.specs.Multipliers.{Multipliers};
    ghost use Rattle.opt_bound.specs.Kept.{IsKept};

    ghost Value = { Multipliers };

    ghost view = { λ m. record { q = m.q; entries = m.entries.items } };

    ghost invariant = { λ m. IsKept (record { q = m.q; entries = m.entries.items }) m.by_row };
}

impl Mult {
    ghost use Rattle.opt_bound.specs.Multipliers.{IsProper, IsAdmissible};

    /// Whether `q` is from 0 to 2^56, and the entries go by rising row, none of them 0 and each at most 2^56 in size.
    pub fn are_proper(q: i64, entries: &[(u32, i64)]) -> bool
        ensures { IsTrue result ↔ IsProper (record { q = q; entries = entries.now }) }
    {
        if q < 0 || q as u64 > MULTIPLIER_LIMIT {
            return false;
        }
        if !is_rising(entries) {
            return false;
        }
        if !has_no_zero(entries) {
            return false;
        }
        are_small(entries)
    }

    /// These multipliers: `q` from 0 to 2^56, and entries by rising row, none of them 0 and each at most 2^56 in size.
    pub fn new(alloc: Global, q: i64, entries: &[(u32, i64)]) -> Result<Mult, OutOfMemory>
        requires { IsProper (record { q = q; entries = entries.now }) }
        ensures { IfOk result (λ mult. mult ≡ record { q = q; entries = entries.now }) }
    {
        let by_row = multipliers_by_row(alloc, entries)?;
        let entries = Vec::from_slice(alloc, entries)?;
        Ok(Mult { q, entries, by_row })
    }

    /// The objective alone, taken once.
    pub fn trivial(alloc: Global) -> Mult
        ensures { result ≡ record { q = pos 1; entries = [] } }
    {
        Mult {
            q: 1,
            entries: Vec::new(alloc),
            by_row: None,
        }
    }

    /// How often the objective is taken.
    pub fn q(&self) -> i64
        ensures value { result ≡ self.now.q }
        ensures proper { IsProper self.now }
    {
        self.q
    }

    /// How often rows are taken: rows with their multipliers, by rising row.
    pub fn entries(&self) -> &[(u32, i64)]
        ensures value { result.now ≡ self.now.entries }
        ensures proper { IsProper self.now }
    {
        &self.entries
    }

    /// A copy of the multipliers.
    pub fn copy(&self, alloc: Global) -> Result<Mult, OutOfMemory>
        ensures { IfOk result (λ mult. mult ≡ self.now) }
    {
        Mult::new(alloc, self.q, &self.entries)
    }

    /// The first entry that is wrong for the system, by why it is: it names no row, or is below 0 on a Ge row.
    pub fn first_fault(&self, system: &System) -> Option<EntryFault>
        ensures { result ≡ first_fault_of system.now self.now.entries }
    {
        for entry in self.entries.as_slice() {
            let fault = entry_fault(system, entry);
            if fault.is_some() {
                return fault;
            }
        }
        None
    }

    /// Whether each entry names a row of the system and is above 0 on a Ge row.
    pub fn admissible(&self, system: &System) -> bool
        ensures { IsTrue result ↔ IsAdmissible system.now self.now }
    {
        self.first_fault(system).is_none()
    }

    /// How often the row is taken.
    pub(crate) fn weight(&self, row: u32) -> i64
        ensures { result ≡ coef self.now.entries row }
    {
        match &self.by_row {
            Some(by_row) => at_row(by_row, row),
            None => multiplier_of(&self.entries, row),
        }
    }
}

/// Whether each multiplier is at most 2^56 in size.
fn are_small(entries: &[(u32, i64)]) -> bool
    ensures { IsTrue result ↔ All (λ e. unsigned_abs e.1 ≤ MULTIPLIER_LIMIT) entries.now }
{
    entries
        .iter()
        .all(|entry| entry.1.unsigned_abs() <= MULTIPLIER_LIMIT)
}

/// Why the entry is wrong for the system, if it is.
fn entry_fault(system: &System, entry: &(u32, i64)) -> Option<EntryFault>
    ensures { result ≡ entry_fault_of system.now entry.now }
{
    if entry.0 >= system.rows() {
        return Some(EntryFault::RowNumber(entry.0));
    }
    match system.kind(entry.0) {
        RowKind::Ge if entry.1 <= 0 => Some(EntryFault::Sign(entry.0)),
        RowKind::Ge | RowKind::Eq => None,
    }
}

/// The multiplier of the row in a list by row, or 0 past its end.
fn at_row(by_row: &[i64], row: u32) -> i64
    ensures { result ≡ at by_row.now row }
{
    by_row.get(row as usize).copied().unwrap_or(0)
}

/// The multiplier of the row among entries by rising row, or 0 where it has none.
fn multiplier_of(entries: &[(u32, i64)], row: u32) -> i64
    requires { IsRising entries.now }
    ensures { result ≡ coef entries.now row }
{
    match entries.binary_search_by_key(&row, |entry| entry.0) {
        Ok(k) => entries[k].1,
        Err(_) => 0,
    }
}

/// How many places a list by row needs for the entries.
fn places(entries: &[(u32, i64)]) -> usize
    requires { IsRising entries.now }
    ensures { All (λ e. e.0 < result) entries.now }
{
    match entries.last() {
        Some(last) => last.0 as usize + 1,
        None => 0,
    }
}

/// The multipliers by row, unless that takes many places for each entry.
fn multipliers_by_row(alloc: Global, entries: &[(u32, i64)]) -> Result<Option<Vec<i64>>, AllocError>
    requires { IsRising entries.now }
    ensures { IfOk result (λ by_row. IfSome by_row (λ list. IsByRow entries.now list.items)) }
{
    let places = places(entries);
    if places / PLACES_EACH > entries.len() {
        return Ok(None);
    }
    Ok(Some(list_by_row(alloc, entries, places)?))
}

/// The multiplier of each row, 0 where it has none, in a list of this length.
fn list_by_row(alloc: Global, entries: &[(u32, i64)], places: usize) -> Result<Vec<i64>, AllocError>
    requires rising { IsRising entries.now }
    requires covers { All (λ e. e.0 < places) entries.now }
    ensures { IfOk result (λ list. IsByRow entries.now list.items) }
{
    let mut by_row = vec![in alloc; 0i64; places]?;
    for entry in entries {
        by_row[entry.0 as usize] = entry.1;
    }
    Ok(by_row)
}
