//! The terms of a row, those of one quantity taken together.
ghost use Rattle.std.specs.Prelude.{◌≡◌, ◌^◌, ◌<◌, ◌≤◌, [], ◌∷◌, ◌++◌, All, unsigned_abs, IfOk, OnOk};
ghost use Rattle.std.specs.BTreeMap.{IsOrdered};
ghost use Rattle.std.specs.Ordering.{nat_cmp};
ghost use Rattle.opt_sums.specs.Entries.{coef};
ghost use Rattle.opt_rows.specs.Gathering.{HasShortSums, HasSums, AreGathered, AddsEntry, without_zeros, other_sign};

use opt_base::OutOfMemory;
use std::alloc::{AllocError, Global};
use std::collections::BTreeMap;

/// The sum at a number, or 0 where it has none.
fn sum_at(sums: &BTreeMap<u32, i128>, number: u32) -> i128
    requires { IsOrdered nat_cmp sums.now }
    ensures { result ≡ coef sums.now.entries number }
{
    sums.get(&number).copied().unwrap_or(0)
}

/// Adds an entry to the sum at its number.
fn add_entry(sums: &mut BTreeMap<u32, i128>, entry: &(u32, i64)) -> Result<(), OutOfMemory>
    requires ordered { IsOrdered nat_cmp sums.now }
    requires fits { unsigned_abs (coef sums.now.entries entry.now.0) < 2 ^ 126 }
    ensures size { unsigned_abs entry.now.1 ≤ 2 ^ 63 }
    ensures ordered { OnOk result (IsOrdered nat_cmp sums.new) }
    ensures added { OnOk result (AddsEntry entry.now sums.old.entries sums.new.entries) }
{
    let before = sum_at(sums, entry.0);
    sums.insert(entry.0, before + i128::from(entry.1))?;
    Ok(())
}

/// The sum of the entries at each number that has one.
fn sums_of(alloc: Global, entries: &[(u32, i64)]) -> Result<BTreeMap<u32, i128>, OutOfMemory>
    ensures ordered { IfOk result (IsOrdered nat_cmp) }
    ensures sums { IfOk result (λ sums. HasSums entries.now sums.entries) }
{
    let mut sums = BTreeMap::new(alloc);
    for entry in entries {
        add_entry(&mut sums, entry)?;
    }
    Ok(sums)
}

/// The sum in 64 bits.
fn narrow(sum: &i128) -> i64
    requires { unsigned_abs sum.now < 2 ^ 63 }
    ensures { result ≡ sum.now }
{
    *sum as i64
}

/// Adds a term with this sum, unless it is 0.
fn push_sum(terms: &mut Vec<(u32, i64)>, number: u32, sum: &i128) -> Result<(), AllocError>
    requires { unsigned_abs sum.now < 2 ^ 63 }
    ensures { OnOk result (terms.new.items
        ≡ terms.old.items ++ without_zeros ((number, sum.now) ∷ [])) }
{
    if *sum != 0 {
        terms.push((number, narrow(sum)))?;
    }
    Ok(())
}

/// The sums other than 0.
fn terms_of(alloc: Global, sums: &BTreeMap<u32, i128>) -> Result<Vec<(u32, i64)>, AllocError>
    requires { All (λ sum. unsigned_abs sum.1 < 2 ^ 63) sums.now.entries }
    ensures { IfOk result (λ terms. terms.items ≡ without_zeros sums.now.entries) }
{
    let mut terms = Vec::new(alloc);
    for (number, sum) in sums {
        push_sum(&mut terms, *number, sum)?;
    }
    Ok(terms)
}

/// The terms of these entries by rising number: those at one number are one term with their sum, and none is 0.
pub fn gather(alloc: Global, entries: &[(u32, i64)]) -> Result<Vec<(u32, i64)>, OutOfMemory>
    requires { HasShortSums entries.now }
    ensures { IfOk result (λ terms. AreGathered entries.now terms.items) }
{
    let sums = sums_of(alloc, entries)?;
    Ok(terms_of(alloc, &sums)?)
}

/// The same terms with the other sign.
pub fn negate(alloc: Global, terms: &[(u32, i64)]) -> Result<Vec<(u32, i64)>, AllocError>
    requires { All (λ term. unsigned_abs term.1 < 2 ^ 63) terms.now }
    ensures { IfOk result (λ negated. negated.items ≡ other_sign terms.now) }
{
    let mut negated = Vec::with_capacity(alloc, terms.len())?;
    for term in terms {
        negated.push((term.0, -term.1))?;
    }
    Ok(negated)
}
