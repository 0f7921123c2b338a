ghost use Rattle.std.specs.Prelude.{◌≡◌, [], ◌∷◌, ◌+◌, ◌-◌, ◌<◌, ◌≤◌, ◌≢◌, All, length, ◌+ℤ◌};
ghost use Rattle.std.specs.Vec.{vec_len, vec_capacity};
ghost use Rattle.std.specs.Option.{SomeIff};
ghost use Rattle.opt_sums.specs.Entries.{IsRising};
ghost use Rattle.opt_frac.specs.Divisors.{Fits, fits, all_fit};
ghost use Rattle.opt_frac.specs.Elimination.{merged_sum, unless_zero};
ghost use Rattle.opt_frac.specs.Merging.{IsSum, Writes, rest_of, multiple_at, sum_fits, sums_fit};

use crate::elim_fault::ElimFault;
use crate::number::{product, sum};

/// Terms with a factor by which each coefficient is taken.
#[derive(Clone, Copy)]
pub struct Multiple<'a> {
    pub terms: &'a [(u32, i128)],
    pub factor: i128,
}

/// Writes the sum of both multiples, the first without its terms at `col`, into the buffer. The second has none there.
pub fn add_multiples(
    sums: &mut Vec<(u32, i128)>,
    col: u32,
    kept: Multiple<'_>,
    added: Multiple<'_>,
) -> Result<(), ElimFault>
    requires kept_rising { IsRising kept.terms.now }
    requires added_rising { IsRising added.terms.now }
    requires apart { All (λ term. term.0 ≢ col) added.terms.now }
    ensures { let first = rest_of kept.entry.factor col kept.entry.terms.now 0 in
        let second = rest_of added.entry.factor col added.entry.terms.now 0 in
        Writes result [] sums.new.items (sums_fit first second) (merged_sum first second) }
{
    sums.clear();
    let most = kept.terms.len().checked_add(added.terms.len());
    sums.reserve(most.ok_or(ElimFault::OutOfMemory)?)?;
    let mut i = 0;
    let mut k = 0;
    while i < kept.terms.len() && k < added.terms.len() {
        let first = kept.terms[i].0;
        let second = added.terms[k].0;
        if first == col {
            i += 1;
        } else if first < second {
            push_term(sums, kept, i)?;
            i += 1;
        } else if second < first {
            push_term(sums, added, k)?;
            k += 1;
        } else {
            push_sum(sums, kept, i, added, k)?;
            i += 1;
            k += 1;
        }
    }
    push_rest(sums, col, kept, i)?;
    push_rest(sums, col, added, k)
}

/// The coefficient of term `i` times its factor.
#[inline(always)]
fn product_at(multiple: Multiple<'_>, i: usize) -> Option<i128>
    requires { i < length multiple.terms.now }
    ensures { let coefficient = (multiple_at multiple.entry.factor multiple.entry.terms.now i).1 in
        SomeIff result (Fits coefficient) coefficient }
{
    product(multiple.factor, multiple.terms[i].1)
}

/// Pushes term `i` times its factor, for which there is room.
#[inline(always)]
fn push_term(sums: &mut Vec<(u32, i128)>, multiple: Multiple<'_>, i: usize) -> Result<(), ElimFault>
    requires inside { i < length multiple.terms.now }
    requires room { vec_len sums.old < vec_capacity sums.old }
    ensures capacity { vec_capacity sums.new ≡ vec_capacity sums.old }
    ensures len { vec_len sums.new ≤ vec_len sums.old + 1 }
    ensures written { let term = multiple_at multiple.entry.factor multiple.entry.terms.now i in
        Writes result sums.old.items sums.new.items (fits term.1) (term ∷ []) }
{
    let coefficient = product_at(multiple, i).ok_or(ElimFault::Wide)?;
    sums.push_reserved((multiple.terms[i].0, coefficient));
    Ok(())
}

/// The sum of term `i` of the one list and term `k` of the other, each times its factor.
#[inline(always)]
fn sum_at(kept: Multiple<'_>, i: usize, added: Multiple<'_>, k: usize) -> Option<i128>
    requires in_kept { i < length kept.terms.now }
    requires in_added { k < length added.terms.now }
    ensures { let first = (multiple_at kept.entry.factor kept.entry.terms.now i).1 in
        let second = (multiple_at added.entry.factor added.entry.terms.now k).1 in
        IsSum result first second }
{
    let first = product_at(kept, i)?;
    let second = product_at(added, k)?;
    sum(first, second)
}

/// Pushes the sum of term `i` of the one list and term `k` of the other, each times its factor, unless it is 0. There
/// is room for it.
#[inline(always)]
fn push_sum(
    sums: &mut Vec<(u32, i128)>,
    kept: Multiple<'_>,
    i: usize,
    added: Multiple<'_>,
    k: usize,
) -> Result<(), ElimFault>
    requires in_kept { i < length kept.terms.now }
    requires in_added { k < length added.terms.now }
    requires room { vec_len sums.old < vec_capacity sums.old }
    ensures capacity { vec_capacity sums.new ≡ vec_capacity sums.old }
    ensures len { vec_len sums.new ≤ vec_len sums.old + 1 }
    ensures written { let first = multiple_at kept.entry.factor kept.entry.terms.now i in
        let second = multiple_at added.entry.factor added.entry.terms.now k in
        Writes result sums.old.items sums.new.items (sum_fits first.1 second.1) (unless_zero (first.0, first.1 +ℤ second.1) []) }
{
    let coefficient = sum_at(kept, i, added, k).ok_or(ElimFault::Wide)?;
    if coefficient != 0 {
        sums.push_reserved((kept.terms[i].0, coefficient));
    }
    Ok(())
}

/// Pushes each of the terms from this one on, but for those at `col`, times its factor. There is room for all.
fn push_rest(
    sums: &mut Vec<(u32, i128)>,
    col: u32,
    multiple: Multiple<'_>,
    from: usize,
) -> Result<(), ElimFault>
    requires room { vec_len sums.old + (length multiple.terms.now - from) ≤ vec_capacity sums.old }
    ensures capacity { vec_capacity sums.new ≡ vec_capacity sums.old }
    ensures len { vec_len sums.new ≤ vec_len sums.old + (length multiple.entry.terms.now - from) }
    ensures written { let rest = rest_of multiple.entry.factor col multiple.entry.terms.now from in
        Writes result sums.old.items sums.new.items (all_fit rest) rest }
{
    for i in from..multiple.terms.len() {
        if multiple.terms[i].0 != col {
            push_term(sums, multiple, i)?;
        }
    }
    Ok(())
}
