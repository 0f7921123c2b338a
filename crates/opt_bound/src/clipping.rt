ghost use Rattle.std.specs.Prelude.{◌≡◌, ℕ, ◌/◌, ◌^◌, ◌<◌, ◌≤◌, ◌≤ℤ◌, pos, unsigned_abs, All, IfOk};
ghost use Rattle.opt_sums.specs.Entries.{IsRising};
ghost use Rattle.opt_bound.specs.Clip.{IsClip, IsLargest, KeepsAdmissible, cut as cut_of, cut_entries as cut_entries_of};

use crate::limits::MULTIPLIER_LIMIT;
use crate::mult::Mult;
use opt_base::OutOfMemory;
use std::alloc::{AllocError, Global};

/// The greatest shift that a size of 128 bits needs.
const MOST_SHIFT: u32 = 71;

/// The multipliers of these numbers: all divided by 2^s toward zero, with the least s with which each size is then at most
/// 2^56, and without the entries that become 0. Where `q` was above 0 and becomes 0, they are the objective alone.
///
/// `q` is at least 0, and the entries go by rising row.
pub fn clip(alloc: Global, q: i128, entries: &[(u32, i128)]) -> Result<Mult, OutOfMemory>
    requires q_from_zero { pos 0 ≤ℤ q }
    requires rising { IsRising entries.now }
    ensures clip { IfOk result (IsClip q entries.now) }
    ensures admissible { IfOk result (KeepsAdmissible entries.now) }
{
    let shift = shift_of(largest(q, entries));
    let objective = cut(q, shift);
    if q > 0 && objective == 0 {
        return Ok(Mult::trivial(alloc));
    }
    let kept = cut_entries(alloc, entries, shift)?;
    Mult::new(alloc, objective, &kept)
}

/// The largest size among these numbers.
fn largest(q: i128, entries: &[(u32, i128)]) -> u128
    ensures largest { IsLargest q entries.now result }
    ensures small { result ≤ 2 ^ 127 }
{
    let mut size = q.unsigned_abs();
    for entry in entries {
        size = size.max(entry.1.unsigned_abs());
    }
    size
}

/// The least number of halvings, cut toward zero, after which the size is at most 2^56.
fn shift_of(size: u128) -> u32
    requires { size ≤ 2 ^ 127 }
    ensures few { result ≤ 71 }
    ensures fits { size / 2 ^ result ≤ MULTIPLIER_LIMIT }
    ensures least { (t : ℕ) → size / 2 ^ t ≤ MULTIPLIER_LIMIT → result ≤ t }
{
    for shift in 0..MOST_SHIFT {
        if size >> shift <= u128::from(MULTIPLIER_LIMIT) {
            return shift;
        }
    }
    MOST_SHIFT
}

/// The number divided by 2^`shift`, toward zero.
fn cut(number: i128, shift: u32) -> i64
    requires few { shift ≤ 71 }
    requires fits { unsigned_abs number / 2 ^ shift ≤ MULTIPLIER_LIMIT }
    ensures { result ≡ cut_of number shift }
{
    let size = (number.unsigned_abs() >> shift) as i64;
    if number < 0 { -size } else { size }
}

/// The entries divided by 2^`shift` toward zero, without those that become 0.
fn cut_entries(
    alloc: Global,
    entries: &[(u32, i128)],
    shift: u32,
) -> Result<Vec<(u32, i64)>, AllocError>
    requires few { shift ≤ 71 }
    requires fits { All (λ e. unsigned_abs e.1 / 2 ^ shift ≤ MULTIPLIER_LIMIT) entries.now }
    ensures { IfOk result (λ kept. kept.items ≡ cut_entries_of shift entries.now) }
{
    let mut kept = Vec::new(alloc);
    for entry in entries {
        let multiplier = cut(entry.1, shift);
        let remains = multiplier != 0;
        if remains {
            kept.push((entry.0, multiplier))?;
        }
    }
    Ok(kept)
}
