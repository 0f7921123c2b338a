//! Exact sums over lists of whole numbers, sparse and whole, and their laws, which the crates above share.
#![tactic(auto)]

ghost use Rattle.std.specs.Prelude.{◌≡◌, ◌↔◌, ◌*ℤ◌, IsTrue};
ghost use Rattle.opt_sums.specs.Entries.{IsRising, HasNoZero};

/// The product of two numbers of 64 bits, which always fits 128 bits.
pub fn product(a: i64, b: i64) -> i128
    ensures { result ≡ a *ℤ b }
{
    i128::from(a) * i128::from(b)
}

/// Whether the numbers rise from entry to entry.
pub fn is_rising(entries: &[(u32, i64)]) -> bool
    ensures { IsTrue result ↔ IsRising entries.now }
{
    for i in 1..entries.len() {
        if entries[i - 1].0 >= entries[i].0 {
            return false;
        }
    }
    true
}

/// Whether no coefficient is 0.
pub fn has_no_zero(entries: &[(u32, i64)]) -> bool
    ensures { IsTrue result ↔ HasNoZero entries.now }
{
    entries.iter().all(|entry| entry.1 != 0)
}
