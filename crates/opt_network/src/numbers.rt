//! Quantities by their numbers.
ghost use Rattle.std.specs.Prelude.{◌≡◌, ◌≤◌, count_by, IfOk};
ghost use Rattle.opt_model.specs.Quantities.{same_quantity};
ghost use Rattle.opt_model.specs.declared.quantity.Quantity.{Quantity};

use indexmap::IndexSet;
use opt_model::Quantity;
use std::alloc::{AllocError, Global};

/// Different quantities, each of which can be found by its number and its number by it.
#[tactic(auto, using(crate::proofs::Lookups::insert_key_next))]
pub fn number_quantities(alloc: Global, list: &[Quantity]) -> Result<IndexSet<Quantity>, AllocError>
    requires { (q : Quantity) → count_by (same_quantity q) list.now ≤ 1 }
    ensures { IfOk result (λ numbers. numbers.keys ≡ list.now) }
{
    let mut numbers = IndexSet::new(alloc);
    for quantity in list {
        numbers.insert(*quantity)?;
    }
    Ok(numbers)
}
