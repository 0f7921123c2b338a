//! Equations over variables with exact numbers of 128 bits, in lowest terms, and fractions of such numbers in their order.
#![tactic(auto)]

mod divisor;
mod elim_fault;
mod elimination;
mod equation;
mod fraction;
mod merging;
mod number;
mod solved;
mod turning;

pub use divisor::gcd;
pub use elim_fault::ElimFault;
pub use elimination::quotient;
pub use equation::Equation;
pub use fraction::compare;
pub use number::{product, sum};
pub use turning::negate_if;

#[cfg(test)]
mod tests;
