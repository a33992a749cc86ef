//! Exact arithmetic on whole numbers and fractions of 128 bits, points and rows.
#![tactic(auto)]

mod compare;
mod euclid;
mod frac;
mod memory;
mod point;
mod row;
mod step;

pub use euclid::{common, divided, gcd};
pub use frac::Frac;
pub use memory::NoMemory;
pub use point::Point;
pub use row::{Cut, Row, sum_at};
pub use step::{Wide, add_product, cross};

#[cfg(test)]
mod tests;
