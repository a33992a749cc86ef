//! Texts of lines and fields: how they are cut, read and written.
//!
//! A line ends with a line feed, and its fields stand between single spaces. A number is `0`, or
//! digits without a leading zero, with a `-` before them where it is below 0.
//!
//! A text has two readings. In the strict one numbers have their upper bounds, in the loose one they
//! may be of any size. Where the strict reading stops and the loose one goes on, the size of a
//! number alone is at fault.
#![tactic(auto)]

mod atoms;
mod cut;
mod fault;
mod loose;
mod taking;
mod writing;

pub use atoms::{positive, signed, small, word};
pub use cut::{natural, next_field, next_line, number};
pub use fault::{LineFault, ReadError};
pub use loose::{any_integer, any_natural, any_positive, is_less};
pub use taking::{first_line, placed};
pub use writing::{put_integer, put_natural};

#[cfg(test)]
mod tests;
