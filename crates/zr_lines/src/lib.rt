//! Lines of certificates: points, nodes and trees as they are read.
//!
//! Each line is read as `zr_form` says: strictly, and where it is refused once more without the
//! upper bounds of numbers, to tell whether a number's size alone is at fault.
#![tactic(auto)]

mod box_lines;
mod case_lines;
mod ends;
mod field;
mod loose_boxes;
mod loose_cases;
mod loose_field;
mod loose_multipliers;
mod loose_node;
mod loose_point;
mod multiplier_fields;
mod named_lines;
mod node;
mod point_fields;
mod tree;
mod words;

pub use box_lines::take_box_tree;
pub use case_lines::take_refutation;
pub use ends::Ends;
pub use field::{INDEX_LIMIT, count, ended, index};
pub use loose_field::{
    after_count, after_integer, after_natural, after_positive, spelled_integer, spelled_positive,
};
pub use loose_point::is_point;
pub use named_lines::take_named;
pub use point_fields::point;
pub use tree::take_tree;

#[cfg(test)]
mod tests;
