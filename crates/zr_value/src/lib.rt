//! Reads the parts of a JSON value: numbers, names, lists, terms, formats, aims and variables, each
//! or its first fault and where it stands.
#![tactic(auto)]

mod fault;
mod format;
mod names;
mod terms;
mod values;
mod variables;

pub use fault::{GameError, GameFault, at, missing, missing_item, numbered, placed};
pub use format::{Aim, GameFormat, read_aim_member, read_cost_number_part, read_format};
pub use names::{Known, Names, read_known, read_known_part, read_name_member, read_new_name};
pub use terms::{opposite_terms, read_terms};
pub use values::{
    read_items, read_listed, read_name, read_number, read_number_part, read_object, read_text,
    read_truth, read_tuple, read_whole,
};
pub use variables::{Vars, read_variables};
