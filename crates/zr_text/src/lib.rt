//! Texts of certificates, both ways.
#![tactic(auto)]

mod bound;
mod cover;
mod fault;
mod heading;
mod laws;
mod loose;
mod reading;
mod strategy;
mod words;
mod writing;
mod writing_lines;

pub use fault::TextError;
pub use laws::{law_of_cert_texts, law_of_line_numbers};
pub use reading::read_cert;
pub use writing::write_cert;
pub use writing_lines::{
    put_direction, put_integer_field, put_named, put_natural_field, put_point, put_tree,
};
pub use zr_base::NoMemory;
pub use zr_cert::Cert;
pub use zr_form::{next_field, next_line, number};

#[cfg(test)]
mod tests;
