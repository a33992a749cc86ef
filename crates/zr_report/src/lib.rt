//! Texts of best answers, and of reports on why there is no answer.
#![tactic(auto)]

mod answer;
mod best;
mod end;
mod question;
mod report;

pub use answer::Answer;
pub use best::write_best;
pub use end::End;
pub use report::write_report;
pub use zr_base::NoMemory;

#[cfg(test)]
mod tests;
