//! Trees whose nodes are named by numbers, with the list of their leaves that are left to do.
#![tactic(auto)]

mod branches;
mod forest;
mod leaves;
mod node_id;

pub use forest::Forest;
pub use node_id::NodeId;

#[cfg(test)]
mod tests;
