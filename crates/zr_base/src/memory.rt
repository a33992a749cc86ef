use thiserror::Error;

/// Want of memory: a call that answers it has left its arguments as they were.
#[derive(Clone, Copy, Debug, PartialEq, Eq, Error)]
#[error("out of memory")]
pub struct NoMemory;
