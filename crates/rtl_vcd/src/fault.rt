//! Why a trace was not written whole.

use thiserror::Error;

/// Why a trace was not written whole.
#[derive(Clone, Copy, Debug, Error)]
pub enum VcdFault {
    /// The sink took less than the whole text.
    #[error("the output failed")]
    Write,
}
