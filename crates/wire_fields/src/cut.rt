use thiserror::Error;

/// Why no field was read.
#[derive(Clone, Copy, Debug, PartialEq, Eq, Error)]
pub enum Cut {
    /// The bytes end within the field. With more bytes behind them it could be read.
    #[error("the bytes end within a field")]
    Short,
    /// No field is here, whatever bytes follow.
    #[error("no field of this kind is here")]
    Bad,
}
