// Why there is no next label.
use thiserror::Error;

/// Why a name has no next label.
#[derive(Clone, Copy, Debug, PartialEq, Eq, Error)]
pub enum LabelError {
    /// No label has the name that is to move.
    #[error("no label has that name")]
    NoLabel,
    /// The label isn't at the version from which it is to move. The version that it has.
    #[error("the label is at version {0}")]
    Stale(u64),
    /// The label is at the greatest version.
    #[error("the label is at the last version")]
    VersionEnd,
    /// The name that is to be made has a label.
    #[error("a label has that name")]
    LabelExists,
}
