use thiserror::Error;
use tree_model::Refusal;

/// Why a change was not made.
#[derive(Debug, Drop, Error)]
pub enum ChangeErr {
    /// It is refused, and nothing changed.
    #[error("the change is refused")]
    Refused(Refusal),
    /// Its commit failed: the folder's count of faults rose. The disk holds what was before it or what is after it, and the
    /// vault is to be opened again.
    #[error("the vault's folder failed in a commit")]
    Broken,
}
