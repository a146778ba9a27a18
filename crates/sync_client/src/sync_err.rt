use thiserror::Error;

/// Why a sync was not answered.
#[derive(Clone, Copy, Debug, PartialEq, Eq, Error)]
pub enum SyncErr {
    /// The server refused a message.
    #[error("the server refused the sync")]
    Refused,
    /// What the server sent is not the reply of 9P2000 to a message, or agrees to no size of messages that serves.
    #[error("the server does not answer as 9P2000 says")]
    NotNinep,
    /// The input ended before a reply was there whole.
    #[error("the server ended the connection")]
    Ended,
    /// The link failed; its count of failed reads or writes rose.
    #[error("the connection failed")]
    Fault,
}
