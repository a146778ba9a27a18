use vault_path::VaultPath;

/// Why a request was refused.
#[derive(Debug, PartialEq, Eq, Drop)]
pub enum Refusal {
    /// The number has no node.
    Removed,
    NotADirectory,
    IsADirectory,
    /// The name isn't valid: no UTF-8, empty, `.` or `..`, or with `/` or NUL.
    BadName,
    /// The name has more than 1,024 bytes in NFC.
    NameTooLong,
    FileDoesNotExist,
    FileExists,
    NotPermitted,
    DirectoryNotEmpty,
    /// The next stat doesn't fit into the count.
    CountTooSmall,
    /// A write or a length past 2^40 bytes.
    FileTooLarge,
    /// A gap of more than 1,048,576 bytes past the end.
    GapTooLarge,
    /// A name and a length changed together.
    OneChangeAtATime,
    /// No more nodes can be made.
    VaultFull,
    /// What is needed doesn't open under the vault's keys.
    Damaged,
    /// The folder has entries that aren't the vault's, which are never touched.
    Foreign,
    /// The host path where the new node would be is taken.
    PlaceTaken(VaultPath),
    /// The store stopped when the commit of this entry failed.
    Stopped(u64),
    /// This ticket was the caller's last.
    Exhausted(u64),
    /// The folder's count of faults rose.
    DeviceFault,
    /// The random source's count of faults rose.
    RandomFault,
    OutOfMemory,
}
