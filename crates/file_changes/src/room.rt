ghost use Rattle.std.specs.Prelude.{◌≡◌, []};

use content_writer::ContentWriter;
use pending_files::Pending;
use std::alloc::{AllocError, Global};

/// Room for a change of a file's content, taken beforehand.
#[derive(Drop)]
pub struct FileChanges {
    pub(crate) writer: ContentWriter,
    // Between calls nothing waits in it.
    pub(crate) pending: Pending,
    ghost idle: { pending ≡ [] },
}

impl FileChanges {
    /// Takes the room. Fails only if memory runs out.
    pub fn new(alloc: Global) -> Result<FileChanges, AllocError> {
        Ok(FileChanges {
            writer: ContentWriter::new(alloc)?,
            pending: Pending::new(alloc)?,
        })
    }
}
