ghost use Rattle.std.specs.Prelude.{◌↔◌, IsTrue};
ghost use Rattle.host_streams.specs.Errors.{IsMissing, IsMisfit};

use std::io;
use std::io::ErrorKind;

/// Nothing can be at the path, since it, or a folder on the way to it, is missing.
pub fn is_missing(error: &io::Error) -> bool
    ensures { IsTrue result ↔ IsMissing error.now }
{
    matches!(error.kind(), ErrorKind::NotFound | ErrorKind::NotADirectory)
}

/// The path isn't what a change needs: it is missing on the way, or a folder is there, or one that isn't empty.
pub fn is_misfit(error: &io::Error) -> bool
    ensures { IsTrue result ↔ IsMisfit error.now }
{
    is_missing(error)
        || matches!(
            error.kind(),
            ErrorKind::IsADirectory | ErrorKind::DirectoryNotEmpty
        )
}
