ghost use Rattle.std.specs.Prelude.{IfOk};
ghost use Rattle.vault_make.specs.Draws.{draws_data};
ghost use Rattle.vault_make.specs.Files.{AreFilesOf};

use crate::draws::Draws;
use std::alloc::{AllocError, Global};
use vault_layout::DEFAULT_THRESHOLD;

/// The bytes of a new vault's two key files.
#[derive(Drop)]
pub(crate) struct KeyFiles {
    pub(crate) masterkey: Vec<u8>,
    pub(crate) config: Vec<u8>,
}

/// The key files of what was drawn, under a password.
pub(crate) fn key_files(
    alloc: Global,
    draws: &Draws,
    password: &[u8],
) -> Result<KeyFiles, AllocError>
    ensures { IfOk result (AreFilesOf password.now (draws_data draws.now)) }
{
    Ok(KeyFiles {
        masterkey: masterkey_file::write(alloc, &draws.keys, password, &draws.salt)?,
        config: vault_config::write(alloc, &draws.keys, DEFAULT_THRESHOLD, &draws.jti)?,
    })
}
