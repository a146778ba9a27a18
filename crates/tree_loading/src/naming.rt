ghost use Rattle.std.specs.Prelude.{◌≡◌, ℕ, IfOk, OnOk, IsErrOf};
ghost use Rattle.std.specs.Str.{is_utf8};
ghost use Rattle.outside.specs.Calls.{HasCause, Told};
ghost use Rattle.outside.specs.Disk.{node_at};
ghost use Rattle.outside.specs.Images.{disk_in};
ghost use Rattle.clear_tree.specs.Places.{is_folder};
ghost use Rattle.clear_tree.specs.Built.{kept_what};
ghost use Rattle.clear_tree.specs.Scan.{ShownText};
ghost use Rattle.tree_loading.specs.Format.{is_identifier};
ghost use Rattle.tree_loading.specs.Scanned.{shown_of};
ghost use Rattle.tree_loading.specs.Under.{HasOwnFolder};
ghost use Rattle.tree_loading.specs.Settled.{IsSettled, Claims};

use crate::folders::characters_of;
use crate::found::Shown;
use crate::load_fault::LoadErr;
use crate::reading::names_in;
use clear_tree::{What, host_folder};
use outside::{Kind, Reads};
use std::alloc::Global;
use std::collections::BTreeSet;
use vault_keys::VaultKeys;
use vault_layout::IDENTIFIER_LIMIT;
use vault_path::{Text, VaultPath};

/// What a node is, and whether it names a folder that is named already.
#[derive(Drop)]
pub(crate) struct Settled {
    pub(crate) what: What,
    pub(crate) again: bool,
}

/// Settles what a node is that shows this, by the folders that are named so far, and names the one that it names.
pub(crate) fn settle<R: Reads>(
    alloc: Global,
    from: &mut R,
    keys: &VaultKeys,
    claims: &mut BTreeSet<[u8; 32]>,
    shown: Shown,
) -> Result<Settled, LoadErr>
    ensures claims { OnOk result (Claims keys.now claims.old claims.new (shown_of shown)) }
    ensures settled { IfOk result (λ s. Told (disk_in (R.log from.old)) (λ d. IsSettled keys.now d claims.old (shown_of shown) s)) }
    ensures folder { IfOk result (λ s. HasOwnFolder keys.now (kept_what s.what)) }
    ensures root_is_there { IsErrOf result LoadErr.NoRoot → ⊥ }
    ensures few { (n : ℕ) → IsErrOf result (LoadErr.TooMany n) → ⊥ }
    ensures log { R.log from.new ≡ R.log from.old }
    ensures changes { R.changes from.new ≡ R.changes from.old }
    ensures cause { HasCause (R.faults from.old) (R.faults from.new) (IsErrOf result LoadErr.Device) }
{
    match shown {
        Shown::File(size) => Ok(Settled {
            what: What::File { size },
            again: false,
        }),
        Shown::Link(size) => Ok(Settled {
            what: What::Link { size },
            again: false,
        }),
        Shown::Directory(text) => settle_text(alloc, from, keys, claims, text),
    }
}

// A directory, if the text is an identifier whose folder is there and isn't named already, and else a Bad node. A folder that
// may not be listed is as none.
fn settle_text<R: Reads>(
    alloc: Global,
    from: &mut R,
    keys: &VaultKeys,
    claims: &mut BTreeSet<[u8; 32]>,
    text: Text,
) -> Result<Settled, LoadErr>
    ensures claims { OnOk result (Claims keys.now claims.old claims.new (ShownText text)) }
    ensures settled { IfOk result (λ s. Told (disk_in (R.log from.old)) (λ d. IsSettled keys.now d claims.old (ShownText text) s)) }
    ensures folder { IfOk result (λ s. HasOwnFolder keys.now (kept_what s.what)) }
    ensures root_is_there { IsErrOf result LoadErr.NoRoot → ⊥ }
    ensures few { (n : ℕ) → IsErrOf result (LoadErr.TooMany n) → ⊥ }
    ensures log { R.log from.new ≡ R.log from.old }
    ensures changes { R.changes from.new ≡ R.changes from.old }
    ensures cause { HasCause (R.faults from.old) (R.faults from.new) (IsErrOf result LoadErr.Device) }
{
    if !is_identifier(text.as_bytes()) {
        return Ok(Settled {
            what: What::Bad { text },
            again: false,
        });
    }
    let folder = characters_of(keys, text.as_bytes());
    if !claims.insert(folder)? {
        return Ok(Settled {
            what: What::Bad { text },
            again: true,
        });
    }
    let path = host_folder(&folder);
    if !is_listed(alloc, from, &path)? {
        return Ok(Settled {
            what: What::Bad { text },
            again: false,
        });
    }
    let identifier = text;
    Ok(Settled {
        what: What::Dir { identifier, folder },
        again: false,
    })
}

// Whether a host folder is at a path that may be listed.
fn is_listed<R: Reads>(alloc: Global, from: &mut R, path: &VaultPath) -> Result<bool, LoadErr>
    ensures listed { IfOk result (λ listed. Told (disk_in (R.log from.old)) (λ d. listed ≡ is_folder (node_at d path.now))) }
    ensures root_is_there { IsErrOf result LoadErr.NoRoot → ⊥ }
    ensures few { (n : ℕ) → IsErrOf result (LoadErr.TooMany n) → ⊥ }
    ensures log { R.log from.new ≡ R.log from.old }
    ensures changes { R.changes from.new ≡ R.changes from.old }
    ensures cause { HasCause (R.faults from.old) (R.faults from.new) (IsErrOf result LoadErr.Device) }
{
    match names_in(alloc, from, path)? {
        Some(_) => Ok(true),
        None => Ok(false),
    }
}

/// Whether a host folder is at a path.
pub(crate) fn is_there<R: Reads>(from: &mut R, path: &VaultPath) -> Result<bool, LoadErr>
    ensures there { IfOk result (λ there. Told (disk_in (R.log from.old)) (λ d. there ≡ is_folder (node_at d path.now))) }
    ensures root_is_there { IsErrOf result LoadErr.NoRoot → ⊥ }
    ensures few { (n : ℕ) → IsErrOf result (LoadErr.TooMany n) → ⊥ }
    ensures log { R.log from.new ≡ R.log from.old }
    ensures changes { R.changes from.new ≡ R.changes from.old }
    ensures cause { HasCause (R.faults from.old) (R.faults from.new) (IsErrOf result LoadErr.Device) }
{
    match from.kind(path)? {
        Some(Kind::Dir) => Ok(true),
        Some(Kind::File(_)) | None => Ok(false),
    }
}

/// Whether bytes are the identifier of a directory below the root.
pub fn is_identifier(bytes: &[u8]) -> bool
    ensures { result ≡ is_identifier bytes.now }
{
    !bytes.is_empty() && bytes.len() <= IDENTIFIER_LIMIT && is_text(bytes)
}

// Whether bytes are UTF-8.
fn is_text(bytes: &[u8]) -> bool
    ensures { result ≡ is_utf8 bytes.now }
{
    match str::from_utf8(bytes) {
        Ok(_) => true,
        Err(_) => false,
    }
}
