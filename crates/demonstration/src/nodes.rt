//! The row of each node, by its number.

ghost use Rattle.std.specs.Prelude.{◌≡◌, ◌≢◌, ◌<◌, suc, ◌∷◌, ◌++◌, length, false, Some, IfOk, IsErrOf};
ghost use Rattle.sha2.specs.Sha256.{sha256};
ghost use Rattle.outside.specs.Images.{disk_in};
ghost use Rattle.tree_model.specs.Rows.{all_there, joined};
ghost use Rattle.file_chunks.specs.File.{content_of};
ghost use Rattle.clear_tree.specs.Built.{kept_what};
ghost use Rattle.clear_tree.specs.Kept.{IsTree};
ghost use Rattle.demonstration.specs.Left.{IsDamaged};
ghost use Rattle.demonstration.specs.Nodes.{AreRowsOf, HasHost, HasUnread, IsRowOf, IsTextBelow, IsUnreadHost, IsUnreadWhat, IsWhat};

use crate::contents::read_whole;
use crate::error::LeftErr;
use crate::rows::DemoRow;
use clear_tree::{Tree, What};
use content_reader::{ContentReader, SealedFile};
use outside::Reads;
use sha2::{Digest, Sha256};
use std::alloc::{AllocError, Global};
use vault_keys::VaultKeys;

// The number of the root (its row is in no list).
const ROOT: u64 = 0;

// The path of a node of this name as text, by the row of its parent.
fn text_below(alloc: Global, rows: &[DemoRow], parent: u64, name: &[u8]) -> Result<Vec<u8>, LeftErr>
    ensures text { IfOk result (λ text. IsTextBelow rows.now parent name.now text.items) }
    ensures damaged { IsErrOf result LeftErr.Damaged → length rows.now < parent }
{
    if parent == ROOT {
        return Ok(name.to_vec(alloc)?);
    }
    match rows.get(parent as usize - 1) {
        Some(above) => Ok(joined(alloc, &above.path, name)?),
        None => Err(LeftErr::Damaged),
    }
}

// A path and a name, with `/` between them.
fn joined(alloc: Global, path: &[u8], name: &[u8]) -> Result<Vec<u8>, AllocError>
    ensures { IfOk result (λ text. text.items ≡ path.now ++ 47 ∷ name.now) }
{
    let mut text = path.to_vec(alloc)?;
    text.push(b'/')?;
    text.extend_from_slice(name)?;
    Ok(text)
}

// The row of what has these bytes.
fn file_row(path: Vec<u8>, bytes: &[u8]) -> DemoRow
    ensures path { result.path.items ≡ path.items }
    ensures kind { result.is_dir ≡ false }
    ensures len { result.len ≡ length bytes.now }
    ensures hash { result.hash ≡ sha256 bytes.now }
{
    DemoRow {
        path,
        is_dir: false,
        len: bytes.len() as u64,
        hash: Sha256::digest(bytes),
    }
}

// The clear bytes of a file or a link.
fn bytes_of<R: Reads>(
    alloc: Global,
    folder: &mut R,
    keys: &VaultKeys,
    tree: &Tree,
    reader: &mut ContentReader,
    number: u64,
) -> Result<Vec<u8>, LeftErr>
    ensures bytes { IfOk result (λ bytes. HasHost (disk_in (R.log folder.old)) tree.now number
        (λ sealed. all_there (joined (content_of keys.now sealed)) ≡ Some bytes.items)) }
    ensures damaged { IsErrOf result LeftErr.Damaged → IsUnreadHost keys.now (disk_in (R.log folder.old)) tree.now number }
    ensures log { R.log folder.new ≡ R.log folder.old }
{
    let Some(path) = tree.path(number) else {
        return Err(LeftErr::Damaged);
    };
    let Some(size) = tree.size(number) else {
        return Err(LeftErr::Damaged);
    };
    read_whole(alloc, folder, keys, reader, &SealedFile { path, size })
}

// The row of a node whose path this is.
fn row_of<R: Reads>(
    alloc: Global,
    folder: &mut R,
    keys: &VaultKeys,
    tree: &Tree,
    reader: &mut ContentReader,
    number: u64,
    what: &What,
    path: Vec<u8>,
) -> Result<DemoRow, LeftErr>
    ensures path { IfOk result (λ row. row.path.items ≡ path.items) }
    ensures what { IfOk result (λ row. IsWhat keys.now (disk_in (R.log folder.old)) tree.now number (kept_what what.now) row) }
    ensures damaged { IsErrOf result LeftErr.Damaged
        → IsUnreadWhat keys.now (disk_in (R.log folder.old)) tree.now number (kept_what what.now) }
    ensures log { R.log folder.new ≡ R.log folder.old }
{
    match what {
        What::Dir { .. } => Ok(DemoRow {
            path,
            is_dir: true,
            len: 0,
            hash: [0; 32],
        }),
        What::Bad { .. } => Ok(file_row(path, &[])),
        What::File { .. } | What::Link { .. } => {
            let bytes = bytes_of(alloc, folder, keys, tree, reader, number)?;
            Ok(file_row(path, &bytes))
        }
    }
}

// The row of the node of a number after the root, by the rows before it.
fn row_at<R: Reads>(
    alloc: Global,
    folder: &mut R,
    keys: &VaultKeys,
    tree: &Tree,
    reader: &mut ContentReader,
    rows: &[DemoRow],
    number: u64,
) -> Result<DemoRow, LeftErr>
    requires { number ≢ 0 }
    ensures row { IfOk result (λ row. AreRowsOf keys.now (disk_in (R.log folder.old)) tree.now rows.now
        → IsRowOf keys.now (disk_in (R.log folder.old)) tree.now number row) }
    ensures damaged { IsErrOf result LeftErr.Damaged → IsTree tree.now → suc (length rows.now) ≡ number → number < length tree.now.nodes
        → HasHost (disk_in (R.log folder.old)) tree.now number (λ sealed. IsDamaged (content_of keys.now sealed)) }
    ensures log { R.log folder.new ≡ R.log folder.old }
{
    let Some(node) = tree.node(number) else {
        return Err(LeftErr::Damaged);
    };
    let path = text_below(alloc, rows, node.parent(), node.name())?;
    let what = node.what();
    let row = row_of(alloc, folder, keys, tree, reader, number, what, path)?;
    Ok(row)
}

/// The rows of all nodes after the root, by their numbers.
pub(crate) fn rows_of<R: Reads>(
    alloc: Global,
    folder: &mut R,
    keys: &VaultKeys,
    tree: &Tree,
) -> Result<Vec<DemoRow>, LeftErr>
    ensures rows { IfOk result (λ rows. AreRowsOf keys.now (disk_in (R.log folder.old)) tree.now rows.items) }
    ensures count { IfOk result (λ rows. suc (length rows.items) ≡ length tree.now.nodes) }
    ensures damaged { IsErrOf result LeftErr.Damaged → HasUnread keys.now (disk_in (R.log folder.old)) tree.now }
    ensures log { R.log folder.new ≡ R.log folder.old }
{
    let mut reader = ContentReader::new(alloc)?;
    let mut rows = Vec::new(alloc);
    for number in 1..tree.len() as u64 {
        let row = row_at(alloc, folder, keys, tree, &mut reader, &rows, number)?;
        rows.push(row)?;
    }
    Ok(rows)
}
