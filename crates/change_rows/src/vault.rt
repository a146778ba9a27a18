// A store over a folder in memory, and its tree as a text.

use crate::error::RunErr;
use crate::words::{Node, first_node, words};
use outside::{Folder, Refused};
use outside_mem::{MemFolder, SeedEntropy};
use std::alloc::Global;
use tree_model::{Qid, Reply, Request};
use vault_keys::VaultKeys;
use vault_layout::DEFAULT_THRESHOLD;
use vault_store::{OpenErr, Store};

// When vaults are opened.
const OPENED: u32 = 50;

/// When requests are made.
pub(crate) const SECOND: u32 = 100;

// Most directories of a tree, and most nodes of a directory.
const MOST_NODES: usize = 64;

/// Room for a reply's bytes.
pub(crate) const ROOM: usize = 8192;

pub(crate) type Vault = Store<MemFolder>;

/// A random source: RFC 8439's first example of ChaCha20's stream has this key.
pub(crate) fn seeded(alloc: Global) -> SeedEntropy {
    SeedEntropy::from_seed(alloc, [0; 32])
}

/// Opens the vault in a folder, whose keys are zeros.
pub(crate) fn open<D: Folder>(alloc: Global, folder: D) -> Result<Store<D>, Refused<D, OpenErr>> {
    let keys = VaultKeys::new(&[0; 32], &[0; 32]);
    Store::open(alloc, folder, &keys, DEFAULT_THRESHOLD, OPENED)
}

// A directory that is to be listed, and what is before its nodes' names.
#[derive(Drop)]
struct Directory {
    number: u64,
    path: String,
}

/// The paths of a vault's nodes in the order of their bytes, with a space between each two. A directory's has a `/` after it, and a
/// file's `=` and the front of its content in hexadecimal digits if it isn't empty, or `!` and why it can't be read.
pub(crate) fn tree_of(alloc: Global, vault: &mut Vault) -> Result<String, RunErr> {
    let mut paths = Vec::new(alloc);
    let mut waiting = Vec::new(alloc);
    waiting.push(Directory {
        number: 0,
        path: String::new(alloc),
    })?;
    for _ in 0..MOST_NODES {
        match waiting.pop() {
            Some(directory) => list(alloc, vault, &directory, &mut paths, &mut waiting)?,
            None => break,
        }
    }
    paths.sort()?;
    let mut tree = String::new(alloc);
    for path in &paths {
        tree.push_str(if tree.is_empty() { "" } else { " " })?;
        tree.push_str(path.as_str())?;
    }
    Ok(tree)
}

/// The tree of the vault that a folder holds, once it is opened.
pub(crate) fn tree_in(alloc: Global, folder: MemFolder) -> Result<String, RunErr> {
    match open(alloc, folder) {
        Ok(mut vault) => tree_of(alloc, &mut vault),
        Err(refused) => Err(RunErr::Open(refused.cause)),
    }
}

// Puts the paths of a directory's nodes after others, and the directories among them after those that wait.
fn list(
    alloc: Global,
    vault: &mut Vault,
    directory: &Directory,
    paths: &mut Vec<String>,
    waiting: &mut Vec<Directory>,
) -> Result<(), RunErr> {
    let mut buffer = [0; ROOM];
    let request = Request::List {
        node: directory.number,
        after: None,
        count: ROOM as u32,
    };
    let reply = vault.serve(&request, SECOND, &mut seeded(alloc), &mut buffer);
    let mut stats = bytes_of(&reply, &buffer).ok_or(RunErr::Stats)?;
    for _ in 0..MOST_NODES {
        if stats.is_empty() {
            return Ok(());
        }
        let (node, rest) = first_node(stats).ok_or(RunErr::Stats)?;
        stats = rest;
        let path = directory.path.as_str();
        if node.qid.kind == Qid::DIRECTORY {
            waiting.push(Directory {
                number: node.qid.path,
                path: format!(in alloc; "{path}{}/", node.name)?,
            })?;
            paths.push(format!(in alloc; "{path}{}/", node.name)?)?;
        } else {
            let content = content_of(alloc, vault, &node)?;
            paths.push(format!(in alloc; "{path}{}{content}", node.name)?)?;
        }
    }
    Err(RunErr::Stats)
}

// What a path shows of a file's content: its front, and of a longer one its length and its end, so that each end of what was written is read.
fn content_of(alloc: Global, vault: &mut Vault, node: &Node<'_>) -> Result<String, RunErr> {
    let front = part_of(alloc, vault, node, 0)?;
    if node.length <= 64 {
        return Ok(front);
    }
    let end = part_of(alloc, vault, node, node.length - 64)?;
    Ok(format!(in alloc; "{front}..{}{end}", node.length)?)
}

// 64 bytes of a file's content from a place on, or why they can't be read.
fn part_of(alloc: Global, vault: &mut Vault, node: &Node<'_>, at: u64) -> Result<String, RunErr> {
    let mut buffer = [0; 64];
    let request = Request::Read {
        node: node.qid.path,
        at,
        count: 64,
    };
    let reply = vault.serve(&request, SECOND, &mut seeded(alloc), &mut buffer);
    match bytes_of(&reply, &buffer) {
        Some([]) => Ok(String::new(alloc)),
        Some(content) => {
            let digits = hex::encode(alloc, content)?;
            Ok(format!(in alloc; "={digits}")?)
        }
        None => {
            let why = words(alloc, &reply, &buffer)?;
            Ok(format!(in alloc; "!{why}")?)
        }
    }
}

// The bytes of a buffer that a reply counts.
fn bytes_of<'a>(reply: &Reply, buffer: &'a [u8]) -> Option<&'a [u8]> {
    match reply {
        Reply::Count(count) => buffer.get(..*count as usize),
        _ => None,
    }
}
