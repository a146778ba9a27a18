// Replies in words, and stats (stat(5)).

use crate::error::RunErr;
use std::alloc::Global;
use tree_model::{Qid, Refusal, Reply};
use vault_path::VaultPath;

/// What a stat says of its node.
#[derive(Clone, Copy)]
pub(crate) struct Node<'a> {
    pub qid: Qid,
    pub modified: u32,
    pub length: u64,
    pub name: &'a str,
}

fn u16_at(bytes: &[u8], at: usize) -> Option<u16> {
    Some(u16::from_le_bytes(*bytes.get(at..)?.first_chunk::<2>()?))
}

fn u32_at(bytes: &[u8], at: usize) -> Option<u32> {
    Some(u32::from_le_bytes(*bytes.get(at..)?.first_chunk::<4>()?))
}

fn u64_at(bytes: &[u8], at: usize) -> Option<u64> {
    Some(u64::from_le_bytes(*bytes.get(at..)?.first_chunk::<8>()?))
}

/// The node of the first stat, and what follows that.
pub(crate) fn first_node(bytes: &[u8]) -> Option<(Node<'_>, &[u8])> {
    let end = usize::from(u16_at(bytes, 0)?).saturating_add(2);
    let stat = bytes.get(..end)?;
    let name_len = usize::from(u16_at(stat, 41)?);
    let name = stat.get(43..)?.get(..name_len)?;
    let node = Node {
        qid: Qid {
            kind: *stat.get(8)?,
            version: u32_at(stat, 9)?,
            path: u64_at(stat, 13)?,
        },
        modified: u32_at(stat, 29)?,
        length: u64_at(stat, 33)?,
        name: str::from_utf8(name).ok()?,
    };
    Some((node, bytes.get(end..)?))
}

fn qid_words(alloc: Global, qid: &Qid) -> Result<String, RunErr> {
    let kind = if qid.kind == Qid::DIRECTORY {
        "dir"
    } else {
        "file"
    };
    Ok(format!(in alloc; "{kind} {} version {}", qid.path, qid.version)?)
}

fn place_words(alloc: Global, path: &VaultPath) -> Result<String, RunErr> {
    let mut text = String::from_str(alloc, "refused PlaceTaken")?;
    for index in 0..path.len() {
        text.push_str(if index == 0 { " " } else { "/" })?;
        text.push_str(str::from_utf8(path.part(index)).map_err(|_| RunErr::Stats)?)?;
    }
    Ok(text)
}

/// A reply in words, if `buffer` has its bytes.
pub(crate) fn words(alloc: Global, reply: &Reply, buffer: &[u8]) -> Result<String, RunErr> {
    match reply {
        Reply::Qid(qid) => qid_words(alloc, qid),
        Reply::Stat(_) => {
            let (node, _) = first_node(buffer).ok_or(RunErr::Stats)?;
            let qid = qid_words(alloc, &node.qid)?;
            Ok(format!(in alloc; "{qid} modified {} length {}", node.modified, node.length)?)
        }
        Reply::Refused(Refusal::PlaceTaken(path)) => place_words(alloc, path),
        Reply::Refused(refusal) => Ok(format!(in alloc; "refused {refusal:?}")?),
        Reply::Count(count) => Ok(format!(in alloc; "count {count}")?),
        Reply::Walked { count, .. } => Ok(format!(in alloc; "walked {count}")?),
        Reply::Done => Ok(String::from_str(alloc, "done")?),
    }
}
