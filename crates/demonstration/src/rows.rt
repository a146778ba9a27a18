//! The line that sums a demonstration up.

ghost use Rattle.std.specs.Prelude.{◌≡◌, ◌++◌, IfOk, OnOk, decimal, map, sum_by};
ghost use Rattle.std.specs.List.{flat_map};
ghost use Rattle.hex.specs.Hex.{encode_lower};
ghost use Rattle.demonstration.specs.Summary.{bytes_in, plain_row, row_line, summary_line};

use itoa::Buffer;
use sha2::{Digest, Sha256};
use std::alloc::{AllocError, Global};

/// A node that is left: its path, and of a file its length and the SHA-256 of its bytes. A directory's aren't looked at.
#[derive(Drop)]
pub struct DemoRow {
    pub path: Vec<u8>,
    pub is_dir: bool,
    pub len: u64,
    pub hash: [u8; 32],
}

/// The line of a demonstration by so many clients with so many requests each, whose history has so many entries, without its LF.
/// The nodes are those that are left, but for the root, in the order of their paths' bytes.
pub fn summary(
    alloc: Global,
    clients: u32,
    requests: u32,
    entries: u64,
    nodes: &[DemoRow],
) -> Result<Vec<u8>, AllocError>
    ensures { IfOk result (λ line. line.items ≡ summary_line clients requests entries (map plain_row nodes.now)) }
{
    let rows = row_lines(alloc, nodes)?;
    let mut line = Vec::new(alloc);
    push_count(&mut line, b"clients ", u128::from(clients))?;
    push_count(&mut line, b" requests ", u128::from(requests))?;
    push_count(&mut line, b" entries ", u128::from(entries))?;
    push_count(&mut line, b" bytes ", total_len(nodes))?;
    line.extend_from_slice(b" rows ")?;
    push_hash(&mut line, &Sha256::digest(rows.as_slice()))?;
    Ok(line)
}

fn push_count(line: &mut Vec<u8>, word: &[u8], count: u128) -> Result<(), AllocError>
    ensures { OnOk result (line.new.items ≡ line.old.items ++ (word.now ++ decimal count)) }
{
    line.extend_from_slice(word)?;
    line.extend_from_slice(Buffer::new().format(count).as_bytes())
}

fn push_hash(line: &mut Vec<u8>, hash: &[u8; 32]) -> Result<(), AllocError>
    ensures { OnOk result (line.new.items ≡ line.old.items ++ encode_lower hash.now) }
{
    let mut digits = [0; 64];
    // There is room for two digits a byte.
    let _ = hex::encode_to_slice(hash, &mut digits);
    line.extend_from_slice(&digits)
}

// How many bytes the files have. No sum of so many lengths reaches 2^128.
fn total_len(nodes: &[DemoRow]) -> u128
    ensures { result ≡ sum_by bytes_in (map plain_row nodes.now) }
{
    let mut total = 0;
    for node in nodes {
        if !node.is_dir {
            total += u128::from(node.len);
        }
    }
    total
}

fn row_lines(alloc: Global, nodes: &[DemoRow]) -> Result<Vec<u8>, AllocError>
    ensures { IfOk result (λ lines. lines.items ≡ flat_map row_line (map plain_row nodes.now)) }
{
    let mut lines = Vec::new(alloc);
    for node in nodes {
        push_row(&mut lines, node)?;
    }
    Ok(lines)
}

fn push_row(lines: &mut Vec<u8>, node: &DemoRow) -> Result<(), AllocError>
    ensures { OnOk result (lines.new.items ≡ lines.old.items ++ row_line (plain_row node.now)) }
{
    if node.is_dir {
        lines.extend_from_slice(b"d ")?;
        lines.extend_from_slice(&node.path)?;
    } else {
        lines.extend_from_slice(b"f ")?;
        lines.extend_from_slice(&node.path)?;
        push_count(lines, b" ", u128::from(node.len))?;
        lines.extend_from_slice(b" ")?;
        push_hash(lines, &node.hash)?;
    }
    lines.extend_from_slice(b"\n")
}
