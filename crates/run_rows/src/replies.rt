// What clients were sent, beside what they are to be sent.

use crate::listening::RunListener;
use crate::plan::Row;
use crate::row::RowErr;
use ninep_wire::kinds;
use outside_mem::{MemLink, SeedEntropy, SetClock};
use std::alloc::{AllocError, Global};
use vault_top::Worker;

// What an Rerror of this text has after its tag.
const DEVICE_FAULT: &[u8; 14] = b"\x0c\0device fault";

/// How sent bytes compare with the wanted ones.
#[derive(Clone, Copy, Debug, PartialEq, Eq)]
pub(crate) enum Likeness {
    /// They are the same.
    Same,
    /// They are the same replies but for some `device fault`.
    Faulty,
    /// Some reply is another.
    Other,
}

impl Likeness {
    // Of both together.
    fn and(self, other: Likeness) -> Likeness {
        match (self, other) {
            (Likeness::Other, _) | (_, Likeness::Other) => Likeness::Other,
            (Likeness::Same, Likeness::Same) => Likeness::Same,
            (Likeness::Faulty, _) | (_, Likeness::Faulty) => Likeness::Faulty,
        }
    }
}

// The first message, and what is after it. None if there is no whole one.
fn first_message(bytes: &[u8]) -> Option<(&[u8], &[u8])> {
    let size = bytes.first_chunk::<4>()?;
    let size = u32::from_le_bytes(*size) as usize;
    if size < 7 || size > bytes.len() {
        return None;
    }
    Some(bytes.split_at(size))
}

// Whether a message is the Rerror `device fault` with the tag of another.
fn is_device_fault(message: &[u8], wanted: &[u8]) -> bool {
    message.get(4) == Some(&kinds::R_ERROR)
        && message.get(5..7) == wanted.get(5..7)
        && message.get(7..) == Some(DEVICE_FAULT.as_slice())
}

// Compares the replies one by one.
fn compare(wanted: &[u8], sent: &[u8]) -> Likeness {
    let mut like = Likeness::Same;
    let mut wanted = wanted;
    let mut sent = sent;
    for _ in 0..sent.len() {
        match (first_message(wanted), first_message(sent)) {
            (Some((wanted_first, wanted_rest)), Some((sent_first, sent_rest))) => {
                if wanted_first != sent_first {
                    if !is_device_fault(sent_first, wanted_first) {
                        return Likeness::Other;
                    }
                    like = Likeness::Faulty;
                }
                wanted = wanted_rest;
                sent = sent_rest;
            }
            _ => break,
        }
    }
    if wanted == sent {
        like
    } else {
        Likeness::Other
    }
}

/// The links that a listener was given back, in their order. The listener then has none of them.
pub(crate) fn given_back(
    alloc: Global,
    listener: &mut RunListener<'_>,
) -> Result<Vec<MemLink>, AllocError> {
    let mut links = Vec::new(alloc);
    for _ in 0..u32::MAX {
        match listener.take_back() {
            Some(link) => links.push(link)?,
            None => break,
        }
    }
    links.reverse();
    Ok(links)
}

/// Compares what the clients of a run were sent, and which they are, with its row.
pub(crate) fn compare_replies(
    alloc: Global,
    row: &Row<'_>,
    workers: &mut Vec<Worker<RunListener<'_>, SeedEntropy, SetClock>>,
) -> Result<Likeness, RowErr> {
    let mut like = Likeness::Same;
    for (crew, worker) in row.crews.iter().zip(workers.iter_mut()) {
        let links = given_back(alloc, &mut worker.listener)?;
        if links.len() != crew.clients.len() {
            return Ok(Likeness::Other);
        }
        for (client, link) in crew.clients.iter().zip(links.iter()) {
            like = like.and(compare(&client.is_sent, link.sink().taken()));
        }
    }
    Ok(like)
}
