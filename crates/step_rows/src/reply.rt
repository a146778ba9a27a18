// Answers, as rows of a table give them.

use crate::row::{FieldErr, bytes, length, number, small, word};
use model_step::{Answer, Reply};
use std::alloc::Global;
use tree_model::{Qid, Refusal};

/// A qid: its type, its version and its path.
pub(crate) fn qid(field: &str) -> Result<Qid, FieldErr> {
    let mut parts = field.split('.');
    let kind = word(parts.next())?
        .parse::<u8>()
        .map_err(|_| FieldErr::Number)?;
    let version = small(parts.next())?;
    let path = number(parts.next())?;
    Ok(Qid {
        kind,
        version,
        path,
    })
}

fn qids(alloc: Global, field: &str) -> Result<Vec<Qid>, FieldErr> {
    let mut all = Vec::new(alloc);
    if field == "none" {
        return Ok(all);
    }
    for part in field.split(',') {
        all.push(qid(part)?)?;
    }
    Ok(all)
}

// A refusal of a node's contents or place.
fn other_refusal(word: &str) -> Result<Refusal, FieldErr> {
    match word {
        "directory-not-empty" => Ok(Refusal::DirectoryNotEmpty),
        "count-too-small" => Ok(Refusal::CountTooSmall),
        "file-too-large" => Ok(Refusal::FileTooLarge),
        "gap-too-large" => Ok(Refusal::GapTooLarge),
        "one-change-at-a-time" => Ok(Refusal::OneChangeAtATime),
        "vault-full" => Ok(Refusal::VaultFull),
        "damaged" => Ok(Refusal::Damaged),
        "foreign" => Ok(Refusal::Foreign),
        _ => Err(FieldErr::Word),
    }
}

fn refusal(word: &str) -> Result<Refusal, FieldErr> {
    match word {
        "removed" => Ok(Refusal::Removed),
        "not-a-directory" => Ok(Refusal::NotADirectory),
        "is-a-directory" => Ok(Refusal::IsADirectory),
        "bad-name" => Ok(Refusal::BadName),
        "name-too-long" => Ok(Refusal::NameTooLong),
        "file-does-not-exist" => Ok(Refusal::FileDoesNotExist),
        "file-exists" => Ok(Refusal::FileExists),
        "not-permitted" => Ok(Refusal::NotPermitted),
        _ => other_refusal(word),
    }
}

// The bytes of an answer, if it has a field for them.
fn bytes_if(alloc: Global, field: Option<&str>) -> Result<Vec<u8>, FieldErr> {
    bytes(alloc, field.unwrap_or("-"))
}

/// An answer: its kind, what it says, and its bytes.
pub(crate) fn answer(alloc: Global, line: &str) -> Result<Answer, FieldErr> {
    let mut fields = line.split(' ');
    let kind = word(fields.next())?;
    let value = fields.next();
    let reply = match kind {
        "qid" => Reply::Qid(qid(word(value)?)?),
        "walked" => Reply::Walked(qids(alloc, word(value)?)?),
        "count" => Reply::Count(length(value)?),
        "stat" => Reply::Stat(length(value)?),
        "done" => Reply::Done,
        "refused" => Reply::Refused(refusal(word(value)?)?),
        _ => return Err(FieldErr::Word),
    };
    let bytes = bytes_if(alloc, fields.next())?;
    Ok(Answer { reply, bytes })
}
