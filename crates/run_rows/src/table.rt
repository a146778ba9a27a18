// The tables of messages.

use crate::row::{RowErr, number, push_bytes};
use ninep_wire::kinds;
use std::alloc::{AllocError, Global};

/// A message, and its reply.
#[derive(Drop)]
pub(crate) struct Message {
    /// The number of the client that sends it.
    pub client: usize,
    pub sends: Vec<u8>,
    /// How many messages are answered before it is sent.
    pub after: usize,
    pub is_sent: Vec<u8>,
    /// The number of the state that a vault is left in which is closed after it.
    pub leaves: usize,
    /// Whether no stop undoes it once it is answered, nor what came before it.
    pub stable: bool,
    /// Which of its changing calls of the folder opens the journal's gate: after the next call, which flushes that, no stop undoes it either.
    pub opens: Option<u64>,
}

/// What fails in the runs of a block.
#[derive(Clone, Copy, Debug, PartialEq, Eq)]
pub(crate) enum Faults {
    /// The changing call of the folder that is the so many-th from a message on.
    Change { from: usize, count: u64 },
    /// All calls of the folder from some number on: it is stopped.
    Stops,
    /// A read or a write of the link.
    LinkCalls,
    /// A call of the folder.
    FolderCalls,
}

/// Messages in one order: each is sent once the ones before it were answered.
#[derive(Drop)]
pub(crate) struct Order<'a> {
    pub name: &'a str,
    pub messages: Vec<Message>,
    /// What fails in its runs, of each kind; nothing does if there are none.
    pub faults: Vec<Faults>,
}

/// A table: what a client sends that looks at a vault, what it is sent in each state, and the orders.
#[derive(Drop)]
pub(crate) struct Table<'a> {
    pub looking: Vec<u8>,
    pub states: Vec<Vec<u8>>,
    pub orders: Vec<Order<'a>>,
}

// The type of a message.
fn kind_of(message: &[u8]) -> Option<u8> {
    message.get(4).copied()
}

/// Whether a reply is an error.
pub(crate) fn is_error(reply: &[u8]) -> bool {
    kind_of(reply) == Some(kinds::R_ERROR)
}

/// Whether a reply is an error of this text.
pub(crate) fn is_refused(reply: &[u8], text: &str) -> bool {
    is_error(reply) && reply.get(9..) == Some(text.as_bytes())
}

impl Message {
    /// What a client sends once so many messages were answered.
    pub(crate) fn new(alloc: Global, client: usize, sends: Vec<u8>, after: usize) -> Message {
        Message {
            client,
            sends,
            after,
            is_sent: Vec::new(alloc),
            leaves: 0,
            stable: false,
            opens: None,
        }
    }

    /// Whether its fid is gone whatever the reply is.
    pub(crate) fn frees_fid(&self) -> bool {
        kind_of(&self.sends) == Some(kinds::T_REMOVE) || self.is_clunk()
    }

    /// Whether it asks nothing of the vault.
    pub(crate) fn is_clunk(&self) -> bool {
        kind_of(&self.sends) == Some(kinds::T_CLUNK)
    }
}

// A field as a number of something in memory.
fn index(field: &str) -> Result<usize, RowErr> {
    field.parse::<usize>().map_err(|_| RowErr::Line)
}

fn bytes_of(alloc: Global, field: &str) -> Result<Vec<u8>, RowErr> {
    let mut bytes = Vec::new(alloc);
    push_bytes(alloc, &mut bytes, field)?;
    Ok(bytes)
}

impl<'a> Order<'a> {
    fn new(alloc: Global, name: &'a str) -> Order<'a> {
        Order {
            name,
            messages: Vec::new(alloc),
            faults: Vec::new(alloc),
        }
    }

    // The state that is left before the next message.
    fn state(&self) -> usize {
        match self.messages.last() {
            Some(message) => message.leaves,
            None => 0,
        }
    }

    // The message whose lines are read.
    fn message(&mut self) -> Result<&mut Message, RowErr> {
        self.messages.last_mut().ok_or(RowErr::Line)
    }

    // A client's number and what it sends.
    fn read_message(&mut self, alloc: Global, value: &str) -> Result<(), RowErr> {
        let (client, digits) = value.split_once(' ').ok_or(RowErr::Line)?;
        let after = self.messages.len();
        let mut message = Message::new(alloc, index(client)?, bytes_of(alloc, digits)?, after);
        message.leaves = self.state();
        self.messages.push(message)?;
        Ok(())
    }

    // A line of a block, by its first word.
    fn read_line(&mut self, alloc: Global, key: &str, value: &str) -> Result<(), RowErr> {
        match key {
            ">" => self.read_message(alloc, value)?,
            "<" => push_bytes(alloc, &mut self.message()?.is_sent, value)?,
            "=" => self.message()?.leaves = index(value)?,
            "stable" => self.message()?.stable = true,
            "opens" => self.message()?.opens = Some(number(value)?),
            "fails" => {
                let change = Faults::Change {
                    from: self.messages.len(),
                    count: number(value)?,
                };
                self.faults.push(change)?;
            }
            "stops" => self.faults.push(Faults::Stops)?,
            "link-calls" => self.faults.push(Faults::LinkCalls)?,
            "folder-calls" => self.faults.push(Faults::FolderCalls)?,
            _ => return Err(RowErr::Line),
        }
        Ok(())
    }
}

impl<'a> Table<'a> {
    /// Reads a table.
    pub(crate) fn read(alloc: Global, text: &'a str) -> Result<Table<'a>, RowErr> {
        let mut table = Table {
            looking: Vec::new(alloc),
            states: Vec::new(alloc),
            orders: Vec::new(alloc),
        };
        for line in text.lines() {
            if line.is_empty() || line.starts_with('#') {
                continue;
            }
            let (key, value) = line.split_once(' ').unwrap_or((line, ""));
            table.read_line(alloc, key, value)?;
        }
        Ok(table)
    }

    fn read_line(&mut self, alloc: Global, key: &str, value: &'a str) -> Result<(), RowErr> {
        match key {
            "look" => push_bytes(alloc, &mut self.looking, value)?,
            "state" => self.states.push(bytes_of(alloc, value)?)?,
            "run" => self.orders.push(Order::new(alloc, value))?,
            _ => {
                let order = self.orders.last_mut().ok_or(RowErr::Line)?;
                order.read_line(alloc, key, value)?;
            }
        }
        Ok(())
    }
}

/// What a client is sent in reply to its messages among these.
pub(crate) fn replies_to(
    alloc: Global,
    messages: &[Message],
    client: usize,
) -> Result<Vec<u8>, AllocError> {
    let mut replies = Vec::new(alloc);
    for message in messages {
        if message.client == client {
            replies.extend_from_slice(&message.is_sent)?;
        }
    }
    Ok(replies)
}
