// Clients whose messages come in one order.

ghost use Rattle.std.specs.Prelude.{None};

use crate::table::{Message, is_refused};
use outside::{Failed, Link};
use std::alloc::Global;
use std::sync::atomic::{AtomicU64, Ordering};
use std::thread;

// How often a link looks for the replies that its message waits for at most.
const PATIENCE: u32 = 10_000_000;

/// How often a client sends a message.
#[derive(Clone, Copy, Debug, PartialEq, Eq)]
pub(crate) enum Asking {
    Once,
    /// Once more if it is told that something failed, unless its fid is gone by then.
    Again,
}

// What has become of a message: its reply isn't whole, or it is answered, or it is sent once more.
#[derive(Clone, Copy, Debug, PartialEq, Eq)]
enum Outcome {
    Open,
    Answered,
    Again,
}

// The message that is given, or a place in the order before it, and how much of it was given.
#[derive(Clone, Copy, Debug, PartialEq, Eq)]
struct Place {
    next: usize,
    at: usize,
}

/// A link to a client that sends each of its messages only once as many were answered as it waits for, whoever sent them.
#[derive(Drop)]
pub(crate) struct OrderedLink<'a> {
    messages: &'a [Message],
    // How many of them were answered.
    answered: &'a AtomicU64,
    client: usize,
    asking: Asking,
    // Whether the message under way is sent once more.
    is_again: bool,
    place: Place,
    taken: Vec<u8>,
    // Where in what was taken the reply under way begins.
    reply_at: usize,
    read_faults: u64,
    write_faults: u64,
}

impl Place {
    // The place after so many bytes more, of a message of which so many were left.
    fn after(self, count: usize, left: usize) -> Place {
        if count < left {
            Place {
                next: self.next,
                at: self.at.saturating_add(count),
            }
        } else {
            Place {
                next: self.next.saturating_add(1),
                at: 0,
            }
        }
    }
}

// Whether so many messages were answered, as far as patience goes.
fn were_answered(answered: &AtomicU64, count: usize) -> bool {
    for _ in 0..PATIENCE {
        if answered.load(Ordering::SeqCst) >= count as u64 {
            return true;
        }
        thread::yield_now();
    }
    false
}

// Whether a message is whole.
fn is_whole(message: &[u8]) -> bool {
    match message.first_chunk::<4>() {
        Some(size) => u32::from_le_bytes(*size) as usize <= message.len(),
        None => false,
    }
}

// The next message of a client, from a place in the order on.
fn next_of(messages: &[Message], client: usize, from: usize) -> Option<(usize, &Message)> {
    for (index, message) in messages.iter().enumerate().skip(from) {
        if message.client == client {
            return Some((index, message));
        }
    }
    None
}

impl<'a> OrderedLink<'a> {
    pub(crate) fn new(
        alloc: Global,
        messages: &'a [Message],
        answered: &'a AtomicU64,
        client: usize,
        asking: Asking,
    ) -> OrderedLink<'a> {
        OrderedLink {
            messages,
            answered,
            client,
            asking,
            is_again: false,
            place: Place { next: 0, at: 0 },
            taken: Vec::new(alloc),
            reply_at: 0,
            read_faults: 0,
            write_faults: 0,
        }
    }

    // Whether the message that was sent last, which has this reply, is sent once more.
    fn asks_again(&self, reply: &[u8]) -> bool {
        match self.messages.get(self.place.next.saturating_sub(1)) {
            Some(message) => {
                self.asking == Asking::Again
                    && !self.is_again
                    && is_refused(reply, "device fault")
                    && !message.frees_fid()
            }
            None => false,
        }
    }

    // What has become of the message that was sent last.
    fn outcome(&self) -> Outcome {
        match self.taken.get(self.reply_at..) {
            Some(reply) if is_whole(reply) => {
                if self.asks_again(reply) {
                    Outcome::Again
                } else {
                    Outcome::Answered
                }
            }
            _ => Outcome::Open,
        }
    }
}

impl<'a> Link for OrderedLink<'a> {
    ghost left = { λ _. None };

    ghost taken = { λ _. None };

    ghost read_faults = { λ link. link.read_faults };

    ghost write_faults = { λ link. link.write_faults };

    fn read(&mut self, out: &mut [u8]) -> Result<usize, Failed> {
        let Some((next, message)) = next_of(self.messages, self.client, self.place.next) else {
            return Ok(0);
        };
        if self.place.at == 0 && !were_answered(self.answered, message.after) {
            self.read_faults = self.read_faults.saturating_add(1);
            return Err(Failed);
        }
        let rest = message.sends.get(self.place.at..).unwrap_or(&[]);
        let count = out.len().min(rest.len());
        out[..count].copy_from_slice(&rest[..count]);
        let place = Place {
            next,
            at: self.place.at,
        };
        self.place = place.after(count, rest.len());
        Ok(count)
    }

    fn write(&mut self, piece: &[u8]) -> Result<usize, Failed> {
        if self.taken.extend_from_slice(piece).is_err() {
            self.write_faults = self.write_faults.saturating_add(1);
            return Err(Failed);
        }
        match self.outcome() {
            Outcome::Open => {}
            Outcome::Answered => {
                self.reply_at = self.taken.len();
                self.is_again = false;
                self.answered.fetch_add(1, Ordering::SeqCst);
            }
            Outcome::Again => {
                self.reply_at = self.taken.len();
                self.is_again = true;
                self.place.next = self.place.next.saturating_sub(1);
            }
        }
        Ok(piece.len())
    }
}

/// The client of a worker: its link, which comes once, and is kept once it was given back.
#[derive(Drop)]
pub(crate) struct OrderedClient<'a> {
    coming: Option<OrderedLink<'a>>,
    returned: Option<OrderedLink<'a>>,
}

impl<'a> OrderedClient<'a> {
    pub(crate) fn new(link: OrderedLink<'a>) -> OrderedClient<'a> {
        OrderedClient {
            coming: Some(link),
            returned: None,
        }
    }

    /// The link, if it has not come yet.
    pub(crate) fn next(&mut self) -> Option<OrderedLink<'a>> {
        self.coming.take()
    }

    /// Keeps the link.
    pub(crate) fn back(&mut self, link: OrderedLink<'a>) {
        self.returned = Some(link);
    }

    /// What the client was sent, if its link was given back.
    pub(crate) fn taken(&self) -> Option<&[u8]> {
        match &self.returned {
            Some(link) => Some(&link.taken),
            None => None,
        }
    }
}
