//! One caller's way to the tree.
ghost use Rattle.std.specs.Prelude.{◌≡◌, ◌∷◌, [], ℕ, IfErr, IfOk, OnErr, false, length};
ghost use Rattle.outside.specs.Views.{entropy_in};
ghost use Rattle.tree_model.specs.Asked.{CanAsk, Extends, HasCount, IsReplyTo, KeepsRest, asked_of, bytes_put, is_exhausted, plain_reply, plain_request, refused};
ghost use Rattle.tree_model.specs.declared.refusal.Refusal.TheVariants as refusals;
ghost use Rattle.turn_lock.specs.Seats.{IsIdle};
ghost use Rattle.shared_tree.specs.Clients.{GoesOn, HasAsked, HasEntry, HasNoTurn, IsServed, client_of};

use crate::held::{Held, Start};
use crate::made::Made;
use crate::shared::Shared;
use crate::tree::SharedTree;
use outside::Entropy;
use std::marker::{Model, PhantomData};
use std::snapshot::Snapshot;
use std::sync::Wait;
use tree_model::{Refusal, Reply, Request, TreeObject};
use turn_lock::{Note, Seat, Spent, TurnLock};

/// One caller of a shared tree, with its random source. Contracts see its seat, with the turns that it has seen, and the source.
pub struct Client<'a, R: Wait, T: SharedTree, B: Start, E: Entropy> {
    shared: &'a Shared<T, B>,
    rt: &'a R,
    seat: Seat<Held<T, B>>,
    entropy: E,
}

impl<'a, R: Wait, T: SharedTree, B: Start, E: Entropy> Model for Client<'a, R, T, B, E> {
    ghost use Rattle.shared_tree.specs.Clients.{ClientView, GoesOn, client_of};
    ghost use Rattle.turn_lock.specs.Seats.{IsIdle};

    ghost Value = { ClientView E };

    ghost view = { λ c. client_of c.seat c.entropy };

    ghost invariant = { λ c. IsIdle c.shared.now.id c.seat × GoesOn B.is c.seat (E.faults c.entropy) };
}

// What was asked and answered in a turn, with the random source before and after.
struct Answered<'a, T, E> {
    request: &'a Request<'a>,
    now: u32,
    reply: &'a Reply,
    buffer: &'a [u8],
    before: Snapshot<E>,
    after: Snapshot<E>,
    tree: PhantomData<T>,
}

impl<T, E> Drop for Answered<'_, T, E> {
    fn drop(self) {
        let Self {
            request: _,
            now: _,
            reply: _,
            buffer: _,
            before: _,
            after: _,
            tree: _,
        } = self;
    }
}

impl<T: SharedTree, E: Entropy> Note<Made> for Answered<'_, T, E> {
    ghost use Rattle.std.specs.Prelude.{◌≡◌, Some};
    ghost use Rattle.outside.specs.Views.{entropy_in};
    ghost use Rattle.tree_model.specs.Asked.{plain_request, plain_reply, asked_of};
    ghost use Rattle.tree_model.specs.History as histories;
    ghost use Rattle.shared_tree.specs.Trees.{IsMadeOf};

    ghost tells = { λ n entry. (made : histories.Made) × (entry ≡ Some made)
        × IsMadeOf T.draws (asked_of (plain_request n.request.now) n.now (plain_reply n.reply.now) n.buffer.now)
        (entropy_in E.Entropy n.before.value) (entropy_in E.Entropy n.after.value) made };
}

// One turn, in which the tree answers. Of a late ticket the answer is its number.
fn ask_in_turn<R: Wait, T: SharedTree, B: Start, E: Entropy>(
    rt: &R,
    lock: &TurnLock<Held<T, B>>,
    seat: &mut Seat<Held<T, B>>,
    entropy: &mut E,
    request: &Request<'_>,
    now: u32,
    buffer: &mut [u8],
) -> Result<Reply, Spent>
    requires idle { IsIdle lock.now.id seat.old }
    requires goes { GoesOn B.is seat.old (E.faults entropy.old) }
    requires form { CanAsk request.now (length buffer.old) }
    ensures idle { IsIdle lock.now.id seat.new }
    ensures goes { GoesOn B.is seat.new (E.faults entropy.new) }
    ensures entry { IfOk result (λ reply. HasEntry T.draws (entropy_in E.Entropy) (client_of seat.old entropy.old) (client_of seat.new entropy.new)
        (asked_of (plain_request request.now) now (plain_reply reply) buffer.new)) }
    ensures right { IfOk result (λ _. IsServed B.is T.stands seat.new.seen) }
    ensures enters { IfOk result (λ reply. is_exhausted (plain_reply reply) ≡ false) }
    ensures form { IfOk result (λ reply. IsReplyTo (plain_request request.now) (plain_reply reply)
        (bytes_put (plain_request request.now) (plain_reply reply) buffer.new)) }
    ensures count { IfOk result (λ reply. HasCount reply) }
    ensures rest { IfOk result (λ reply. KeepsRest (plain_request request.now) (plain_reply reply) buffer.old buffer.new) }
    ensures late { IfErr result (λ spent. HasNoTurn (client_of seat.old entropy.old) (client_of seat.new entropy.new) spent.0) }
    ensures unasked { OnErr result (buffer.new ≡ buffer.old) }
{
    let mut turn = lock.take(rt, seat)?;
    let before = Snapshot::of(entropy);
    let reply = turn.value_mut().tree.serve(request, now, entropy, buffer);
    let note = Answered::<T, E> {
        request,
        now,
        reply: &reply,
        buffer,
        before,
        after: Snapshot::of(entropy),
        tree: PhantomData,
    };
    lock.end(seat, turn, &note);
    drop(note);
    Ok(reply)
}

impl<'a, R: Wait, T: SharedTree, B: Start, E: Entropy> TreeObject for Client<'a, R, T, B, E> {
    ghost use Rattle.outside.specs.Views.{entropy_in};
    ghost use Rattle.shared_tree.specs.Clients.{HasAsked};

    ghost stands = { λ now start asked. HasAsked T.draws (entropy_in E.Entropy) start now asked };

    // What the trait asks. Beside it: a request has its entry in a turn that is the last of what the client has then seen, for all of which
    // the tree then stood, and it is answered as exhausted if and only if its ticket is past the last turn.
    fn ask(&mut self, request: &Request<'_>, now: u32, buffer: &mut [u8]) -> Reply
        requires form { CanAsk request.now (length buffer.old) }
        ensures stands { Extends (λ now start asked. HasAsked T.draws (entropy_in E.Entropy) start now asked) self.old self.new
            (asked_of (plain_request request.now) now (plain_reply result) buffer.new ∷ []) }
        ensures form { IsReplyTo (plain_request request.now) (plain_reply result)
            (bytes_put (plain_request request.now) (plain_reply result) buffer.new) }
        ensures count { HasCount result }
        ensures rest { KeepsRest (plain_request request.now) (plain_reply result) buffer.old buffer.new }
        ensures entry { is_exhausted (plain_reply result) ≡ false → HasEntry T.draws (entropy_in E.Entropy) self.old self.new
            (asked_of (plain_request request.now) now (plain_reply result) buffer.new) }
        ensures right { is_exhausted (plain_reply result) ≡ false → IsServed B.is T.stands self.new.seat.seen }
        ensures late { (ticket : ℕ) → plain_reply result ≡ refused (refusals.Exhausted ticket) → HasNoTurn self.old self.new ticket }
    {
        let shared = self.shared;
        let answer = ask_in_turn(
            self.rt,
            &shared.lock,
            &mut self.seat,
            &mut self.entropy,
            request,
            now,
            buffer,
        );
        match answer {
            Ok(reply) => reply,
            Err(spent) => Reply::Refused(Refusal::Exhausted(spent.0)),
        }
    }
}

impl<'a, R: Wait, T: SharedTree, B: Start, E: Entropy> Client<'a, R, T, B, E> {
    ghost use Rattle.turn_lock.specs.Turns.{longer};
    ghost use Rattle.turn_lock.specs.Seats.{Learns};

    /// A client with a seat that is in no turn, and a random source whose fault count is at least that recorded in its caller's entries
    /// that the seat has seen, or, if there are none, that at the beginning of the history.
    pub fn new(
        shared: &'a Shared<T, B>,
        rt: &'a R,
        seat: Seat<Held<T, B>>,
        entropy: E,
    ) -> Client<'a, R, T, B, E>
        requires idle { IsIdle shared.now.id seat }
        requires goes { GoesOn B.is seat (E.faults entropy) }
        ensures { result ≡ client_of seat entropy }
    {
        Client {
            shared,
            rt,
            seat,
            entropy,
        }
    }

    /// Both have then seen one list of turns: the longer of the two, which both begin. So a later request of either finds what the other
    /// has changed.
    pub fn meet(&mut self, other: &mut Client<'a, R, T, B, E>)
        requires one { other.old.seat.lock ≡ self.old.seat.lock }
        ensures first { Learns self.old.seat self.new.seat (longer self.old.seat.seen other.old.seat.seen) }
        ensures second { Learns other.old.seat other.new.seat (longer self.old.seat.seen other.old.seat.seen) }
        ensures entropy { (self.new.entropy ≡ self.old.entropy) × (other.new.entropy ≡ other.old.entropy) }
    {
        let shared = self.shared;
        shared.lock.meet(&mut self.seat, &mut other.seat);
    }

    /// Gives the seat back, and the random source.
    pub fn leave(self) -> (Seat<Held<T, B>>, E)
        ensures client { self.entry ≡ client_of result.0 result.1 }
        ensures idle { IsIdle self.entry.seat.lock result.0 }
        ensures goes { GoesOn B.is result.0 (E.faults result.1) }
    {
        let Client {
            shared: _,
            rt: _,
            seat,
            entropy,
        } = self;
        (seat, entropy)
    }
}
