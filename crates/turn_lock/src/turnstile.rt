//! The table under a lock, and what is done on it with tokens.
ghost use Rattle.std.specs.Prelude.{◌≡◌, ℕ, ◌+◌, ◌<◌, List, [], ◌∷◌, Some, None, IfOk, IfErr};
ghost use mathlib.Core.Option.{some};
ghost use lib.ListN.{get_elem?};
ghost use Rattle.std.specs.Slots.{slots_items, slots_len, IsFull};
ghost use Rattle.turn_lock.specs.Limits.{turn_limit};
ghost use Rattle.turn_lock.specs.declared.rule.View.{View};
ghost use Rattle.turn_lock.specs.Turns.{StartsWith, longer, turns_by};
ghost use Rattle.turn_lock.specs.Views.{maker, newcomer, witness, joined, saw, with_ticket};
ghost use Rattle.turn_lock.specs.Steps.{IsResting, MayDraw, Waits, Enters, Entered, IsOut, MayGive, Gave, IsAll, IsEnd};

use crate::history::History;
use crate::rule::{Orderly, View};
use crate::steps::{Both, Double, Draw, Event, Give, Learn, Look, Make};
use atomic_table::{Closed, Refused, Seat as Token, Table};
use std::alloc::{AllocFailed, Global};
use std::sync::Wait;
use std::thread;

// The word that counts the tickets that were drawn, and the one that counts the turns that ended.
const TICKETS: usize = 0;

const TURNS: usize = 1;

// The slot with the value.
const VALUE: usize = 0;

/// Two words and a slot.
#[derive(Drop)]
pub(crate) struct Turnstile<V: History> {
    pub(crate) table: Table<Option<V>, View<V::Entry>, u64, Orderly, Global>,
    ghost sized: { (table.shared.table_id.words ≡ 2) × (table.shared.table_id.slots ≡ 1) },
}

// One slot with the value.
fn one_slot<V>(alloc: Global, value: V) -> Result<Vec<Option<V>>, V>
    ensures ok { IfOk result (λ v. v.items ≡ Some value ∷ []) }
    ensures err { IfErr result (λ v. v ≡ value) }
{
    let mut slots = Vec::new(alloc);
    match slots.push(Some(value)) {
        Ok(()) => Ok(slots),
        Err(failed) => {
            let AllocFailed { value } = failed;
            slots.destroy_empty();
            match value {
                Some(value) => Err(value),
                None => unreachable!(),
            }
        }
    }
}

fn only<V>(mut slots: Vec<Option<V>>) -> V
    requires { (v : V) × (slots.items ≡ Some v ∷ []) }
    ensures { slots.items ≡ Some result ∷ [] }
{
    let Some(Some(value)) = slots.pop() else {
        unreachable!()
    };
    slots.destroy_empty();
    value
}

// The value of the one slot.
fn taken_out<V>(mut closed: Closed<Option<V>, Global>) -> V
    requires one { (slots_len closed.slots ≡ 1) × IsFull closed.slots }
    requires home { (v : V) × (get_elem? (slots_items closed.slots) 0 ≡ some (Some v)) }
    ensures { get_elem? (slots_items closed.slots) 0 ≡ some (Some result) }
{
    let slot = closed.take(VALUE);
    closed.free();
    match slot {
        Some(value) => value,
        None => unreachable!(),
    }
}

impl<V: History> Turnstile<V> {
    /// The table, with the token of number 0, which makes the others.
    pub(crate) fn new(
        alloc: Global,
        seats: u64,
        value: V,
    ) -> Result<(Turnstile<V>, Token<Option<V>, View<V::Entry>>), V>
        requires few { (0 < seats) × (seats < turn_limit) }
        requires right { V.stands value [] }
        ensures ok { IfOk result (λ r. (r.0.table.shared.key ≡ seats) × (r.1.table_id ≡ r.0.table.shared.table_id) × (r.1.me ≡ (maker seats 1, []))) }
        ensures err { IfErr result (λ v. v ≡ value) }
    {
        let slots = one_slot(alloc, value)?;
        match Table::new(alloc, &[0, 0], slots, &seats) {
            Ok((table, token)) => Ok((Turnstile { table }, token)),
            Err(Refused { slots }) => Err(only(slots)),
        }
    }

    /// One more token, with the next number.
    pub(crate) fn another(
        &self,
        first: &mut Token<Option<V>, View<V::Entry>>,
    ) -> Token<Option<V>, View<V::Entry>>
        requires own { first.old.table_id ≡ self.now.table.shared.table_id }
        requires some_left { (0 < first.old.me.0.given) × (first.old.me.0.given < self.now.table.shared.key) }
        requires makes { first.old.me ≡ (maker self.now.table.shared.key first.old.me.0.given, []) }
        ensures same { (first.new.table_id ≡ first.old.table_id) × (first.new.id ≡ first.old.id) }
        ensures counted { first.new.me ≡ (maker self.now.table.shared.key (first.old.me.0.given + 1), []) }
        ensures made { (result.table_id ≡ first.old.table_id) × (result.me ≡ (newcomer first.old.me.0, [])) }
    {
        self.table.shared.split_seat::<Make>(first)
    }

    /// Draws a ticket.
    pub(crate) fn draw(&self, token: &mut Token<Option<V>, View<V::Entry>>) -> u64
        requires own { token.old.table_id ≡ self.now.table.shared.table_id }
        requires may { MayDraw token.old.me }
        ensures same { (token.new.table_id ≡ token.old.table_id) × (token.new.id ≡ token.old.id) }
        ensures drawn { token.new.me ≡ (with_ticket result token.old.me.0, token.old.me.1) }
    {
        self.table.shared.fetch_add::<Draw>(token, TICKETS, 1)
    }

    // The slot is taken in the step that finds the ticket's turn.
    fn wait_for<R: Wait>(&self, rt: &R, token: &mut Token<Option<V>, View<V::Entry>>, ticket: u64)
        requires own { token.old.table_id ≡ self.now.table.shared.table_id }
        requires waits { Waits token.old.me ticket }
        ensures same { (token.new.table_id ≡ token.old.table_id) × (token.new.id ≡ token.old.id) }
        ensures enters { Enters V.stands token.old.me token.new.me ticket }
    {
        for _ in rt.forever() {
            if self.table.shared.load::<Look>(token, TURNS) == ticket {
                return;
            }
            thread::yield_now();
        }
        unreachable!()
    }

    /// Waits until the ticket's turn has come, and moves the value out of its slot.
    pub(crate) fn enter<R: Wait>(
        &self,
        rt: &R,
        token: &mut Token<Option<V>, View<V::Entry>>,
        ticket: u64,
    ) -> V
        requires own { token.old.table_id ≡ self.now.table.shared.table_id }
        requires waits { Waits token.old.me ticket }
        ensures same { (token.new.table_id ≡ token.old.table_id) × (token.new.id ≡ token.old.id) }
        ensures entered { Entered V.stands token.old.me token.new.me ticket result }
    {
        self.wait_for(rt, token, ticket);
        match self.table.shared.exchange(token, VALUE, None) {
            Some(value) => value,
            None => unreachable!(),
        }
    }

    /// Moves the value back into its slot, and ends the turn with such an entry as J says.
    pub(crate) fn leave<J: Event<V::Entry>>(
        &self,
        token: &mut Token<Option<V>, View<V::Entry>>,
        value: V,
    )
        requires own { token.old.table_id ≡ self.now.table.shared.table_id }
        requires turn { IsOut token.old.me }
        requires right { MayGive V.stands J.is token.old.me.0 value }
        ensures same { (token.new.table_id ≡ token.old.table_id) × (token.new.id ≡ token.old.id) }
        ensures gave { Gave V.stands J.is token.old.me.0 value token.new.me }
    {
        let none = self.table.shared.exchange(token, VALUE, Some(value));
        let None = none else { unreachable!() };
        self.table.shared.fetch_add::<Give<J>>(token, TURNS, 1);
    }

    /// The first has then seen as much as the second.
    pub(crate) fn tell(
        &self,
        to: &mut Token<Option<V>, View<V::Entry>>,
        from: &mut Token<Option<V>, View<V::Entry>>,
    )
        requires own { (to.old.table_id ≡ self.now.table.shared.table_id) × (from.old.table_id ≡ self.now.table.shared.table_id) }
        requires rests { IsResting to.old.me }
        ensures same { (to.new.table_id ≡ to.old.table_id) × (to.new.id ≡ to.old.id) }
        ensures other { (from.new.table_id ≡ from.old.table_id) × (from.new.id ≡ from.old.id) × (from.new.me ≡ from.old.me) }
        ensures told { to.new.me ≡ (saw to.old.me.0 (longer to.old.me.0.seen from.old.me.0.seen), []) }
        ensures own { (n : ℕ) → to.old.me.0.number ≡ Some n → turns_by n (longer to.old.me.0.seen from.old.me.0.seen) ≡ to.old.me.0.mine }
        ensures begins { StartsWith (longer to.old.me.0.seen from.old.me.0.seen) to.old.me.0.seen × StartsWith (longer to.old.me.0.seen from.old.me.0.seen) from.old.me.0.seen }
    {
        let copy = self.copy_of(from);
        self.join(to, copy);
        self.table.shared.load::<Learn>(to, TURNS);
    }

    /// A token that knows no more than this one, and can do nothing.
    pub(crate) fn copy_of(
        &self,
        token: &mut Token<Option<V>, View<V::Entry>>,
    ) -> Token<Option<V>, View<V::Entry>>
        requires own { token.old.table_id ≡ self.now.table.shared.table_id }
        ensures same { (token.new.table_id ≡ token.old.table_id) × (token.new.id ≡ token.old.id) × (token.new.me ≡ token.old.me) }
        ensures copy { (result.table_id ≡ token.old.table_id) × (result.me ≡ (witness token.old.me.0, [])) }
    {
        self.table.shared.split_seat::<Double>(token)
    }

    /// The first takes in what the second knows.
    pub(crate) fn join(
        &self,
        all: &mut Token<Option<V>, View<V::Entry>>,
        token: Token<Option<V>, View<V::Entry>>,
    )
        requires own { (all.old.table_id ≡ self.now.table.shared.table_id) × (token.table_id ≡ self.now.table.shared.table_id) }
        requires rests { IsResting all.old.me × IsResting token.me }
        requires makes_none { all.old.me.0.number ≡ Some 0 → token.me.0.parts ≡ 0 }
        ensures same { (all.new.table_id ≡ all.old.table_id) × (all.new.id ≡ all.old.id) }
        ensures joined { all.new.me ≡ (joined all.old.me.0 token.me.0, []) }
        ensures rests { IsResting all.new.me }
    {
        self.table.shared.join_seat::<Both>(all, token);
    }

    /// The value, if this token knows all that the tokens with some views knew.
    pub(crate) fn into_value(self, all: Token<Option<V>, View<V::Entry>>) -> V
        requires own { all.table_id ≡ self.table.shared.table_id }
        requires all { (ws : List (View V.Entry)) × IsAll self.table.shared.key all.me.0 ws }
        ensures { (ws : List (View V.Entry)) → IsAll self.table.shared.key all.me.0 ws → IsEnd V.stands result ws }
    {
        let Turnstile { table } = self;
        taken_out(table.close_with(all))
    }
}
