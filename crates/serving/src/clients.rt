//! The clients of a node, and what each is told.

ghost use Rattle.std.specs.Prelude.{◌≡◌, ◌≤◌, ◌+◌, ◌++◌, ◌∷◌, [], false, IfOk, OnOk, OnErr};
ghost use Rattle.std.specs.Option.{option_copied};
ghost use Rattle.serving.specs.Taking.{HearsAll, HearsRange};
ghost use Rattle.serving.specs.Groups.{after_one, answer_text, answers_to, AreTold, AreToldSome};
ghost use Rattle.serving.specs.Clients.{is_awaiting, AreUntold};
ghost use Rattle.serving.specs.Happenings.{ComesIn};

use crate::client::Client;
use crate::group::{Item, Origin, Work};
use crate::replies::put_reply;
use crate::stage::Stage;
use crate::terms::Terms;
use protocol::Answer;
use slab::Slab;
use std::alloc::{AllocError, Global};
use std::time::Instant;
use xid::{Floor, Refusal, XaCode};

/// How a start is answered whose name isn't of its time, and a floor above the clock's.
pub const UNTIMELY: &[u8] = b"refused 19\n";

/// The clients of a node.
#[derive(Drop)]
pub struct Clients {
    alloc: Global,
    /// Each, at its key.
    pub seats: Slab<Client>,
    /// How many have ever come in.
    pub count: u64,
    first: usize,
}

/// Puts what a piece of work is answered after what stands in a text.
fn put_answer(
    alloc: Global,
    text: &mut Vec<u8>,
    work: &Work,
    reply: Option<&&Answer>,
    said: Option<&Vec<u8>>,
) -> Result<(), Refusal>
    ensures { OnOk result (text.new.items ≡ text.old.items ++ answer_text work.now (option_copied reply.entry) (option_copied said.entry)) }
{
    match work {
        Work::Take(_) => {}
        Work::Ask(_) => {
            if let Some(reply) = reply {
                put_reply(alloc, text, reply)?;
            }
        }
        Work::Say(_) => {
            if let Some(said) = said {
                text.extend_from_slice(said)?;
            }
        }
        Work::Untimely => text.extend_from_slice(UNTIMELY)?,
        Work::Late => put_reply(alloc, text, &Answer::Code(XaCode::DupId))?,
    }
    Ok(())
}

/// What is left of a list where the first of it was for a piece of work.
pub fn after_one<T>(is_one: bool, list: &[T]) -> &[T]
    ensures { result.now ≡ after_one is_one list.now }
{
    match list {
        [_, rest @ ..] if is_one => rest,
        _ => list,
    }
}

/// A place, or the first one where there is none of that number.
fn within(place: usize, places: usize) -> usize
    ensures { result ≤ places }
{
    if place < places { place } else { 0 }
}

impl Clients {
    /// None.
    pub fn new(alloc: Global) -> Clients
        ensures { result.seats.slots ≡ [] }
    {
        Clients {
            alloc,
            seats: Slab::new(alloc),
            count: 0,
            first: 0,
        }
    }

    /// A client comes in at a key at which nobody is, with the next number, and is told a greeting. Its key. Where memory runs out nobody
    /// comes in.
    pub fn come(&mut self, stage: Stage, greeting: &[u8], now: Instant) -> Result<usize, AllocError>
        requires { is_awaiting stage ≡ false }
        ensures came { IfOk result (λ key. ComesIn key (self.old.count + 1) stage greeting.now now self.old.seats self.new.seats) }
        ensures count { OnOk result (self.new.count ≡ self.old.count + 1) }
    {
        let Some(number) = self.count.checked_add(1) else {
            return Err(AllocError);
        };
        let mut client = Client::new(self.alloc, number, stage, now);
        client.tell(greeting)?;
        let key = self.seats.insert(client)?;
        self.count = number;
        Ok(key)
    }

    /// Whether a line of one of them is waiting to be looked at, and would be.
    pub fn are_waiting(&self) -> bool {
        self.seats.iter().any(|(_, client)| client.is_waiting())
    }

    /// A client is told a text, if it is still there, and nobody else is told anything.
    fn tell(&mut self, origin: Origin, text: &[u8]) -> Result<(), AllocError>
        ensures ok { OnOk result (AreTold self.old.seats self.new.seats (record { origin = origin; text = text.now } ∷ [])) }
        ensures err { OnErr result (AreTold self.old.seats self.new.seats []) }
        ensures count { self.new.count ≡ self.old.count }
    {
        let Origin::Client { key, number } = origin else {
            return Ok(());
        };
        match self.seats.get_mut(key) {
            Some(client) if client.number() == number => client.tell(text),
            _ => Ok(()),
        }
    }

    /// What the client at a key wrote is looked at, if one is there.
    fn take_at(
        &mut self,
        terms: &Terms,
        promised: &mut Option<Floor>,
        key: usize,
        items: &mut Vec<Item>,
        now: Instant,
    ) -> Result<(), Refusal>
        ensures ok { OnOk result (HearsRange terms.now key (key + 1) self.old.seats self.new.seats items.old.items items.new.items) }
        ensures untold { AreUntold self.old.seats self.new.seats }
        ensures count { self.new.count ≡ self.old.count }
    {
        match self.seats.get_mut(key) {
            Some(client) => client.take_lines(terms, promised, key, items, now),
            None => Ok(()),
        }
    }

    /// What the clients at keys from one on and before another wrote is looked at.
    fn take_range(
        &mut self,
        terms: &Terms,
        promised: &mut Option<Floor>,
        from: usize,
        to: usize,
        items: &mut Vec<Item>,
        now: Instant,
    ) -> Result<(), Refusal>
        requires { from ≤ to }
        ensures ok { OnOk result (HearsRange terms.now from to self.old.seats self.new.seats items.old.items items.new.items) }
        ensures untold { AreUntold self.old.seats self.new.seats }
        ensures count { self.new.count ≡ self.old.count }
    {
        for key in from..to {
            self.take_at(terms, promised, key, items, now)?;
        }
        Ok(())
    }

    /// What clients wrote is looked at, of one after the other, and each time from the next one on; their lines come into a group. Nobody
    /// is told anything. The only refusal is `NoMemory`; lines may be lost then, and the process is to end.
    pub fn take_lines(
        &mut self,
        terms: &Terms,
        promised: &mut Option<Floor>,
        items: &mut Vec<Item>,
        now: Instant,
    ) -> Result<(), Refusal>
        ensures ok { OnOk result (HearsAll terms.now self.old.seats self.new.seats items.old.items items.new.items) }
        ensures untold { AreUntold self.old.seats self.new.seats }
        ensures count { self.new.count ≡ self.old.count }
    {
        let places = self.seats.capacity();
        let first = within(self.first, places);
        self.take_range(terms, promised, first, places, items, now)?;
        self.take_range(terms, promised, 0, first, items, now)?;
        self.first = first.saturating_add(1);
        Ok(())
    }

    /// Each client is told what its items of a group are answered, in their order, and no other's: what the node replied to those that it
    /// was handed, and what was said to wishes. The only refusal is `NoMemory`; the first of these answers were told then, and the process
    /// is to end.
    pub fn tell_all(
        &mut self,
        items: &[Item],
        replies: &[&Answer],
        said: &[Vec<u8>],
    ) -> Result<(), Refusal>
        ensures ok { OnOk result (AreTold self.old.seats self.new.seats (answers_to items.now replies.now said.now)) }
        ensures err { OnErr result (AreToldSome self.old.seats self.new.seats (answers_to items.now replies.now said.now)) }
        ensures count { self.new.count ≡ self.old.count }
    {
        let mut text = Vec::new(self.alloc);
        let mut given = replies;
        let mut spoken = said;
        for item in items {
            text.clear();
            put_answer(
                self.alloc,
                &mut text,
                &item.work,
                given.first(),
                spoken.first(),
            )?;
            self.tell(item.origin, &text)?;
            given = after_one(item.work.is_handed(), given);
            spoken = after_one(item.work.is_said(), spoken);
        }
        Ok(())
    }
}
