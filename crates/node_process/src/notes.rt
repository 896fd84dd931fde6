//! What is known of transactions and branches, and how it comes of a group.

ghost use Rattle.std.specs.Prelude.{◌≡◌, Some, OnOk};
ghost use Rattle.std.specs.Option.{option_copied};
ghost use Rattle.serving.specs.Groups.{is_handed};
ghost use Rattle.serving.specs.declared.group.Work.TheVariants as works;
ghost use Rattle.node_process.specs.Noting.{Forgets, NotesAll, NotesCall, NotesInput, NotesOne, number_of};

use hashing::{HashKey, WordKey};
use indexmap::IndexMap;
use node_core::Output;
use protocol::{Action, Answer, Change, NodeId, Request, Standing, View};
use serving::{Branches, Item, Origin, Schedule, Watches, Work, after_one, time_of};
use std::alloc::{AllocError, Global};
use std::time::Instant;
use wire::{MAX_DATAGRAM, MAX_TX_BYTES, Rest, SpelledTx, view_of};
use xid::{Refusal, XaCode, Xid};

/// From which turn on a leader asks after a transaction that it was asked about: that somebody waits for it is known.
const ASKED: usize = 2;

/// What is known of transactions and branches.
#[derive(Drop)]
pub struct Notes {
    /// Whose notes they are.
    pub who: NodeId,
    /// The transactions that are asked after.
    pub watches: Watches,
    /// The branches that clients have started.
    pub branches: Branches,
    /// The transactions whose outcome came to be known here in this round, by the bytes that spell them.
    pub ended: IndexMap<Vec<u8>, (), WordKey>,
    /// Whether a client is there, which may wait for an outcome.
    pub has_clients: bool,
    /// The latest time of a name that was begun here, 0 for none.
    pub latest: u64,
    alloc: Global,
}

/// The number of who is answered, 0 for nobody.
fn number_of(origin: Origin) -> u64
    ensures { result ≡ number_of origin }
{
    match origin {
        Origin::Client { number, .. } => number,
        Origin::Node => 0,
    }
}

impl Notes {
    /// Nothing is known.
    pub fn new(
        alloc: Global,
        hash_key: HashKey,
        who: NodeId,
        schedule: Schedule,
        now: Instant,
    ) -> Result<Notes, AllocError> {
        Ok(Notes {
            who,
            watches: Watches::with_hash_key(alloc, hash_key, schedule)?,
            branches: Branches::with_hash_key(alloc, hash_key, now),
            ended: IndexMap::with_hasher(alloc, hash_key.words()),
            has_clients: false,
            latest: 0,
            alloc,
        })
    }

    /// A transaction's outcome came to be known, for which a client may wait.
    fn note_ended(&mut self, tx: &SpelledTx<'_>) -> Result<(), Refusal>
        ensures { OnOk result (self.new.branches ≡ self.old.branches) }
    {
        if self.has_clients {
            let bytes = Vec::from_slice(self.alloc, tx.as_bytes())?;
            let _ = self.ended.insert(bytes, ())?;
        }
        Ok(())
    }

    /// A branch is prepared, or is no more.
    fn forget(&mut self, change: &Change)
        ensures { Forgets (Some change.now) self.old.branches self.new.branches }
    {
        if let Some(xid) = change.tx.branch(u16::from(change.rm)) {
            self.branches.forget(&xid);
        }
    }

    /// A view has changed at this resource manager.
    fn note_change(&mut self, change: &Change, now: Instant) -> Result<(), Refusal>
        ensures { OnOk result (Forgets (Some change.now) self.old.branches self.new.branches) }
    {
        match change.view {
            View::Prepared => self.watches.add(&change.tx, 0, now)?,
            View::Working => {}
            View::Committed | View::Aborted => {
                self.watches.settle(&change.tx);
                let mut buffer = [0; MAX_TX_BYTES];
                self.note_ended(&SpelledTx::of(&change.tx, &mut buffer))?;
            }
        }
        self.forget(change);
        Ok(())
    }

    /// A leader that was asked about a transaction asks after it.
    fn note_question(&mut self, bytes: &[u8], now: Instant) -> Result<(), Refusal>
        ensures { OnOk result (self.new.branches ≡ self.old.branches) }
    {
        let NodeId::L(_) = self.who else {
            return Ok(());
        };
        if let Ok(message) = view_of(bytes) {
            if let Rest::Ask { .. } = message.rest() {
                self.watches.add(&message.tx().to_tx(), ASKED, now)?;
            }
        }
        Ok(())
    }

    /// A leader that tells an outcome knows it.
    fn note_outcome(&mut self, out: &Output) -> Result<(), Refusal>
        ensures { OnOk result (self.new.branches ≡ self.old.branches) }
    {
        let NodeId::L(_) = self.who else {
            return Ok(());
        };
        if out.sends.count() == 0 || !self.has_clients {
            return Ok(());
        }
        let mut buffer = [0; MAX_DATAGRAM];
        let (_, len) = out.sends.spell(0, &mut buffer);
        if let Ok(message) = view_of(&buffer[..len]) {
            if let Rest::Commit | Rest::Abort = message.rest() {
                self.note_ended(message.tx())?;
            }
        }
        Ok(())
    }

    /// A leader asks after a transaction from a turn on, where its answer doesn't say that it is final.
    fn watch(
        &mut self,
        tx: &SpelledTx<'_>,
        turn: usize,
        answer: &Answer,
        now: Instant,
    ) -> Result<(), Refusal>
        ensures { OnOk result (self.new.branches ≡ self.old.branches) }
    {
        match answer {
            Answer::Stands(Standing::Undecided) => self.watches.add(&tx.to_tx(), turn, now)?,
            Answer::Stands(Standing::Committed | Standing::Aborted) => {
                self.watches.settle(&tx.to_tx());
            }
            _ => {}
        }
        Ok(())
    }

    /// A branch was begun: the latest time of a name is known.
    fn note_time(&mut self, xid: &Xid, action: &Action, answer: &Answer)
        ensures { self.new.branches ≡ self.old.branches }
    {
        if let (Action::Start, Answer::Code(XaCode::Ok)) = (action, answer) {
            if let Some(time) = time_of(xid.gtrid()) {
                self.latest = self.latest.max(time);
            }
        }
    }

    /// A request was answered.
    fn note_request(
        &mut self,
        origin: Origin,
        request: &Request,
        answer: &Answer,
        now: Instant,
    ) -> Result<(), Refusal>
        ensures { OnOk result (NotesCall origin (works.Ask request.now) answer.now now self.old.branches self.new.branches) }
    {
        match request {
            Request::Call { xid, action } => {
                self.branches
                    .note(number_of(origin), xid, action, answer, now)?;
                self.note_time(xid, action, answer);
            }
            Request::Commit { tx } => self.watch(&tx.get(), 0, answer, now)?,
            Request::Timeout { tx } => {
                if let NodeId::L(_) = self.who {
                    self.watch(&tx.get(), ASKED, answer, now)?;
                }
            }
            _ => {}
        }
        Ok(())
    }

    /// What came of a piece of work is noted, beside the view that changed. Refused: memory ran out, or the record failed as a floor was to
    /// rise.
    fn note_work(&mut self, item: &Item, reply: &Answer, now: Instant) -> Result<(), Refusal>
        ensures { OnOk result (NotesCall item.now.origin item.now.work reply.now now self.old.branches self.new.branches) }
    {
        match &item.work {
            Work::Take(bytes) => {
                if let Answer::Refused(Refusal::RecordFault) = reply {
                    // its floor was to rise
                    return Err(Refusal::RecordFault);
                }
                self.note_question(bytes.as_slice(), now)
            }
            Work::Ask(request) => self.note_request(item.origin, request, reply, now),
            Work::Say(_) | Work::Untimely | Work::Late => Ok(()),
        }
    }

    /// The view that an input changed is noted, if it changed one.
    fn note_now(&mut self, changed: &Option<Change>, now: Instant) -> Result<(), Refusal>
        ensures { OnOk result (Forgets changed.now self.old.branches self.new.branches) }
    {
        match changed {
            Some(change) => self.note_change(change, now),
            None => Ok(()),
        }
    }

    /// What came of an input is noted. Refused: memory ran out, or the record failed as a floor was to rise.
    fn note_input(&mut self, item: &Item, out: &Output, now: Instant) -> Result<(), Refusal>
        ensures { OnOk result (NotesInput now item.now out.entry.now self.old.branches self.new.branches) }
    {
        self.note_now(&out.now, now)?;
        self.note_outcome(out)?;
        self.note_work(item, &out.reply, now)
    }

    /// What came of an item is noted, if the node was handed it.
    fn note_one(&mut self, item: &Item, out: Option<&Output>, now: Instant) -> Result<(), Refusal>
        ensures { OnOk result (NotesOne (is_handed item.now.work) now item.now (option_copied out.entry) self.old.branches
            self.new.branches) }
    {
        match out {
            Some(out) if item.work.is_handed() => self.note_input(item, out, now),
            _ => Ok(()),
        }
    }

    /// What came of the items of a group is noted, in order. Refused: memory ran out, or the record failed as a floor was to rise; the
    /// process is to end then.
    pub(crate) fn note_all(
        &mut self,
        items: &[Item],
        outs: &[Output],
        now: Instant,
    ) -> Result<(), Refusal>
        ensures { OnOk result (NotesAll now items.now outs.now self.old.branches self.new.branches) }
    {
        let mut left = outs;
        for item in items {
            self.note_one(item, left.first(), now)?;
            left = after_one(item.work.is_handed(), left);
        }
        Ok(())
    }
}
