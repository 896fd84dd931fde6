//! A client, without the stream at which it is: bytes come in, lines are taken, and answers go out.

ghost use Rattle.std.specs.Prelude.{◌≡◌, ◌⊎◌, ◌≤◌, ◌<◌, ◌++◌, ◌&&◌, ◌||◌, ◌==◌, List, [], length, drop, not, nat_le, true, false};
ghost use Rattle.std.specs.Prelude.{OnOk, OnErr};
ghost use Rattle.xid.specs.Text.{lacks};
ghost use Rattle.serving.specs.Clients.{after_standing, begun_by, is_begun, is_last_word, once_asked, IsOver, IsSlow, IsWaiting};
ghost use Rattle.serving.specs.Clients.{WaitsForNone};
ghost use Rattle.serving.specs.Groups.{reply_line};
ghost use Rattle.serving.specs.Clients.{fresh_client, is_awaiting, is_proving, may_ask, told_so_far, with_told};
ghost use Rattle.serving.specs.Taking.{HearsClient, NoneLeft, NoneWaits, TakesLines, TakesProof};
ghost use Rattle.serving.specs.declared.group.Item.{Item as ItemParts};

use crate::group::{Item, Origin};
use crate::lines::{Front, MAX_LINE, MOST_BEGUN, MOST_OUTPUT, front_of};
use crate::proving::is_proof;
use crate::queue::is_by;
use crate::replies::put_reply;
use crate::stage::Stage;
use crate::taking::{MOST_ITEMS, take_front};
use crate::terms::Terms;
use protocol::{Answer, Request, Standing};
use std::alloc::{AllocError, Global};
use std::marker::Model;
use std::mem;
use std::time::Instant;
use xid::{Floor, Refusal};

/// A client, without the stream at which it is.
#[derive(Drop)]
pub struct Client {
    alloc: Global,
    number: u64,
    stage: Stage,
    is_broken: bool,
    input: Vec<u8>,
    output: Vec<u8>,
    begun: Option<Instant>,
    has_ended: bool,
}

impl Model for Client {
    ghost use Rattle.serving.specs.Clients.{ClientParts};

    ghost Value = { ClientParts };

    ghost view = { λ c. record {
      number = c.number;
      stage = c.stage;
      is_broken = c.is_broken;
      input = c.input.items;
      output = c.output.items;
      begun = c.begun;
      has_ended = c.has_ended;
    } };
}

impl Client {
    /// One that has said nothing.
    pub fn new(alloc: Global, number: u64, stage: Stage, now: Instant) -> Client
        ensures { result ≡ fresh_client number stage now }
    {
        let begun = if is_proving(&stage) { Some(now) } else { None };
        Client {
            alloc,
            number,
            stage,
            is_broken: false,
            input: Vec::new(alloc),
            output: Vec::new(alloc),
            begun,
            has_ended: false,
        }
    }

    /// Its number, which no other client ever has.
    pub fn number(&self) -> u64
        ensures { result ≡ self.now.number }
    {
        self.number
    }

    /// What its next lines are.
    pub fn stage(&self) -> &Stage
        ensures { result.now ≡ self.now.stage }
    {
        &self.stage
    }

    /// Whether there is room for more of what it writes.
    pub fn has_room(&self) -> bool
        ensures { result ≡ nat_le (length self.now.input) MAX_LINE }
    {
        self.input.len() <= MAX_LINE
    }

    /// Bytes of it came. Where memory runs out nothing changes.
    pub fn hear(&mut self, bytes: &[u8]) -> Result<(), AllocError>
        ensures ok { OnOk result (self.new ≡ record self.old { input = self.old.input ++ bytes.now }) }
        ensures err { OnErr result (self.new ≡ self.old) }
    {
        self.input.extend_from_slice(bytes)
    }

    /// No more bytes of it come.
    pub fn end(&mut self)
        ensures { self.new ≡ record self.old { has_ended = true } }
    {
        self.has_ended = true;
    }

    /// It is to be let go.
    pub fn break_off(&mut self)
        ensures { self.new ≡ record self.old { is_broken = true } }
    {
        self.is_broken = true;
    }

    /// Whether it is to be let go.
    pub fn is_broken(&self) -> bool
        ensures { result ≡ self.now.is_broken }
    {
        self.is_broken
    }

    /// Whether a line of it would be looked at now.
    pub fn may_ask(&self) -> bool
        ensures { result ≡ may_ask self.now }
    {
        !self.is_broken && self.output.len() < MOST_OUTPUT && !is_awaiting(&self.stage)
    }

    /// Whether a line of it is waiting to be looked at, and would be.
    pub fn is_waiting(&self) -> bool
        ensures some { result ≡ true → IsWaiting self.now }
        ensures none { result ≡ false → WaitsForNone self.now }
    {
        self.may_ask() && matches!(front_of(&self.input), Front::Line(..))
    }

    /// Whether a line of it is begun for too long, or its proof is due.
    pub fn is_slow(&self, now: Instant) -> bool
        ensures { result ≡ true → IsSlow now self.now }
    {
        match self.begun {
            Some(begun) if now.saturating_duration_since(begun).as_secs() >= MOST_BEGUN => {
                is_proving(&self.stage) || is_begun(&self.input)
            }
            _ => false,
        }
    }

    /// Whether it has gone, and nothing more is to be done for it.
    pub fn is_over(&self) -> bool
        ensures broken { self.now.is_broken ≡ true → result ≡ true }
        ensures over { result ≡ true → IsOver self.now }
    {
        self.is_broken || (self.has_ended && self.output.is_empty() && !self.is_waiting())
    }

    /// It is told an answer, behind all that it was told before. The only refusal is `NoMemory`; a part of the answer may stand there then.
    pub fn answer(&mut self, answer: &Answer) -> Result<(), Refusal>
        ensures { OnOk result (self.new ≡ with_told (reply_line answer.now) self.old) }
    {
        put_reply(self.alloc, &mut self.output, answer)
    }

    /// Its lines wait for the end of a transaction, by a request that is asked again and again.
    pub fn begin_await(&mut self, request: Request, until: Instant)
        ensures { self.new ≡ record self.old { stage = Stage.Awaiting request until false } }
    {
        self.stage = Stage::Awaiting {
            request,
            until,
            is_asked: false,
        };
    }

    /// What it waits for was asked, and is so now: it is told that where it is the last word, or where it has waited long enough, and waits
    /// no more.
    pub fn hear_standing(&mut self, answer: &Answer, now: Instant) -> Result<(), Refusal>
        ensures { OnOk result (self.new ≡ after_standing answer.now now self.old) }
    {
        let Stage::Awaiting { until, .. } = &self.stage else {
            return Ok(());
        };
        if is_last_word(answer) || is_by(*until, now) {
            self.stage = Stage::Open;
            return self.answer(answer);
        }
        self.note_asked();
        Ok(())
    }

    /// What it waits for was asked.
    fn note_asked(&mut self)
        ensures { self.new ≡ record self.old { stage = once_asked self.old.stage } }
    {
        if let Stage::Awaiting { is_asked, .. } = &mut self.stage {
            *is_asked = true;
        }
    }

    /// It is told a text, behind all that it was told before. Where memory runs out nothing changes.
    pub fn tell(&mut self, text: &[u8]) -> Result<(), AllocError>
        ensures ok { OnOk result (self.new ≡ with_told text.now self.old) }
        ensures err { OnErr result (self.new ≡ self.old) }
    {
        self.output.extend_from_slice(text)
    }

    /// What it wrote and wasn't taken, which is taken out.
    fn take_input(&mut self) -> Vec<u8>
        ensures input { result.items ≡ self.old.input }
        ensures rest { self.new ≡ record self.old { input = [] } }
    {
        mem::replace(&mut self.input, Vec::new(self.alloc))
    }

    /// Puts back what wasn't taken. Where it begins a line, the time for that runs from now, unless it was there before.
    fn put_back(&mut self, rest: &[u8], has_taken: bool, now: Instant) -> Result<(), AllocError>
        ensures ok { OnOk result (self.new ≡ record self.old { input = rest.now; begun = begun_by has_taken rest.now now self.old.begun }) }
        ensures untold { told_so_far self.new ≡ told_so_far self.old }
    {
        self.input = Vec::from_slice(self.alloc, rest)?;
        self.begun = if !is_begun(rest) {
            None
        } else if has_taken {
            Some(now)
        } else {
            Some(self.begun.unwrap_or(now))
        };
        Ok(())
    }

    /// Takes its proof, where that is due and came.
    fn take_proof(&mut self, terms: &Terms) -> Result<(), AllocError>
        ensures ok { OnOk result (TakesProof terms.now self.old self.new) }
        ensures due { OnOk result (is_proving self.new.stage ≡ true
            → (self.new.is_broken ≡ true) ⊎ (lacks 10 self.new.input ≡ true)) }
        ensures untold { told_so_far self.new ≡ told_so_far self.old }
    {
        let Stage::Proving(challenge) = &self.stage else {
            return Ok(());
        };
        let (is_proved, rest) = match front_of(&self.input) {
            Front::Line(line, rest) => (
                is_proof(&terms.lock, challenge, line),
                Vec::from_slice(self.alloc, rest)?,
            ),
            Front::Begun => return Ok(()),
            Front::TooLong => {
                self.is_broken = true;
                return Ok(());
            }
        };
        self.input = rest;
        if is_proved {
            self.stage = Stage::Open;
            self.begun = None;
        } else {
            self.is_broken = true;
        }
        Ok(())
    }

    /// Its lines come into a group, where they are to be looked at now: as many as there is room for, and none behind one that holds up the
    /// others. One that is too long breaks it.
    fn take_commands(
        &mut self,
        terms: &Terms,
        promised: &mut Option<Floor>,
        key: usize,
        items: &mut Vec<Item>,
        now: Instant,
    ) -> Result<(), Refusal>
        ensures ok { OnOk result ((taken : List ItemParts) × (items.new.items ≡ items.old.items ++ taken)
            × TakesLines terms.now key self.old self.new taken × (length items.new.items < MOST_ITEMS → NoneLeft taken self.new.input)) }
        ensures untold { told_so_far self.new ≡ told_so_far self.old }
    {
        let origin = Origin::Client {
            key,
            number: self.number,
        };
        let input = self.take_input();
        let left = take_front(self.alloc, terms, promised, origin, items, &input)?;
        self.put_back(left.rest, left.has_taken, now)?;
        if left.is_too_long {
            self.is_broken = true;
        }
        Ok(())
    }

    /// What it wrote is looked at, where it may ask: first its proof, where that is due, and then its lines, which come into a group. It is
    /// told nothing. The only refusal is `NoMemory`; lines may be lost then.
    pub(crate) fn take_lines(
        &mut self,
        terms: &Terms,
        promised: &mut Option<Floor>,
        key: usize,
        items: &mut Vec<Item>,
        now: Instant,
    ) -> Result<(), Refusal>
        ensures ok { OnOk result ((taken : List ItemParts) × (items.new.items ≡ items.old.items ++ taken)
            × HearsClient terms.now key self.old self.new taken × (length items.new.items < MOST_ITEMS → NoneWaits self.new taken)) }
        ensures untold { told_so_far self.new ≡ told_so_far self.old }
    {
        if self.input.is_empty() || !self.may_ask() {
            return Ok(());
        }
        self.take_proof(terms)?;
        if is_proving(&self.stage) || self.is_broken {
            return Ok(());
        }
        self.take_commands(terms, promised, key, items, now)
    }

    /// The bytes that it is to be sent.
    pub fn output(&self) -> &[u8]
        ensures { result.now ≡ self.now.output }
    {
        &self.output
    }

    /// So many of these bytes were sent. Where memory runs out nothing changes.
    pub fn sent(&mut self, count: usize) -> Result<(), AllocError>
        requires { count ≤ length self.old.output }
        ensures ok { OnOk result (self.new ≡ record self.old { output = drop count self.old.output }) }
        ensures err { OnErr result (self.new ≡ self.old) }
    {
        if count == self.output.len() {
            self.output.clear();
        } else {
            self.output = Vec::from_slice(self.alloc, &self.output[count..])?;
        }
        Ok(())
    }
}

/// Whether an answer to an await is the last word: else the transaction isn't final there.
fn is_last_word(answer: &Answer) -> bool
    ensures { result ≡ is_last_word answer.now }
{
    !matches!(
        answer,
        Answer::Stands(
            Standing::Unknown | Standing::Undecided | Standing::Working | Standing::Prepared
        )
    )
}

/// Whether a line is begun by these bytes, and not ended.
fn is_begun(bytes: &[u8]) -> bool
    ensures { result ≡ is_begun bytes.now }
{
    !bytes.is_empty() && matches!(front_of(bytes), Front::Begun)
}

/// Whether a client's next line is to be its proof.
fn is_proving(stage: &Stage) -> bool
    ensures { result ≡ is_proving stage.now }
{
    matches!(stage, Stage::Proving(_))
}

/// Whether a client waits for the end of a transaction.
fn is_awaiting(stage: &Stage) -> bool
    ensures { result ≡ is_awaiting stage.now }
{
    matches!(stage, Stage::Awaiting { .. })
}
