//! A trace's text, read a line at a time or whole.

ghost use Rattle.std.specs.Prelude.{◌≡◌, [], Option, None, IfOk, IfErr, MatchResult, ℕ, List};
ghost use Rattle.std.specs.Option.{ForSome, option_copied};
ghost use Rattle.net_script.specs.Basics.{NoMemory, Trace};
ghost use Rattle.net_script.specs.declared.trace_lines.TraceLine.{TraceLine};
ghost use Rattle.net_script.specs.declared.values.Trace.{Trace};
ghost use Rattle.net_script.specs.Items.{is_in_limits};
ghost use Rattle.net_script.specs.TraceReading.{RefusesTrace, IsTrace, IsTraceFault, SpellsTrace};
ghost use Rattle.net_script.specs.Telling.{IsHeard, IsWhole};
ghost use Rattle.net_script.specs.TraceReaders.{HasRead, IsRead, GivesHeard};
ghost use Rattle.net_script.specs.Traces.{trace_text};

use crate::known::KnownTx;
use crate::said::{Heard, hear_line};
use crate::so_far::{SoFar, follow};
use crate::stop::at_line;
use crate::trace_drafts::with_line;
use crate::trace_lines::TraceLine;
use crate::values::{Sizes, Trace};
use crate::words::split_once;
use protocol::Boxed;
use std::alloc::Global;
use std::marker::Model;
use xid::{MAX_LEADERS, MAX_MANAGERS, Refusal, Tx};

/// A reader of a trace's text, which gives one line after another and keeps none of them.
#[derive(Drop)]
pub struct TraceReader<'a> {
    bytes: &'a [u8],
    rest: &'a [u8],
    number: usize,
    known: Option<KnownTx>,
    so_far: Option<SoFar>,
}

impl<'a> Model for TraceReader<'a> {
    ghost use Rattle.std.specs.Prelude.{◌+◌, ◌≤◌, length};
    ghost use Rattle.net_script.specs.TraceReaders.{ReaderParts};

    ghost Value = { ReaderParts };

    ghost view = { λ r. record { bytes = r.bytes.now; rest = r.rest.now; number = r.number; known = r.known; so_far = r.so_far } };

    ghost invariant = { λ r. r.number + length r.rest.now ≤ length r.bytes.now };
}

/// Whether there may be so many nodes.
fn is_in_limits(sizes: Sizes) -> bool
    ensures { result ≡ is_in_limits sizes }
{
    matches!(sizes.acceptors, 1 | 3 | 5 | 7)
        && (1..=u32::from(MAX_LEADERS)).contains(&sizes.leaders)
        && (1..=u32::from(MAX_MANAGERS)).contains(&sizes.rms)
}

impl<'a> TraceReader<'a> {
    /// A reader of these bytes, none of which it has read.
    pub fn new(bytes: &'a [u8]) -> TraceReader<'a>
        ensures bytes { result.bytes ≡ bytes.now }
        ensures none { HasRead result None }
    {
        TraceReader {
            bytes,
            rest: bytes,
            number: 0,
            known: None,
            so_far: None,
        }
    }

    /// What is heard of the next line, or none where all bytes are read, and are the text of the trace that the lines so far tell. Refused
    /// at the same places as `read_trace`, and by the same refusals; what is given after a refusal means nothing.
    pub fn hear(&mut self, alloc: Global) -> Result<Option<Heard>, Refusal>
        ensures next { (trace : Option Trace) → HasRead self.old trace → GivesHeard self.old self.new trace result }
        ensures whole { IfOk result (λ heard. ForSome heard (IsWhole self.new.known)) }
    {
        if self.rest.is_empty() {
            self.end()?;
            return Ok(None);
        }
        let line = self.number + 1;
        let Some((text, after)) = split_once(self.rest, b'\n') else {
            return Err(Refusal::BadScript { line });
        };
        let heard = at_line(line, hear_line(alloc, &mut self.known, text))?;
        at_line(line, follow(alloc, &mut self.so_far, &heard))?;
        self.rest = after;
        self.number = line;
        Ok(Some(heard))
    }

    /// The transaction that was read last, if one was: that of a datagram which was heard last.
    pub fn tx(&self) -> Option<&Tx>
        ensures { option_copied result ≡ self.now.known }
    {
        match &self.known {
            Some(known) => Some(known.tx()),
            None => None,
        }
    }

    /// What was heard, a datagram with its transaction. Refused: `NoMemory` alone.
    pub(crate) fn line_of(&self, alloc: Global, heard: Heard) -> Result<TraceLine, Refusal>
        requires { IsWhole self.now.known heard }
        ensures ok { IfOk result (λ line. (said : TraceLine) → IsHeard self.now.known heard said → said ≡ line) }
        ensures err { IfErr result (λ e. e ≡ NoMemory) }
    {
        match heard {
            Heard::Line(said) => Ok(said),
            Heard::Datagram(told) => {
                let Some(known) = &self.known else {
                    unreachable!();
                };
                let sent = Boxed::new(alloc, told.with_tx(known.tx()))?;
                Ok(TraceLine::Datagram(sent))
            }
        }
    }

    /// Whether nothing is missing where all bytes are read.
    fn end(&self) -> Result<(), Refusal>
        requires { self.now.rest ≡ [] }
        ensures { (trace : Option Trace) → HasRead self.now trace
            → MatchResult result (λ _. IsRead self.now.bytes trace) (λ e. RefusesTrace self.now.bytes e) }
    {
        let line = self.number + 1;
        let Some(so_far) = &self.so_far else {
            return Err(Refusal::BadScript { line });
        };
        if so_far.finals < so_far.sizes.rms as usize {
            return Err(Refusal::BadScript { line });
        }
        if !is_in_limits(so_far.sizes) {
            return Err(Refusal::BadConfig);
        }
        Ok(())
    }
}

/// The trace of which this is the text, as `write_trace` writes it. Refused: `BadScript` with the first line at fault, counted from 1
/// (a last line without its end is at fault; where all lines are right, but some are missing, it is the one after the last; last rows of
/// a resource manager whose number is above 255 are at fault, since no word names it);
/// `BadConfig` for the text of a trace with sizes outside the limits (1, 3, 5 or 7 acceptors, 1 to 4 leaders, 1 to 64 resource
/// managers); and `NoMemory`.
pub fn read_trace(alloc: Global, bytes: &[u8]) -> Result<Trace, Refusal>
    ensures ok { IfOk result (λ t. SpellsTrace bytes.now t) }
    ensures err { IfErr result (λ e. RefusesTrace bytes.now e) }
{
    let mut reader = TraceReader::new(bytes);
    let mut trace = None;
    while let Some(heard) = reader.hear(alloc)? {
        let said = reader.line_of(alloc, heard)?;
        trace = Some(with_line(alloc, trace, said)?);
    }
    let Some(trace) = trace else { unreachable!() };
    Ok(trace)
}

/// A text is that of at most one trace; one with a first line at fault is that of none, and has one such line.
pub fn one_trace()
    ensures one { (t u : Trace) → IsTrace t → IsTrace u → trace_text t ≡ trace_text u → t ≡ u }
    ensures apart { (t : Trace) (line : ℕ) → IsTrace t → IsTraceFault (trace_text t) line → ⊥ }
    ensures first { (bytes : List ℕ) (line other : ℕ) → IsTraceFault bytes line → IsTraceFault bytes other → line ≡ other }
{}
