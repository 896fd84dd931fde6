//! How the lines that a client wrote come into a group.

ghost use Rattle.std.specs.Prelude.{◌≡◌, ◌<◌, ◌++◌, false, true, List, length, IfOk, MatchOption};
ghost use Rattle.serving.specs.declared.group.Item.{Item as ItemParts};
ghost use Rattle.serving.specs.Fronts.{IsLong};
ghost use Rattle.serving.specs.Taking.{holds_up, is_refused, IsWorkFor, IsWorkOf, NoneLeft, TakesFront, TakesOne};

use crate::group::{Item, Origin, Work};
use crate::lines::{Front, front_of};
use crate::terms::{Terms, higher};
use crate::words::{Wish, read_wish};
use protocol::{Action, Request};
use std::alloc::Global;
use xid::{Floor, Refusal};

/// How many inputs a group has at most.
pub const MOST_ITEMS: usize = 256;

/// What became of the front of the bytes that a client wrote.
#[derive(Clone, Copy, Debug)]
pub(crate) enum Taken<'a> {
    /// A line was taken, and this is behind it.
    More(&'a [u8]),
    /// A line was taken, and this is behind it, at which nobody looks before the line is answered.
    Last(&'a [u8]),
    /// No line stands there.
    Nothing,
    /// A line stands there that is too long.
    TooLong,
}

/// What is left of the bytes that a client wrote.
#[derive(Clone, Copy, Debug)]
pub(crate) struct Left<'a> {
    /// The bytes that weren't taken.
    pub(crate) rest: &'a [u8],
    /// Whether a line was.
    pub(crate) has_taken: bool,
    /// Whether they begin with a line that is too long.
    pub(crate) is_too_long: bool,
}

/// Whether no line of a client is looked at before this work of it is answered.
fn holds_up(work: &Work) -> bool
    ensures { result ≡ holds_up work.now }
{
    match work {
        Work::Say(Wish::Unknown | Wish::Elsewhere | Wish::Info) => false,
        Work::Say(_) => true,
        _ => false,
    }
}

/// Whether a request is a start, and what is to be done for it in place of handing it to the node: its name isn't of its time, or stands
/// below the place that was promised.
fn refused_start(terms: &Terms, promised: &Option<Floor>, request: &Request) -> Option<Work>
    ensures { MatchOption result (is_refused terms.now request.now ≡ false) (IsWorkFor terms.now (Wish.Ask request.now)) }
{
    let Request::Call {
        xid,
        action: Action::Start,
    } = request
    else {
        return None;
    };
    if terms.is_untimely(xid) {
        return Some(Work::Untimely);
    }
    if terms.is_late(promised, xid) {
        return Some(Work::Late);
    }
    None
}

/// What is to be done for a wish.
fn work_for(terms: &Terms, promised: &Option<Floor>, wish: Wish) -> Work
    ensures { IsWorkFor terms.now wish result }
{
    match wish {
        Wish::Ask(request) => match refused_start(terms, promised, &request) {
            Some(work) => work,
            None => Work::Ask(request),
        },
        wish => Work::Say(wish),
    }
}

/// What is to be done for a line. Who asks how a node is that speaks for a database is told to where its floor may rise: what comes behind
/// it in the same group is held to that at once.
fn work_of(
    alloc: Global,
    terms: &Terms,
    promised: &mut Option<Floor>,
    line: &[u8],
) -> Result<Work, Refusal>
    ensures { IfOk result (IsWorkOf terms.now line.now) }
{
    let wish = read_wish(alloc, terms.who, line)?;
    let work = work_for(terms, promised, wish);
    if terms.is_beside && matches!(&work, Work::Say(Wish::Info)) {
        *promised = higher(*promised, terms.wanted_floor());
    }
    Ok(work)
}

/// The first line of what a client wrote comes into a group, if one stands there.
fn take_line<'a>(
    alloc: Global,
    terms: &Terms,
    promised: &mut Option<Floor>,
    origin: Origin,
    items: &mut Vec<Item>,
    bytes: &'a [u8],
) -> Result<Taken<'a>, Refusal>
    ensures { IfOk result (TakesOne terms.now origin bytes.now items.old.items items.new.items) }
{
    let (line, rest) = match front_of(bytes) {
        Front::Line(line, rest) => (line, rest),
        Front::Begun => return Ok(Taken::Nothing),
        Front::TooLong => return Ok(Taken::TooLong),
    };
    let work = work_of(alloc, terms, promised, line)?;
    let is_last = holds_up(&work);
    items.push(Item { origin, work })?;
    Ok(if is_last {
        Taken::Last(rest)
    } else {
        Taken::More(rest)
    })
}

/// The lines of a client come into a group, as many as there is room for, and none behind one that holds up the others.
pub(crate) fn take_front<'a>(
    alloc: Global,
    terms: &Terms,
    promised: &mut Option<Floor>,
    origin: Origin,
    items: &mut Vec<Item>,
    bytes: &'a [u8],
) -> Result<Left<'a>, Refusal>
    ensures front { IfOk result (λ left. (taken : List ItemParts) × (items.new.items ≡ items.old.items ++ taken)
        × TakesFront terms.now origin bytes.now left.rest.now taken
        × (length items.new.items < MOST_ITEMS → NoneLeft taken left.rest.now)) }
    ensures long { IfOk result (λ left. left.is_too_long ≡ true → IsLong left.rest.now) }
{
    let mut left = Left {
        rest: bytes,
        has_taken: false,
        is_too_long: false,
    };
    for _ in items.len()..MOST_ITEMS {
        match take_line(alloc, terms, promised, origin, items, left.rest)? {
            Taken::More(rest) => {
                left = Left {
                    rest,
                    has_taken: true,
                    is_too_long: false,
                };
            }
            Taken::Last(rest) => {
                return Ok(Left {
                    rest,
                    has_taken: true,
                    is_too_long: false,
                });
            }
            Taken::Nothing => return Ok(left),
            Taken::TooLong => {
                return Ok(Left {
                    is_too_long: true,
                    ..left
                });
            }
        }
    }
    Ok(left)
}
