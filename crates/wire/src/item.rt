//! Items of bundles: how each stands in bytes, and which may stand in a message.

ghost use Rattle.std.specs.Prelude.{◌≡◌, ◌↔◌, ℕ, ◌+◌, ◌≤◌, ◌++◌, IsTrue, Bool, true, List, Option, length, take, drop};
ghost use Rattle.wire.specs.Versions.{version_2};
ghost use Rattle.wire.specs.Grammar.{report_item_spelling, accept_item_spelling};
ghost use Rattle.wire.specs.Reading.{taken, report_item_at, accept_item_at};
ghost use Rattle.wire.specs.Decoding.{is_report};
ghost use Rattle.wire.specs.Messages.{IsBallot, IsReportBelow};

use crate::grammar::{ITEM_BYTES, VersionNumber};
use crate::items::{InstanceAccept, InstanceReport};
use crate::message::is_report_below;
use crate::reading::{take_instance, take_report, take_rm, take_vote};
use crate::writing::{byte_of_vote, put_byte, put_number, put_report, put_rm};
use xid::{Ballot, ManagerNumber};

/// An item of a bundle: it is of one instance.
pub(crate) trait Item: Copy {
    /// The item at the front of bytes, and the bytes after it.
    ghost at: { List ℕ → Option (Self × List ℕ) };

    /// Its one spelling.
    ghost spell: { Self → List ℕ };

    /// Its instance.
    ghost about: { Self → ℕ };

    /// Whether what it reports is below a ballot, as a test and as a fact.
    ghost is_below: { ℕ → Self → Bool };

    ghost fits: { ℕ → Self → Type 0 };

    /// Takes an item from the front.
    fn take(bytes: &[u8]) -> Option<(Self, &[u8])>
        ensures { taken result ≡ at bytes.now };

    /// Puts its spelling at a place, and answers the place after it.
    fn put(&self, out: &mut [u8], start: usize) -> usize
        requires { start + ITEM_BYTES ≤ length out.old }
        ensures end { result ≡ start + ITEM_BYTES }
        ensures shown { take result out.new ≡ take start out.old ++ spell self.now }
        ensures rest { (n : ℕ) → result ≤ n → drop n out.new ≡ drop n out.old };

    /// The instance that it is of.
    fn instance(self) -> ManagerNumber
        ensures { result ≡ about self };

    /// Whether what it reports, if anything, is below a ballot.
    fn is_below(self, ballot: Ballot) -> bool
        ensures test { result ≡ is_below ballot self }
        ensures fact { IsTrue result ↔ fits ballot self };
}

impl Item for InstanceReport {
    ghost at = { report_item_at };

    ghost spell = { report_item_spelling version_2 };

    ghost about = { λ item. item.instance };

    ghost is_below = { λ ballot item. is_report ballot item.report };

    ghost fits = { λ ballot item. IsReportBelow ballot item.report };

    #[tactic(auto, unfolding(crate::specs::Reading::report_item_at))]
    fn take(bytes: &[u8]) -> Option<(InstanceReport, &[u8])> {
        let (instance, rest) = take_rm(VersionNumber::Second, bytes)?;
        let (report, rest) = take_report(rest)?;
        Some((InstanceReport { instance, report }, rest))
    }

    fn put(&self, out: &mut [u8], start: usize) -> usize {
        let at = put_rm(out, start, self.instance);
        put_report(out, at, self.report)
    }

    fn instance(self) -> ManagerNumber {
        self.instance
    }

    fn is_below(self, ballot: Ballot) -> bool {
        is_report_below(self.report, ballot)
    }
}

/// An accept reports nothing below a ballot.
impl Item for InstanceAccept {
    ghost at = { accept_item_at };

    ghost spell = { accept_item_spelling version_2 };

    ghost about = { λ item. item.instance };

    ghost is_below = { λ ballot item. true };

    ghost fits = { λ ballot item. IsBallot item.ballot };

    #[tactic(auto, unfolding(crate::specs::Reading::accept_item_at))]
    fn take(bytes: &[u8]) -> Option<(InstanceAccept, &[u8])> {
        let (instance, ballot, rest) = take_instance(bytes)?;
        let (vote, rest) = take_vote(rest)?;
        let item = InstanceAccept {
            instance,
            ballot,
            vote,
        };
        Some((item, rest))
    }

    fn put(&self, out: &mut [u8], start: usize) -> usize {
        let at = put_rm(out, start, self.instance);
        let at = put_number(out, at, self.ballot);
        put_byte(out, at, byte_of_vote(self.vote))
    }

    fn instance(self) -> ManagerNumber {
        self.instance
    }

    fn is_below(self, _ballot: Ballot) -> bool {
        let _own = self.ballot;
        true
    }
}
