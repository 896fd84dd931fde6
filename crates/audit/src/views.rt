//! The views of each transaction's participants.

ghost use Rattle.std.specs.Prelude.{◌≡◌, true, not, if◌then◌else◌, IfOk, IfErr, IsTrue, position, slice_index_or, slice_set};
ghost use Rattle.std.specs.List.{list_all};
ghost use Rattle.xid.specs.declared.refusals.Refusal.TheVariants.{NoMemory};
ghost use Rattle.xid.specs.Transactions.{TxParts, IsTx, tx_eq, is_at};
ghost use Rattle.history.specs.Writes.{is_committed_view};
ghost use Rattle.audit.specs.Told.{may_move as may_move_of, is_ready_view};
ghost use Rattle.audit.specs.Books.{all_working, views_in, view_in, views_moved, is_move_from, has_committed_everywhere, IsNumberOf};

use hashing::HashKey;
use protocol::{Change, View};
use std::alloc::Global;
use std::marker::Model;
use transactions::Transactions;
use wire::{MAX_TX_BYTES, SpelledTx};
use xid::{ManagerNumber, Refusal, Tx};

/// The views of a transaction's participants, in the order of its list.
#[derive(Debug, Drop)]
pub struct Course {
    views: Vec<View>,
}

impl Model for Course {
    ghost use Rattle.std.specs.Prelude.{List};
    ghost use Rattle.protocol.specs.declared.states.View.{View};

    ghost Value = { List View };

    ghost view = { λ course. course.views.items };
}

/// The transactions of which a view changed, and the views of their participants.
#[derive(Debug, Drop)]
pub struct Views {
    transactions: Transactions,
    courses: Vec<Course>,
    // the number of the transaction that was noted last, since changes of one often follow each other
    last: usize,
}

impl Model for Views {
    ghost use Rattle.std.specs.Prelude.{◌≡◌, length};
    ghost use Rattle.audit.specs.Books.{ViewsParts};

    ghost Value = { ViewsParts };

    ghost view = { λ v. record { transactions = v.transactions; views = v.courses.items } };

    ghost invariant = { λ v. length v.courses.items ≡ length v.transactions };
}

/// Whether a view is prepared or committed.
fn is_ready(view: &View) -> bool
    ensures { result ≡ is_ready_view view.now }
{
    matches!(view, View::Prepared | View::Committed)
}

/// Whether a view is committed.
fn is_committed(view: &View) -> bool
    ensures { result ≡ is_committed_view view.now }
{
    matches!(view, View::Committed)
}

/// Whether all views are prepared or committed.
fn are_ready(views: &[View]) -> bool
    ensures { result ≡ list_all is_ready_view views.now }
{
    views.iter().all(|view| is_ready(view))
}

/// Whether no view is committed.
fn are_uncommitted(views: &[View]) -> bool
    ensures { result ≡ list_all (λ view. not (is_committed_view view)) views.now }
{
    views.iter().all(|view| !is_committed(view))
}

/// Whether one participant of a transaction may go from a view to another, where these are the views of all.
fn may_move(all: &[View], from: View, to: View) -> bool
    ensures { result ≡ may_move_of all.now from to }
{
    match (from, to) {
        (View::Working, View::Prepared) => true,
        (View::Prepared, View::Committed) => are_ready(all),
        (View::Working, View::Aborted) => are_uncommitted(all),
        (View::Prepared, View::Aborted) => are_uncommitted(all),
        _ => false,
    }
}

/// The place of a resource manager among the participants of a transaction.
fn place_of(tx: &Tx, rm: ManagerNumber) -> Option<usize>
    ensures value { result ≡ position (is_at rm) tx.now.branches }
    ensures valid { IsTx tx.now }
{
    for place in 0..tx.count() {
        if tx.rm(place) == rm {
            return Some(place);
        }
    }
    None
}

impl Course {
    /// All participants are working. Refused: `NoMemory` alone.
    fn working(alloc: Global, tx: &Tx) -> Result<Course, Refusal>
        ensures ok { IfOk result (λ course. course ≡ all_working tx.now) }
        ensures err { IfErr result (λ e. e ≡ NoMemory) }
    {
        let mut views = Vec::new(alloc);
        for _place in 0..tx.count() {
            views.push(View::Working)?;
        }
        Ok(Course { views })
    }

    /// The view of the participant of a place.
    fn at(&self, place: usize) -> View
        ensures { result ≡ slice_index_or self.now place View.Working }
    {
        if place < self.views.len() {
            self.views[place]
        } else {
            View::Working
        }
    }

    /// Whether the participant of a place may go to a view.
    fn may_move(&self, place: usize, to: View) -> bool
        ensures { result ≡ may_move_of self.now (slice_index_or self.now place View.Working) to }
    {
        may_move(&self.views, self.at(place), to)
    }

    /// Sets the view of the participant of a place.
    fn set(&mut self, place: usize, view: View)
        ensures { self.new ≡ slice_set self.old place view }
    {
        if place < self.views.len() {
            self.views[place] = view;
        }
    }
}

impl Views {
    /// All are working. Transactions are hashed under the key. It takes no memory.
    pub fn new(alloc: Global, key: HashKey) -> Views
        ensures { (tx : TxParts) → views_in result tx ≡ all_working tx }
    {
        Views {
            transactions: Transactions::with_hash_key(alloc, key),
            courses: Vec::new(alloc),
            last: 0,
        }
    }

    /// Whether a participant has committed a transaction, by its place.
    pub fn has_committed(&self, tx: &Tx, place: usize) -> bool
        ensures { result ≡ is_committed_view (view_in self.now tx.now place) }
    {
        match self.transactions.number_of(tx) {
            Some(number) => is_committed(&self.courses[number].at(place)),
            None => false,
        }
    }

    /// Whether all participants of a transaction have committed it.
    pub fn has_committed_everywhere(&self, tx: &Tx) -> bool
        ensures { IsTrue result → has_committed_everywhere self.now tx.now ≡ true }
    {
        let Some(number) = self.transactions.number_of(tx) else {
            return false;
        };
        for place in 0..tx.count() {
            if !is_committed(&self.courses[number].at(place)) {
                return false;
            }
        }
        true
    }

    /// Notes a transaction, whose participants are all working unless it was noted, and answers its number. Refused: `NoMemory` alone.
    fn see(&mut self, alloc: Global, tx: &Tx) -> Result<usize, Refusal>
        ensures ok { IfOk result (λ number. IsNumberOf self.new tx.now number) }
        ensures same { (other : TxParts) → views_in self.new other ≡ views_in self.old other }
        ensures err { IfErr result (λ e. e ≡ NoMemory) }
    {
        let mut buffer = [0; MAX_TX_BYTES];
        let spelled = SpelledTx::of(tx, &mut buffer);
        if let Some(number) = self.transactions.number_of_view(&spelled, self.last) {
            self.last = number;
            return Ok(number);
        }
        let course = Course::working(alloc, tx)?;
        self.courses.reserve(1)?;
        let number = self.transactions.insert_view(&spelled)?;
        self.courses.push_reserved(course);
        self.last = number;
        Ok(number)
    }

    /// Sets a view of the transaction of a number.
    fn set(&mut self, tx: &Tx, number: usize, place: usize, view: View)
        requires { IsNumberOf self.old tx.now number }
        ensures { (other : TxParts) → views_in self.new other
            ≡ (if tx_eq other tx.now then slice_set (views_in self.old other) place view else views_in self.old other) }
    {
        self.courses[number].set(place, view);
    }

    /// Whether a change is a step of TCommit, and if so makes it. Refused: `NoMemory` alone.
    pub fn change(&mut self, alloc: Global, change: &Change) -> Result<bool, Refusal>
        ensures ok { IfOk result (λ yes. (yes ≡ is_move_from self.old change.now)
            × (yes ≡ true → (tx : TxParts) → views_in self.new tx ≡ views_moved self.old change.now tx)) }
        ensures valid { IsTx change.now.tx }
        ensures err { IfErr result (λ e. e ≡ NoMemory) }
    {
        let Some(place) = place_of(&change.tx, u16::from(change.rm)) else {
            return Ok(false);
        };
        let number = self.see(alloc, &change.tx)?;
        if !self.courses[number].may_move(place, change.view) {
            return Ok(false);
        }
        self.set(&change.tx, number, place, change.view);
        Ok(true)
    }
}
