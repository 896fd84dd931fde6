ghost use Rattle.std.specs.Prelude.{◌≡◌, ℕ, ◌+◌, ◌*◌, ◌<◌, ◌≤◌, [], ◌∷◌, ◌++◌, length, take, drop};
ghost use Rattle.std.specs.List.{flat_map};
ghost use Rattle.xid.specs.Transactions.{nth_branch};
ghost use Rattle.wire.specs.Messages.{IsMessage};
ghost use Rattle.wire.specs.Versions.{version_2};
ghost use Rattle.wire.specs.Grammar.{number_spelling, rm_spelling, component_spelling, branch_spelling, branches_spelling, tx_spelling};
ghost use Rattle.wire.specs.Grammar.{vote_byte, report_spelling, kind_byte, rest_spelling, spelling};

use crate::grammar::{
    ITEM_BYTES, MAX_BRANCH_BYTES, MAX_BRANCHES_BYTES, MAX_COMPONENT_BYTES, MAX_DATAGRAM,
    MAX_ITEMS_BYTES, MAX_MESSAGE_BYTES, MAX_REST_BYTES, MAX_TX_BYTES, NUMBER_BYTES, REPORT_BYTES,
    RM_BYTES, VERSION,
};
use crate::item::Item;
use crate::message::{Kind, Message};
use byteorder::{BigEndian, ByteOrder};
use xid::{MAX_BRANCHES, MAX_COMPONENT, ManagerNumber, Tx, Vote};

/// Puts bytes at a place. Each of these functions answers the place after what it put; what is in front of it and what follows
/// it stays.
pub(crate) fn put_bytes(out: &mut [u8], at: usize, bytes: &[u8]) -> usize
    requires { at + length bytes.now ≤ length out.old }
    ensures end { result ≡ at + length bytes.now }
    ensures shown { take result out.new ≡ take at out.old ++ bytes.now }
    ensures rest { (n : ℕ) → result ≤ n → drop n out.new ≡ drop n out.old }
{
    out[at..at + bytes.len()].copy_from_slice(bytes);
    at + bytes.len()
}

pub(crate) fn put_byte(out: &mut [u8], at: usize, byte: u8) -> usize
    requires { at < length out.old }
    ensures end { result ≡ at + 1 }
    ensures shown { take result out.new ≡ take at out.old ++ byte ∷ [] }
    ensures rest { (n : ℕ) → result ≤ n → drop n out.new ≡ drop n out.old }
{
    out[at] = byte;
    at + 1
}

pub(crate) fn put_number(out: &mut [u8], at: usize, number: u32) -> usize
    requires { at + NUMBER_BYTES ≤ length out.old }
    ensures end { result ≡ at + NUMBER_BYTES }
    ensures shown { take result out.new ≡ take at out.old ++ number_spelling number }
    ensures rest { (n : ℕ) → result ≤ n → drop n out.new ≡ drop n out.old }
{
    let mut bytes = [0; 4];
    BigEndian::write_u32(&mut bytes, number);
    put_bytes(out, at, &bytes)
}

pub(crate) fn put_rm(out: &mut [u8], at: usize, rm: ManagerNumber) -> usize
    requires { at + RM_BYTES ≤ length out.old }
    ensures end { result ≡ at + RM_BYTES }
    ensures shown { take result out.new ≡ take at out.old ++ rm_spelling version_2 rm }
    ensures rest { (n : ℕ) → result ≤ n → drop n out.new ≡ drop n out.old }
{
    let mut bytes = [0; 2];
    BigEndian::write_u16(&mut bytes, rm);
    put_bytes(out, at, &bytes)
}

pub(crate) fn put_component(out: &mut [u8], at: usize, bytes: &[u8]) -> usize
    requires room { at + MAX_COMPONENT_BYTES ≤ length out.old }
    requires fits { length bytes.now ≤ MAX_COMPONENT }
    ensures end { result ≡ at + length (component_spelling bytes.now) }
    ensures shown { take result out.new ≡ take at out.old ++ component_spelling bytes.now }
    ensures rest { (n : ℕ) → result ≤ n → drop n out.new ≡ drop n out.old }
{
    let at = put_byte(out, at, bytes.len() as u8);
    put_bytes(out, at, bytes)
}

fn put_branch(tx: &Tx, i: usize, out: &mut [u8], at: usize) -> usize
    requires within { i < length tx.now.branches }
    requires room { at + MAX_BRANCH_BYTES ≤ length out.old }
    ensures end { result ≡ at + length (branch_spelling version_2 (nth_branch tx.now i)) }
    ensures few { result ≤ at + MAX_BRANCH_BYTES }
    ensures shown { take result out.new ≡ take at out.old ++ branch_spelling version_2 (nth_branch tx.now i) }
    ensures rest { (n : ℕ) → result ≤ n → drop n out.new ≡ drop n out.old }
{
    let at = put_rm(out, at, tx.rm(i));
    put_component(out, at, tx.bqual(i))
}

fn put_branches(tx: &Tx, out: &mut [u8], at: usize) -> usize
    requires { at + MAX_BRANCHES_BYTES ≤ length out.old }
    ensures end { result ≡ at + length (branches_spelling version_2 tx.now.branches) }
    ensures few { result ≤ at + MAX_BRANCHES_BYTES }
    ensures shown { take result out.new ≡ take at out.old ++ branches_spelling version_2 tx.now.branches }
    ensures rest { (n : ℕ) → result ≤ n → drop n out.new ≡ drop n out.old }
{
    let count = tx.count();
    let mut at = put_byte(out, at, count as u8);
    for i in 0..count {
        at = put_branch(tx, i, out, at);
    }
    at
}

/// Puts the spelling of a transaction at a place, and answers the place after it. What is in front of it and what follows it stays.
pub fn put_tx(tx: &Tx, out: &mut [u8], at: usize) -> usize
    requires { at + MAX_TX_BYTES ≤ length out.old }
    ensures end { result ≡ at + length (tx_spelling version_2 tx.now) }
    ensures few { result ≤ at + MAX_TX_BYTES }
    ensures shown { take result out.new ≡ take at out.old ++ tx_spelling version_2 tx.now }
    ensures rest { (n : ℕ) → result ≤ n → drop n out.new ≡ drop n out.old }
{
    let at = put_number(out, at, tx.format());
    let at = put_component(out, at, tx.gtrid());
    put_branches(tx, out, at)
}

pub(crate) fn byte_of_vote(vote: Vote) -> u8
    ensures { result ≡ vote_byte vote }
{
    match vote {
        Vote::Prepared => 1,
        Vote::Aborted => 2,
    }
}

pub(crate) fn put_report(out: &mut [u8], at: usize, report: Option<(u32, Vote)>) -> usize
    requires { at + REPORT_BYTES ≤ length out.old }
    ensures end { result ≡ at + length (report_spelling report) }
    ensures few { result ≡ at + REPORT_BYTES }
    ensures shown { take result out.new ≡ take at out.old ++ report_spelling report }
    ensures rest { (n : ℕ) → result ≤ n → drop n out.new ≡ drop n out.old }
{
    let (ballot, vote) = match report {
        None => (0, 0),
        Some((ballot, vote)) => (ballot, byte_of_vote(vote)),
    };
    let at = put_number(out, at, ballot);
    put_byte(out, at, vote)
}

/// Puts the items of a bundle at a place, behind their count.
pub(crate) fn put_items<T: Item>(items: &[T], out: &mut [u8], at: usize) -> usize
    requires few { length items.now ≤ MAX_BRANCHES }
    requires room { at + MAX_ITEMS_BYTES ≤ length out.old }
    ensures end { result ≡ at + 1 + ITEM_BYTES * length items.now }
    ensures shown { take result out.new ≡ take at out.old ++ length items.now ∷ flat_map T.spell items.now }
    ensures rest { (n : ℕ) → result ≤ n → drop n out.new ≡ drop n out.old }
{
    let mut at = put_byte(out, at, items.len() as u8);
    for item in items {
        at = item.put(out, at);
    }
    at
}

fn byte_of_kind(kind: &Kind) -> u8
    ensures { result ≡ kind_byte kind.now }
{
    match kind {
        Kind::Prepare(_) => 1,
        Kind::P1a { .. } => 2,
        Kind::P1b { .. } => 3,
        Kind::P2a { .. } => 4,
        Kind::P2b { .. } => 5,
        Kind::Commit(_) => 6,
        Kind::Abort(_) => 7,
        Kind::Ask { .. } => 8,
        Kind::B1a { .. } => 10,
        Kind::B1b { .. } => 11,
        Kind::B2b { .. } => 12,
    }
}

/// Puts what follows the transaction of a bundle.
fn put_bundle(kind: &Kind, out: &mut [u8], at: usize) -> usize
    requires bundle { 9 < kind_byte kind.now }
    requires room { at + MAX_REST_BYTES ≤ length out.old }
    ensures end { result ≡ at + length (rest_spelling version_2 kind.now) }
    ensures few { result ≤ at + MAX_REST_BYTES }
    ensures shown { take result out.new ≡ take at out.old ++ rest_spelling version_2 kind.now }
    ensures rest { (n : ℕ) → result ≤ n → drop n out.new ≡ drop n out.old }
{
    match *kind {
        Kind::B1a { ballot, .. } => put_number(out, at, ballot),
        Kind::B1b {
            ballot,
            acceptor,
            reports,
            ..
        } => {
            let at = put_number(out, at, ballot);
            let at = put_byte(out, at, acceptor);
            put_items(reports.as_slice(), out, at)
        }
        Kind::B2b {
            acceptor,
            accepts,
            ..
        } => {
            let at = put_byte(out, at, acceptor);
            put_items(accepts.as_slice(), out, at)
        }
        _ => at,
    }
}

/// Puts what follows the transaction of phase 2.
fn put_vote(kind: &Kind, out: &mut [u8], at: usize) -> usize
    requires above { 3 < kind_byte kind.now }
    requires below { kind_byte kind.now < 6 }
    requires room { at + MAX_REST_BYTES ≤ length out.old }
    ensures end { result ≡ at + length (rest_spelling version_2 kind.now) }
    ensures few { result ≤ at + MAX_REST_BYTES }
    ensures shown { take result out.new ≡ take at out.old ++ rest_spelling version_2 kind.now }
    ensures rest { (n : ℕ) → result ≤ n → drop n out.new ≡ drop n out.old }
{
    match *kind {
        Kind::P2a {
            instance,
            ballot,
            vote,
            ..
        } => {
            let at = put_rm(out, at, instance);
            let at = put_number(out, at, ballot);
            put_byte(out, at, byte_of_vote(vote))
        }
        Kind::P2b {
            instance,
            ballot,
            vote,
            acceptor,
            ..
        } => {
            let at = put_rm(out, at, instance);
            let at = put_number(out, at, ballot);
            let at = put_byte(out, at, byte_of_vote(vote));
            put_byte(out, at, acceptor)
        }
        _ => at,
    }
}

/// Puts what follows the transaction.
fn put_rest(kind: &Kind, out: &mut [u8], at: usize) -> usize
    requires message { IsMessage kind.now }
    requires room { at + MAX_REST_BYTES ≤ length out.old }
    ensures end { result ≡ at + length (rest_spelling version_2 kind.now) }
    ensures few { result ≤ at + MAX_REST_BYTES }
    ensures shown { take result out.new ≡ take at out.old ++ rest_spelling version_2 kind.now }
    ensures rest { (n : ℕ) → result ≤ n → drop n out.new ≡ drop n out.old }
{
    match *kind {
        Kind::Prepare(_) | Kind::Commit(_) | Kind::Abort(_) => at,
        Kind::P1a {
            instance,
            ballot,
            ..
        } => {
            let at = put_rm(out, at, instance);
            put_number(out, at, ballot)
        }
        Kind::P1b {
            instance,
            ballot,
            report,
            acceptor,
            ..
        } => {
            let at = put_rm(out, at, instance);
            let at = put_number(out, at, ballot);
            let at = put_report(out, at, report);
            put_byte(out, at, acceptor)
        }
        Kind::P2a { .. } | Kind::P2b { .. } => put_vote(kind, out, at),
        Kind::Ask { rm, .. } => put_rm(out, at, rm),
        Kind::B1a { .. } | Kind::B1b { .. } | Kind::B2b { .. } => put_bundle(kind, out, at),
    }
}

/// Spells a message at the front of `out`, and answers how many bytes its spelling has: at most `MAX_MESSAGE_BYTES`. What follows
/// it stays.
pub fn encode(message: &Message, out: &mut [u8; MAX_DATAGRAM]) -> usize
    ensures few { result ≤ MAX_MESSAGE_BYTES }
    ensures len { result ≡ length (spelling message.now) }
    ensures spells { take result out.new ≡ spelling message.now }
    ensures rest { drop result out.new ≡ drop result out.old }
{
    let kind = message.kind();
    let at = put_byte(out, 0, VERSION);
    let at = put_byte(out, at, byte_of_kind(kind));
    let at = put_tx(kind.tx(), out, at);
    put_rest(kind, out, at)
}
