ghost use Rattle.std.specs.Prelude.{◌≡◌, ◌≤◌, [], ◌∷◌, ◌++◌, length, OnOk, IfErr};
ghost use Rattle.xid.specs.declared.refusals.Refusal.TheVariants.{NoMemory};
ghost use Rattle.wire.specs.Versions.{version_2};
ghost use Rattle.wire.specs.Grammar.{number_spelling, rm_spelling, component_spelling, tx_spelling, vote_byte};
ghost use Rattle.stable_record.specs.declared.entry.EntryKind.{EntryKind};
ghost use Rattle.stable_record.specs.Facts.{IsFact, IsTouched, AreKeys, IsAct, IsKey, IsValue};
ghost use Rattle.stable_record.specs.Entries.{IsEntry};
ghost use Rattle.stable_record.specs.Grammar.{most_body, value_spelling, act_spelling, touched_spelling, keys_spelling, fact_byte};
ghost use Rattle.stable_record.specs.Grammar.{rest_spelling, body_spelling, frame};

use crate::entry::{Entry, EntryKind};
use crate::fact::{Act, FactKind, Touched};
use byteorder::{BigEndian, ByteOrder};
use std::alloc::{AllocError, Global};
use wire::{MAX_TX_BYTES, VERSION, put_tx};
use xid::{ManagerNumber, Refusal, Tx, Vote};

/// How many bytes a usual body has, at most.
const USUAL_BODY_BYTES: usize = 128;

/// Puts a number of 32 bits at the end. Each of these functions puts the spelling of its name at the end.
pub(crate) fn put_number(out: &mut Vec<u8>, number: u32) -> Result<(), AllocError>
    ensures { OnOk result (out.new.items ≡ out.old.items ++ number_spelling number) }
{
    let mut bytes = [0; 4];
    BigEndian::write_u32(&mut bytes, number);
    out.extend_from_slice(&bytes)
}

fn put_short(out: &mut Vec<u8>, number: u16) -> Result<(), AllocError>
    ensures { OnOk result (out.new.items ≡ out.old.items ++ rm_spelling version_2 number) }
{
    let mut bytes = [0; 2];
    BigEndian::write_u16(&mut bytes, number);
    out.extend_from_slice(&bytes)
}

fn put_transaction(out: &mut Vec<u8>, tx: &Tx) -> Result<(), AllocError>
    ensures { OnOk result (out.new.items ≡ out.old.items ++ tx_spelling version_2 tx.now) }
{
    let mut bytes = [0; MAX_TX_BYTES];
    let len = put_tx(tx, &mut bytes, 0);
    out.extend_from_slice(&bytes[..len])
}

fn put_key(out: &mut Vec<u8>, key: &[u8]) -> Result<(), AllocError>
    requires { IsKey key.now }
    ensures { OnOk result (out.new.items ≡ out.old.items ++ component_spelling key.now) }
{
    out.push(key.len() as u8)?;
    out.extend_from_slice(key)
}

fn put_value(out: &mut Vec<u8>, value: &[u8]) -> Result<(), AllocError>
    requires { IsValue value.now }
    ensures { OnOk result (out.new.items ≡ out.old.items ++ value_spelling value.now) }
{
    put_short(out, value.len() as u16)?;
    out.extend_from_slice(value)
}

fn put_act(out: &mut Vec<u8>, act: &Act) -> Result<(), AllocError>
    requires { IsAct act.now }
    ensures { OnOk result (out.new.items ≡ out.old.items ++ act_spelling act.now) }
{
    match act {
        Act::Read => Ok(out.push(0)?),
        Act::Put(value) => {
            out.push(1)?;
            put_value(out, value.as_slice())
        }
        Act::Del => Ok(out.push(2)?),
    }
}

fn put_touched(out: &mut Vec<u8>, touched: &Touched) -> Result<(), AllocError>
    requires { IsTouched touched.now }
    ensures { OnOk result (out.new.items ≡ out.old.items ++ touched_spelling touched.now) }
{
    put_key(out, touched.key.as_slice())?;
    put_act(out, &touched.act)
}

pub(crate) fn put_keys(out: &mut Vec<u8>, keys: &[Touched]) -> Result<(), AllocError>
    requires { AreKeys keys.now }
    ensures { OnOk result (out.new.items ≡ out.old.items ++ keys_spelling keys.now) }
{
    out.push(keys.len() as u8)?;
    for touched in keys {
        put_touched(out, touched)?;
    }
    Ok(())
}

pub(crate) fn byte_of_vote(vote: Vote) -> u8
    ensures { result ≡ vote_byte vote }
{
    match vote {
        Vote::Prepared => 1,
        Vote::Aborted => 2,
    }
}

fn byte_of_fact(fact: &FactKind) -> u8
    ensures { result ≡ fact_byte fact.now }
{
    match fact {
        FactKind::Promise { .. } => 1,
        FactKind::Accept { .. } => 2,
        FactKind::Ballot { .. } => 3,
        FactKind::VotePrepared { .. } => 4,
        FactKind::VoteAborted(_) => 5,
        FactKind::Committed(_) => 6,
        FactKind::Aborted(_) => 7,
        FactKind::PromiseAll { .. } => 8,
    }
}

pub(crate) fn put_instance(
    out: &mut Vec<u8>,
    instance: ManagerNumber,
    ballot: u32,
) -> Result<(), AllocError>
    ensures { OnOk result (out.new.items ≡ out.old.items ++ (rm_spelling version_2 instance ++ number_spelling ballot)) }
{
    put_short(out, instance)?;
    put_number(out, ballot)
}

/// Puts what follows the transaction of a fact.
fn put_rest(out: &mut Vec<u8>, fact: &FactKind) -> Result<(), AllocError>
    requires { IsFact fact.now }
    ensures { OnOk result (out.new.items ≡ out.old.items ++ rest_spelling version_2 fact.now) }
{
    match fact {
        FactKind::Promise {
            instance,
            ballot,
            ..
        } => put_instance(out, *instance, *ballot),
        FactKind::Accept {
            instance,
            ballot,
            vote,
            ..
        } => {
            put_instance(out, *instance, *ballot)?;
            Ok(out.push(byte_of_vote(*vote))?)
        }
        FactKind::Ballot { ballot, .. } => put_number(out, *ballot),
        FactKind::VotePrepared { keys, .. } => put_keys(out, keys.as_slice()),
        FactKind::VoteAborted(_) => Ok(()),
        FactKind::Committed(_) => Ok(()),
        FactKind::Aborted(_) => Ok(()),
        FactKind::PromiseAll { ballot, .. } => put_number(out, *ballot),
    }
}

/// Puts the body of a fact's frame.
fn put_fact(out: &mut Vec<u8>, fact: &FactKind) -> Result<(), AllocError>
    requires { IsFact fact.now }
    ensures { OnOk result (out.new.items ≡ out.old.items ++ body_spelling version_2 (EntryKind.Fact fact.now)) }
{
    out.push(VERSION)?;
    out.push(byte_of_fact(fact))?;
    put_transaction(out, fact.tx())?;
    put_rest(out, fact)
}

/// Puts the body of the frame of an entry that is a transaction alone.
fn put_past(out: &mut Vec<u8>, code: u8, tx: &Tx) -> Result<(), AllocError>
    ensures { OnOk result (out.new.items ≡ out.old.items ++ version_2.byte ∷ code ∷ tx_spelling version_2 tx.now) }
{
    out.push(VERSION)?;
    out.push(code)?;
    put_transaction(out, tx)
}

/// Puts the body of an entry's frame.
fn put_body(out: &mut Vec<u8>, entry: &EntryKind) -> Result<(), AllocError>
    requires { IsEntry entry.now }
    ensures { OnOk result (out.new.items ≡ out.old.items ++ body_spelling version_2 entry.now) }
{
    match entry {
        EntryKind::Fact(fact) => put_fact(out, fact),
        EntryKind::Snapshot => {
            out.push(VERSION)?;
            Ok(out.push(9)?)
        }
        EntryKind::Row { key, value } => {
            out.push(VERSION)?;
            out.push(10)?;
            put_key(out, key.as_slice())?;
            put_value(out, value.as_slice())
        }
        EntryKind::PastCommitted(tx) => put_past(out, 11, tx),
        EntryKind::PastAborted(tx) => put_past(out, 12, tx),
    }
}

/// Puts the frame of a body: all of it, or nothing.
fn put_framed(alloc: Global, body: &[u8], out: &mut Vec<u8>) -> Result<(), Refusal>
    requires { length body.now ≤ most_body }
    ensures ok { OnOk result (out.new.items ≡ out.old.items ++ (number_spelling (length body.now) ++ body.now)) }
    ensures err { IfErr result (λ e. (e ≡ NoMemory) × (out.new.items ≡ out.old.items)) }
{
    let mut frame = Vec::with_capacity(alloc, 4 + body.len())?;
    put_number(&mut frame, body.len() as u32)?;
    frame.extend_from_slice(body)?;
    Ok(out.extend_from_slice(&frame)?)
}

/// An empty content with room for a usual body, so that one doesn't have its block grow; where there is no such block, without room.
fn room(alloc: Global) -> Vec<u8>
    ensures { result.items ≡ [] }
{
    match Vec::with_capacity(alloc, USUAL_BODY_BYTES) {
        Ok(body) => body,
        Err(_) => Vec::new(alloc),
    }
}

/// Writes the frame of a row, in version 2, at the end: that of its entry. At `NoMemory`, the only refusal, the first bytes of it may stand
/// there.
pub fn write_row(key: &[u8], value: &[u8], out: &mut Vec<u8>) -> Result<(), Refusal>
    requires key { IsKey key.now }
    requires value { IsValue value.now }
    ensures ok { OnOk result (out.new.items ≡ out.old.items ++ frame version_2 (EntryKind.Row key.now value.now)) }
    ensures err { IfErr result (λ e. e ≡ NoMemory) }
{
    put_number(out, (5 + key.len() + value.len()) as u32)?;
    out.extend_from_slice(&[VERSION, 10])?;
    put_key(out, key)?;
    Ok(put_value(out, value)?)
}

impl Entry {
    /// Writes its frame, in version 2, at the end. At `NoMemory`, the only refusal, the content is as it was.
    pub fn write(&self, alloc: Global, out: &mut Vec<u8>) -> Result<(), Refusal>
        ensures ok { OnOk result (out.new.items ≡ out.old.items ++ frame version_2 self.now) }
        ensures err { IfErr result (λ e. (e ≡ NoMemory) × (out.new.items ≡ out.old.items)) }
        ensures valid { IsEntry self.now }
    {
        let mut body = room(alloc);
        put_body(&mut body, self.kind())?;
        put_framed(alloc, &body, out)
    }
}
