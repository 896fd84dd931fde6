//! What a fact says beside its transaction, written behind that.

ghost use Rattle.std.specs.Prelude.{◌≡◌, ◌≤◌, ◌++◌, OnOk, length};
ghost use Rattle.stable_record.specs.Facts.{AreKeys, IsTouched};
ghost use Rattle.stable_record.specs.Grammar.{keys_spelling, touched_spelling};
ghost use Rattle.stable_record.specs.Rests.{HasVoteKeys, any_byte, any_spelling};

use crate::fact::{Act, Touched};
use crate::view::FactRest;
use crate::writing::{byte_of_vote, put_instance, put_keys, put_number};
use std::alloc::AllocError;

/// The number of a fact's kind.
pub(crate) fn code_of(rest: &FactRest) -> u8
    ensures { result ≡ any_byte rest.now }
{
    match rest {
        FactRest::Promise { .. } => 1,
        FactRest::Accept { .. } => 2,
        FactRest::Ballot { .. } => 3,
        FactRest::VotePrepared { .. } => 4,
        FactRest::VoteAborted => 5,
        FactRest::Committed => 6,
        FactRest::Aborted => 7,
        FactRest::PromiseAll { .. } => 8,
    }
}

/// How many bytes a touched key has.
fn len_of_touched(touched: &Touched) -> usize
    requires { IsTouched touched.now }
    ensures len { result ≡ length (touched_spelling touched.now) }
    ensures few { result ≤ 324 }
{
    let act = match &touched.act {
        Act::Read => 1,
        Act::Put(value) => 3 + value.as_slice().len(),
        Act::Del => 1,
    };
    1 + touched.key.as_slice().len() + act
}

/// How many bytes touched keys have, with their count.
fn len_of_keys(keys: &[Touched]) -> usize
    requires { AreKeys keys.now }
    ensures len { result ≡ length (keys_spelling keys.now) }
    ensures few { result ≤ 20737 }
{
    let mut len = 1;
    for touched in keys {
        len += len_of_touched(touched);
    }
    len
}

/// How many bytes follow the transaction.
pub(crate) fn len_of(rest: &FactRest) -> usize
    requires { HasVoteKeys rest.now }
    ensures len { result ≡ length (any_spelling rest.now) }
    ensures few { result ≤ 20737 }
{
    match rest {
        FactRest::Promise { .. } => 6,
        FactRest::Accept { .. } => 7,
        FactRest::Ballot { .. } => 4,
        FactRest::VotePrepared { keys } => len_of_keys(keys.as_slice()),
        FactRest::VoteAborted => 0,
        FactRest::Committed => 0,
        FactRest::Aborted => 0,
        FactRest::PromiseAll { .. } => 4,
    }
}

/// Puts what follows the transaction at the end.
pub(crate) fn put_rest(out: &mut Vec<u8>, rest: &FactRest) -> Result<(), AllocError>
    requires { HasVoteKeys rest.now }
    ensures { OnOk result (out.new.items ≡ out.old.items ++ any_spelling rest.now) }
{
    match rest {
        FactRest::Promise { instance, ballot } => put_instance(out, *instance, *ballot),
        FactRest::Accept {
            instance,
            ballot,
            vote,
        } => {
            put_instance(out, *instance, *ballot)?;
            Ok(out.push(byte_of_vote(*vote))?)
        }
        FactRest::Ballot { ballot } => put_number(out, *ballot),
        FactRest::VotePrepared { keys } => put_keys(out, keys.as_slice()),
        FactRest::VoteAborted => Ok(()),
        FactRest::Committed => Ok(()),
        FactRest::Aborted => Ok(()),
        FactRest::PromiseAll { ballot } => put_number(out, *ballot),
    }
}
