//! Touched keys, which stand ascending by their bytes.

ghost use Rattle.std.specs.Prelude.{◌≡◌, ◌≤◌, IfOk, IfErr, IfSome, IfNone, OnOk, is_some, vec_len, position, insert};
ghost use Rattle.std.specs.Bool.{Decides};
ghost use Rattle.std.specs.Cmp.Lexicographic.{slice_cmp};
ghost use Rattle.std.specs.Ordering.{nat_cmp, is_le};
ghost use Rattle.std.specs.Str.{bytes_eq};
ghost use Rattle.xid.specs.declared.refusals.Refusal.TheVariants.{NoMemory};
ghost use Rattle.stable_record.specs.Facts.{AreAscending};
ghost use Rattle.stable_record.specs.declared.fact.Act.TheVariants as acts;
ghost use Rattle.protocol.specs.Managers.{act_on as act_on_of, has_key, last_act, with_touched};

use stable_record::{Act, Touched};
use std::alloc::Global;
use xid::{Bytes, Refusal};

fn is_of_key(touched: &Touched, key: &[u8]) -> bool
    ensures { result ≡ bytes_eq touched.now.key key.now }
{
    touched.key.as_slice() == key
}

/// Whether a key stands no later than a touched one.
fn is_up_to(key: &[u8], touched: &Touched) -> bool
    ensures { result ≡ is_le (slice_cmp nat_cmp key.now touched.now.key) }
{
    key.cmp(touched.key.as_slice()).is_le()
}

/// The first place of which the key isn't before this one, found by halving.
fn place_of(keys: &[Touched], key: &[u8]) -> Option<usize>
    requires { AreAscending keys.now }
    ensures { result ≡ position (λ touched. is_le (slice_cmp nat_cmp key.now touched.key)) keys.now }
{
    let at = keys.partition_point(|touched| !is_up_to(key, touched));
    if at == keys.len() {
        return None;
    }
    Some(at)
}

/// The last act on a key, if it was touched.
pub fn act_on<'a>(keys: &'a [Touched], key: &[u8]) -> Option<&'a Act>
    requires { AreAscending keys.now }
    ensures some { IfSome result (λ act. act.now ≡ act_on_of keys.now key.now) }
    ensures none { IfNone result (act_on_of keys.now key.now ≡ acts.Read) }
    ensures touched { is_some result ≡ has_key key.now keys.now }
{
    let Some(at) = place_of(keys, key) else {
        return None;
    };
    let touched = &keys[at];
    if !is_of_key(touched, key) {
        return None;
    }
    Some(&touched.act)
}

/// Notes a later act.
fn note(touched: &mut Touched, act: Act)
    ensures { touched.new ≡ record touched.old { act = last_act touched.old.act act } }
{
    match act {
        Act::Read => (),
        act => touched.act = act,
    }
}

fn insert_at(
    alloc: Global,
    keys: &mut Vec<Touched>,
    at: usize,
    key: &[u8],
    act: Act,
) -> Result<(), Refusal>
    requires { at ≤ vec_len keys.old }
    ensures ok { OnOk result (keys.new.items ≡ insert keys.old.items at (record { key = key.now; act = act })) }
    ensures err { IfErr result (λ e. (e ≡ NoMemory) × (keys.new.items ≡ keys.old.items)) }
{
    let key = Bytes::copy_of(alloc, key)?;
    keys.insert(at, Touched { key, act })?;
    Ok(())
}

/// Notes a key as touched, at its place, and its last act. At `NoMemory`, the only refusal, nothing changes.
pub fn touch_key(
    alloc: Global,
    keys: &mut Vec<Touched>,
    key: &[u8],
    act: Act,
) -> Result<(), Refusal>
    requires { AreAscending keys.old.items }
    ensures ok { OnOk result (keys.new.items ≡ with_touched keys.old.items key.now act) }
    ensures err { IfErr result (λ e. (e ≡ NoMemory) × (keys.new.items ≡ keys.old.items)) }
{
    let Some(at) = place_of(keys, key) else {
        let end = keys.len();
        return insert_at(alloc, keys, end, key, act);
    };
    if !is_of_key(&keys[at], key) {
        return insert_at(alloc, keys, at, key, act);
    }
    let touched = &mut keys[at];
    note(touched, act);
    Ok(())
}

/// A copy of an act. Refused: `NoMemory` alone.
fn copied_act(alloc: Global, act: &Act) -> Result<Act, Refusal>
    ensures ok { IfOk result (λ copy. copy ≡ act.now) }
    ensures err { IfErr result (λ e. e ≡ NoMemory) }
{
    match act {
        Act::Read => Ok(Act::Read),
        Act::Put(value) => Ok(Act::Put(Bytes::copy_of(alloc, value.as_slice())?)),
        Act::Del => Ok(Act::Del),
    }
}

/// A copy of touched keys. Refused: `NoMemory` alone.
pub fn copied(alloc: Global, keys: &[Touched]) -> Result<Vec<Touched>, Refusal>
    ensures ok { IfOk result (λ copies. copies.items ≡ keys.now) }
    ensures err { IfErr result (λ e. e ≡ NoMemory) }
{
    let mut copies = Vec::new(alloc);
    for touched in keys {
        let key = Bytes::copy_of(alloc, touched.key.as_slice())?;
        let act = copied_act(alloc, &touched.act)?;
        copies.push(Touched { key, act })?;
    }
    Ok(copies)
}

/// Whether two acts are the same.
fn is_same_act(act: &Act, other: &Act) -> bool
    ensures { Decides result (act.now ≡ other.now) }
{
    match (act, other) {
        (Act::Read, Act::Read) | (Act::Del, Act::Del) => true,
        (Act::Put(value), Act::Put(other)) => value.as_slice() == other.as_slice(),
        _ => false,
    }
}

/// Whether two keys are the same, and the last acts on them.
fn is_same(touched: &Touched, other: &Touched) -> bool
    ensures { Decides result (touched.now ≡ other.now) }
{
    is_of_key(touched, other.key.as_slice()) && is_same_act(&touched.act, &other.act)
}

/// Whether touched keys are the same.
pub fn are_same(keys: &[Touched], others: &[Touched]) -> bool
    ensures { Decides result (keys.now ≡ others.now) }
{
    if keys.len() != others.len() {
        return false;
    }
    for at in 0..keys.len() {
        if !is_same(&keys[at], &others[at]) {
            return false;
        }
    }
    true
}
