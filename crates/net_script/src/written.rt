//! The transaction that was written last: the lines of a trace name the same one many times in a row.

ghost use Rattle.std.specs.Prelude.{◌≡◌, ◌∷◌, ◌++◌, ℕ, IfErr, IfOk, IsTrue, List, OnErr, OnOk, Some, is_some};
ghost use Rattle.xid.specs.Text.{Extends};
ghost use Rattle.xid.specs.Transactions.{BranchParts, branch_text};
ghost use Rattle.wire.specs.Grammar.{tx_spelling};
ghost use Rattle.wire.specs.Reading.{branch_at};
ghost use Rattle.wire.specs.Versions.{version_2};
ghost use Rattle.net_script.specs.Basics.{NoMemory, tx_text};
ghost use Rattle.net_script.specs.Writing.{Puts};

use crate::pieces::put_word;
use std::alloc::Global;
use std::marker::Model;
use wire::{SpelledTx, VersionNumber, take_byte, take_component, take_name, take_rm};
use xid::{Refusal, text};

/// Writes the text of the branch that is spelled at the front, and answers what follows it. At `NoMemory`, the only refusal, there may be
/// a beginning of the text.
fn put_branch<'a>(bytes: &'a [u8], out: &mut Vec<u8>) -> Result<&'a [u8], Refusal>
    requires { IsTrue (is_some (branch_at version_2 bytes.now)) }
    ensures ok { IfOk result (λ rest. (branch : BranchParts) (after : List ℕ) → branch_at version_2 bytes.now ≡ Some (branch, after)
        → (rest.now ≡ after) × (out.new.items ≡ out.old.items ++ branch_text branch)) }
    ensures err { IfErr result (λ e. e ≡ NoMemory) }
    ensures kept { OnErr result (Extends out.old.items out.new.items) }
{
    let Some((rm, rest)) = take_rm(VersionNumber::Second, bytes) else {
        unreachable!();
    };
    let Some((bqual, rest)) = take_component(rest) else {
        unreachable!();
    };
    text::put_number(u32::from(rm), out)?;
    out.push(b'=')?;
    text::put_hex(bqual, out)?;
    Ok(rest)
}

/// Writes the text of a transaction by the bytes that spell it, so that it isn't put together first. At `NoMemory`, the only refusal, there
/// may be a beginning of it.
fn put_text(tx: &SpelledTx<'_>, out: &mut Vec<u8>) -> Result<(), Refusal>
    ensures ok { OnOk result (out.new.items ≡ out.old.items ++ tx_text tx.now) }
    ensures err { IfErr result (λ e. e ≡ NoMemory) }
    ensures kept { OnErr result (Extends out.old.items out.new.items) }
{
    let Some((format, gtrid, rest)) = take_name(tx.as_bytes()) else {
        unreachable!();
    };
    text::put_number(format, out)?;
    out.push(b':')?;
    text::put_hex(gtrid, out)?;
    out.push(b'/')?;
    let Some((_, branches)) = take_byte(rest) else {
        unreachable!();
    };
    let mut rest = put_branch(branches, out)?;
    for place in 1..tx.count() {
        out.push(b',')?;
        rest = put_branch(rest, out)?;
    }
    Ok(())
}

/// Writes a transaction as a word, by the bytes that spell it. Refused: `NoMemory` alone.
pub(crate) fn put_spelled(out: &mut Vec<u8>, tx: &SpelledTx<'_>) -> Result<(), Refusal>
    ensures puts { Puts out.old.items out.new.items result (32 ∷ tx_text tx.now) }
    ensures kept { OnErr result (Extends out.old.items out.new.items) }
{
    out.push(b' ')?;
    put_text(tx, out)
}

/// A transaction as it is spelled, and its text. None was written at first.
#[derive(Drop)]
pub struct WrittenTx {
    spelled: Vec<u8>,
    text: Vec<u8>,
}

impl Model for WrittenTx {
    ghost use Rattle.std.specs.Prelude.{◌≡◌, ℕ, List};
    ghost use Rattle.wire.specs.Spelled.{IsSpelled, tx_spelled};
    ghost use Rattle.net_script.specs.Basics.{tx_text};

    ghost Value = { List ℕ };

    ghost view = { λ w. w.spelled.items };

    ghost invariant = { λ w. IsSpelled w.spelled.items → w.text.items ≡ tx_text (tx_spelled w.spelled.items) };
}

impl WrittenTx {
    /// None was written yet.
    pub fn none(alloc: Global) -> WrittenTx {
        WrittenTx {
            spelled: Vec::new(alloc),
            text: Vec::new(alloc),
        }
    }

    /// Writes a transaction as a word. Refused: `NoMemory` alone.
    pub(crate) fn put(&mut self, out: &mut Vec<u8>, tx: &SpelledTx<'_>) -> Result<(), Refusal>
        ensures puts { Puts out.old.items out.new.items result (32 ∷ tx_text tx.now) }
        ensures kept { OnErr result (Extends out.old.items out.new.items) }
    {
        if self.spelled.as_slice() == tx.as_bytes() {
            return put_word(out, self.text.as_slice());
        }
        self.learn(tx)?;
        put_word(out, self.text.as_slice())
    }

    /// Makes the text of a transaction. Refused: `NoMemory` alone.
    #[inline(never)]
    fn learn(&mut self, tx: &SpelledTx<'_>) -> Result<(), Refusal>
        ensures ok { OnOk result (self.new ≡ tx_spelling version_2 tx.now) }
        ensures err { IfErr result (λ e. e ≡ NoMemory) }
    {
        self.spelled.clear();
        self.text.clear();
        put_text(tx, &mut self.text)?;
        self.spelled.extend_from_slice(tx.as_bytes())?;
        Ok(())
    }
}
