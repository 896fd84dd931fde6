//! The transaction that was read last: the lines of a trace name the same one many times in a row.

ghost use Rattle.std.specs.Prelude.{◌≡◌, IfOk, IfErr};
ghost use Rattle.net_script.specs.Basics.{NoMemory};
ghost use Rattle.net_script.specs.TraceLines.{Knows};

use std::alloc::Global;
use std::marker::Model;
use xid::{Refusal, Tx};

/// A transaction, and its word. None is known at first.
#[derive(Drop)]
pub(crate) struct KnownTx {
    word: Vec<u8>,
    tx: Tx,
}

impl Model for KnownTx {
    ghost use Rattle.std.specs.Prelude.{◌≡◌};
    ghost use Rattle.net_script.specs.Basics.{TxParts, IsTx, tx_text};

    ghost Value = { TxParts };

    ghost view = { λ known. known.tx };

    ghost invariant = { λ known. IsTx known.tx × (known.word.items ≡ tx_text known.tx) };
}

impl KnownTx {
    /// The transaction.
    pub(crate) fn tx(&self) -> &Tx
        ensures { result.now ≡ self.now }
    {
        &self.tx
    }
}

/// Whether a word that isn't the known transaction's is another's, which is known from then on. Refused: `NoMemory` alone.
#[inline(never)]
fn learn(alloc: Global, known: &mut Option<KnownTx>, word: &[u8]) -> Result<bool, Refusal>
    ensures ok { IfOk result (λ yes. Knows yes known.new word.now) }
    ensures err { IfErr result (λ e. e ≡ NoMemory) }
{
    let Ok(tx) = Tx::read(word) else {
        return Ok(false);
    };
    let word = Vec::from_slice(alloc, word)?;
    *known = Some(KnownTx { word, tx });
    Ok(true)
}

/// Whether a word is a transaction, which is the one that is known from then on. Refused: `NoMemory` alone.
pub(crate) fn know(alloc: Global, known: &mut Option<KnownTx>, word: &[u8]) -> Result<bool, Refusal>
    ensures ok { IfOk result (λ yes. Knows yes known.new word.now) }
    ensures err { IfErr result (λ e. e ≡ NoMemory) }
{
    if let Some(last) = &*known {
        if last.word.as_slice() == word {
            return Ok(true);
        }
    }
    learn(alloc, known, word)
}
