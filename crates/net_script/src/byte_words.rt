//! Words that are bytes, XIDs, transactions and floors.

ghost use Rattle.std.specs.Prelude.{true, false};
ghost use Rattle.net_script.specs.Basics.{IsBytes, IsXid, IsTx, hex_text, xid_text, tx_text};
ghost use Rattle.net_script.specs.Lines.{IsSome, bytes_text, floor_text};
ghost use Rattle.net_script.specs.Events.{IsFloor};
ghost use Rattle.net_script.specs.Laws.{a_hex, some_bytes, an_xid, a_tx, a_floor};

use crate::stop::Stop;
use crate::word::{Word, is_word};
use crate::words::split_once;
use hex::FromHexError;
use std::alloc::Global;
use wire::OwnedTx;
use xid::text::lacks_capitals;
use xid::{Bytes, FORMATS, Floor, MAX_COMPONENT, Sequence, Tx, Xid};

/// Bytes of which there is at least one.
#[derive(Drop)]
pub struct Hex(pub Bytes);

impl Word for Hex {
    ghost fits = { λ hex. IsSome hex.0 };

    ghost text = { λ hex. hex_text hex.0 };

    ghost allocates = { true };

    ghost spelling = { a_hex };

    fn read(alloc: Global, word: &[u8]) -> Result<Hex, Stop> {
        if word.is_empty() || !lacks_capitals(word) {
            return Err(Stop::Wrong);
        }
        let bytes = match hex::decode(alloc, word) {
            Ok(bytes) => bytes,
            Err(error) => {
                return match error {
                    FromHexError::OutOfMemory => Err(Stop::Memory),
                    _ => Err(Stop::Wrong),
                };
            }
        };
        Ok(Hex(Sequence::new(bytes)))
    }
}

impl Word for Sequence<u8> {
    ghost fits = { IsBytes };

    ghost text = { bytes_text };

    ghost allocates = { true };

    ghost spelling = { some_bytes };

    fn read(alloc: Global, word: &[u8]) -> Result<Bytes, Stop> {
        if is_word(word, b"-") {
            return Ok(Sequence::new(Vec::new(alloc)));
        }
        let Hex(bytes) = Hex::read(alloc, word)?;
        Ok(bytes)
    }
}

impl Word for Xid {
    ghost fits = { IsXid };

    ghost text = { xid_text };

    ghost allocates = { false };

    ghost spelling = { an_xid };

    fn read(_alloc: Global, word: &[u8]) -> Result<Xid, Stop> {
        let Ok(xid) = Xid::read(word) else {
            return Err(Stop::Wrong);
        };
        Ok(xid)
    }
}

impl Word for OwnedTx {
    ghost fits = { IsTx };

    ghost text = { tx_text };

    ghost allocates = { true };

    ghost spelling = { a_tx };

    fn read(alloc: Global, word: &[u8]) -> Result<OwnedTx, Stop> {
        let Ok(tx) = Tx::read(word) else {
            return Err(Stop::Wrong);
        };
        OwnedTx::new(alloc, &tx).ok().ok_or(Stop::Memory)
    }
}

impl Word for Floor {
    ghost fits = { IsFloor };

    ghost text = { floor_text };

    ghost allocates = { true };

    ghost spelling = { a_floor };

    fn read(alloc: Global, word: &[u8]) -> Result<Floor, Stop> {
        let Some((digits, rest)) = split_once(word, b':') else {
            return Err(Stop::Wrong);
        };
        let format = <u32 as Word>::read(alloc, digits)?;
        if format >= FORMATS {
            return Err(Stop::Wrong);
        }
        let gtrid = <Bytes as Word>::read(alloc, rest)?;
        if gtrid.as_slice().len() > MAX_COMPONENT {
            return Err(Stop::Wrong);
        }
        Ok(Floor::new(format, gtrid.as_slice()))
    }
}
