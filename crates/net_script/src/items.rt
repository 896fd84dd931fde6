//! The items of a script, each of one line, and first tables.

ghost use Rattle.std.specs.Prelude.{◌≢◌, ◌↔◌, IsTrue, true, ◌≡◌, ◌∷◌, Bool, MatchOption, false, map, IfOk, IfErr};
ghost use Rattle.std.specs.List.{AllPairs};
ghost use Rattle.net_script.specs.Basics.{Memory};
ghost use Rattle.net_script.specs.Lines.{row_text, words};
ghost use Rattle.net_script.specs.Items.{IsRow, IsContents, contents_words, IsSizes, IsItem, bundled_words, sizes_words, item_words};
ghost use Rattle.net_script.specs.Laws.{a_row, a_table, a_sizes};
ghost use Rattle.net_script.specs.Spelling.{Finds};

use crate::byte_words::Hex;
use crate::events::command_by;
use crate::nodes::Manager;
use crate::stop::Stop;
use crate::values::{Command, Sizes, Table};
use crate::word::{Word, Words, is_word};
use crate::words::{field, is_over, next_word, split_once};
use protocol::Row;
use std::alloc::Global;
use xid::{Bytes, MAX_KEY, MAX_VALUE, Sequence};

impl Word for Row {
    ghost fits = { IsRow };

    ghost text = { row_text };

    ghost allocates = { true };

    ghost spelling = { a_row };

    fn read(alloc: Global, word: &[u8]) -> Result<Row, Stop> {
        let Some((key, value)) = split_once(word, b'=') else {
            return Err(Stop::Wrong);
        };
        let Hex(key) = Hex::read(alloc, key)?;
        if key.as_slice().len() > MAX_KEY {
            return Err(Stop::Wrong);
        }
        let value = <Bytes as Word>::read(alloc, value)?;
        if value.as_slice().len() > MAX_VALUE {
            return Err(Stop::Wrong);
        }
        Ok(Row { key, value })
    }
}

/// Whether keys are distinct: sorted, no two stand beside each other that are the same.
fn are_distinct(alloc: Global, rows: &[Row]) -> Result<bool, Stop>
    ensures ok { IfOk result (λ distinct. IsTrue distinct ↔ AllPairs (λ a b. a.key ≢ b.key) rows.now) }
    ensures err { IfErr result (λ e. e ≡ Memory) }
{
    if rows.len() < 2 {
        return Ok(true);
    }
    let mut keys = keys_of(alloc, rows)?;
    keys.sort_unstable();
    keys.dedup();
    Ok(keys.len() == rows.len())
}

/// The keys of rows.
fn keys_of(alloc: Global, rows: &[Row]) -> Result<Vec<&[u8]>, Stop>
    ensures ok { IfOk result (λ keys. map (λ key. key.now) keys.items ≡ map (λ row. row.key) rows.now) }
    ensures err { IfErr result (λ e. e ≡ Memory) }
{
    let mut keys = Vec::with_capacity(alloc, rows.len())?;
    for row in rows {
        keys.push(row.key.as_slice())?;
    }
    Ok(keys)
}

impl Words for Table {
    ghost fit = { IsContents };

    ghost texts = { contents_words };

    ghost allocate = { true };

    ghost spellings = { a_table };

    #[inline(never)]
    fn read(alloc: Global, args: &[u8]) -> Result<Table, Stop> {
        let (Manager(rm), rows): (Manager, Sequence<Row>) = Words::read(alloc, args)?;
        let distinct = are_distinct(alloc, rows.as_slice())?;
        if !distinct {
            return Err(Stop::Wrong);
        }
        Ok(Table { rm, rows })
    }
}

/// What one line says.
#[derive(Drop)]
pub enum Item {
    /// How many nodes there are.
    Cluster(Sizes),
    /// First rows of a resource manager.
    Contents(Table),
    /// What happens then.
    Then(Command),
}

/// Whether the cluster is bundled: nothing more, or its word.
fn read_bundled(args: &[u8]) -> Option<bool>
    ensures { MatchOption result
        ((b : Bool) → words args.now ≢ bundled_words b)
        (λ b. words args.now ≡ bundled_words b) }
{
    let Some((word, rest)) = next_word(args) else {
        return Some(false);
    };
    if word != b"bundled".as_slice() || !is_over(rest) {
        return None;
    }
    Some(true)
}

impl Words for Sizes {
    ghost fit = { IsSizes };

    ghost texts = { sizes_words };

    ghost allocate = { false };

    ghost spellings = { a_sizes };

    #[inline(never)]
    fn read(_alloc: Global, args: &[u8]) -> Result<Sizes, Stop> {
        let (acceptors, rest) = field(args, b"acceptors").ok_or(Stop::Wrong)?;
        let (leaders, rest) = field(rest, b"leaders").ok_or(Stop::Wrong)?;
        let (rms, rest) = field(rest, b"rms").ok_or(Stop::Wrong)?;
        let bundled = read_bundled(rest).ok_or(Stop::Wrong)?;
        Ok(Sizes {
            acceptors,
            leaders,
            rms,
            bundled,
        })
    }
}

/// What a line of this first word says, by those after it.
pub(crate) fn item_by(alloc: Global, name: &[u8], args: &[u8]) -> Result<Item, Stop>
    ensures { Finds true IsItem item_words (name.now ∷ words args.now) result }
{
    if is_word(name, b"cluster") {
        let sizes = Words::read(alloc, args)?;
        return Ok(Item::Cluster(sizes));
    }
    if is_word(name, b"table") {
        let table = Words::read(alloc, args)?;
        return Ok(Item::Contents(table));
    }
    Ok(Item::Then(command_by(alloc, name, args)?))
}
