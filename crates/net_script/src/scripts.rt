//! Whole scripts, line by line.

ghost use Rattle.std.specs.Prelude.{◌≡◌, not, ◌==◌, ℕ, ◌≤◌, List, length, IfOk, IfErr, MatchOption, Some};
ghost use Rattle.std.specs.List.{list_all};
ghost use Rattle.std.specs.Option.{ForSome};
ghost use Rattle.net_script.specs.Basics.{Script};
ghost use Rattle.net_script.specs.declared.items.Item.TheVariants.{Contents};
ghost use Rattle.net_script.specs.Lines.{lines, words, is_plain};
ghost use Rattle.net_script.specs.Scripts.{is_note, lines_kept, items_so_far, IsLineOf, IsScript, AddsItem, ReadsLine};
ghost use Rattle.net_script.specs.Scripts.{SpellsScript, Refuses, IsScriptFault};

use crate::commands::Commands;
use crate::items::{Item, item_by};
use crate::stop::{Stop, at_line};
use crate::trace_drafts::push;
use crate::values::{Script, Table};
use crate::words::{next_piece, next_word};
use std::alloc::Global;
use xid::{Refusal, Sequence};

/// Whether a line is a comment, or has no word.
fn is_passed_over(line: &[u8]) -> bool
    ensures { result ≡ is_note (words line.now) }
{
    for byte in line {
        if *byte != b' ' {
            return *byte == b'#';
        }
    }
    true
}

/// Whether each byte is printed ASCII.
fn has_plain_bytes(line: &[u8]) -> bool
    ensures { result ≡ list_all is_plain line.now }
{
    let mut plain = true;
    for byte in line {
        plain &= (*byte >= 32) & (*byte <= 126);
    }
    plain
}

/// Whether no table is this resource manager's.
fn is_free(tables: &[Table], rm: u8) -> bool
    ensures { result ≡ list_all (λ table. not (table.rm == rm)) tables.now }
{
    for table in tables {
        if table.rm == rm {
            return false;
        }
    }
    true
}

/// The script with one more table, if it may stand there.
fn with_table(alloc: Global, mut script: Script, table: Table) -> Result<Script, Stop>
    ensures { AddsItem (Some script) (Contents table) result }
{
    if !script.commands.is_empty() {
        return Err(Stop::Wrong);
    }
    if u32::from(table.rm) >= script.sizes.rms {
        return Err(Stop::Wrong);
    }
    if !is_free(script.tables.as_slice(), table.rm) {
        return Err(Stop::Wrong);
    }
    push(alloc, &mut script.tables, table)?;
    Ok(script)
}

/// The script so far with one more item, if it may follow.
fn with_item(alloc: Global, script: Option<Script>, item: Item) -> Result<Script, Stop>
    ensures { AddsItem script item result }
{
    let Some(mut script) = script else {
        let Item::Cluster(sizes) = item else {
            return Err(Stop::Wrong);
        };
        return Ok(Script {
            sizes,
            tables: Sequence::new(Vec::new(alloc)),
            commands: Commands::new(alloc),
        });
    };
    match item {
        Item::Cluster(_) => Err(Stop::Wrong),
        Item::Contents(table) => with_table(alloc, script, table),
        Item::Then(command) => {
            script.commands.push(alloc, command)?;
            Ok(script)
        }
    }
}

/// The script so far with what one more line says.
fn read_line(alloc: Global, script: Option<Script>, line: &[u8]) -> Result<Script, Stop>
    requires valid { ForSome script IsScript }
    ensures { ReadsLine (items_so_far script) line.now result }
{
    if !has_plain_bytes(line) {
        return Err(Stop::Wrong);
    }
    let Some((name, args)) = next_word(line) else {
        return Err(Stop::Wrong);
    };
    let item = item_by(alloc, name, args)?;
    with_item(alloc, script, item)
}

/// The script that a text spells. Refused: `BadScript` with the first line at fault, counted from 1 (where no line says
/// anything, the one after the last), and `NoMemory`.
pub fn read_script(alloc: Global, bytes: &[u8]) -> Result<Script, Refusal>
    ensures ok { IfOk result (λ s. SpellsScript bytes.now s) }
    ensures err { IfErr result (λ e. Refuses bytes.now e) }
{
    let mut script = None;
    let mut number = 0;
    let mut rest = bytes;
    while let Some((line, after)) = next_piece(rest, b'\n') {
        number += 1;
        if !is_passed_over(line) {
            let longer = at_line(number, read_line(alloc, script, line))?;
            script = Some(longer);
        }
        rest = after;
    }
    let Some(script) = script else {
        return Err(Refusal::BadScript { line: number + 1 });
    };
    Ok(script)
}

/// The number of the line, from 1, that says an item of a script, by the item's place: the cluster has place 0, then come the tables,
/// then the commands. None where no more lines than that say anything.
pub fn line_of(bytes: &[u8], place: usize) -> Option<usize>
    ensures { MatchOption result (length (lines_kept (lines bytes.now)) ≤ place) (IsLineOf bytes.now place) }
{
    let mut number = 0;
    let mut passed = 0;
    let mut rest = bytes;
    while let Some((line, after)) = next_piece(rest, b'\n') {
        number += 1;
        if !is_passed_over(line) {
            if passed == place {
                return Some(number);
            }
            passed += 1;
        }
        rest = after;
    }
    None
}

/// A text spells at most one script; one with a first line at fault spells none, and has one such line.
pub fn one_reading()
    ensures one { (bytes : List ℕ) (s t : Script) → SpellsScript bytes s → SpellsScript bytes t → s ≡ t }
    ensures apart { (bytes : List ℕ) (s : Script) (line : ℕ) → SpellsScript bytes s → IsScriptFault bytes line → ⊥ }
    ensures first { (bytes : List ℕ) (line other : ℕ) → IsScriptFault bytes line → IsScriptFault bytes other → line ≡ other }
{}
