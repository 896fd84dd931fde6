ghost use Rattle.std.specs.Prelude.{◌≡◌, ℕ, ◌++◌, ◌∷◌, List, OnOk, codes};
ghost use Rattle.net_script.specs.Items.{rows_words};
ghost use Rattle.net_script.specs.Traces.{line_text, spaced_words};
ghost use Rattle.serving.specs.Groups.{reply_line};

use itoa::Buffer;
use net_script::{put_answer, put_floor, put_node, put_rows, put_tx};
use protocol::{Answer, NodeId, Row};
use std::alloc::Global;
use xid::{Floor, Refusal, Tx};

/// What a node's process has counted.
#[derive(Clone, Copy, Debug, Default, PartialEq, Eq)]
pub struct Counts {
    /// How many bytes the record has.
    pub record: u64,
    /// How many bytes of memory the process has.
    pub memory: u64,
    /// Of how many transactions something is kept.
    pub kept: u64,
    /// How many groups of inputs were handled.
    pub groups: u64,
    /// How many of these changed the record: as many appends there were.
    pub appends: u64,
    /// How many datagrams came, well signed.
    pub taken: u64,
    /// How many datagrams were sent.
    pub sent: u64,
    /// How many datagrams were dropped for their signature.
    pub dropped: u64,
    /// How often the port failed.
    pub port_faults: u64,
    /// How often the record failed.
    pub record_faults: u64,
    /// How many clients there are.
    pub clients: u64,
}

/// Puts words, each of which has a space before it, as a line without the first space.
fn put_words(out: &mut Vec<u8>, words: &[u8]) -> Result<(), Refusal>
    ensures { OnOk result ((list : List (List ℕ)) → words.now ≡ spaced_words list → out.new.items ≡ out.old.items ++ line_text list) }
{
    out.extend_from_slice(words.strip_prefix(b" ".as_slice()).unwrap_or(words))?;
    out.push(b'\n')?;
    Ok(())
}

/// Puts the line of an answer after what stands in `out`. The only refusal is `NoMemory`.
pub fn put_reply(alloc: Global, out: &mut Vec<u8>, answer: &Answer) -> Result<(), Refusal>
    ensures { OnOk result (out.new.items ≡ out.old.items ++ reply_line answer.now) }
{
    let mut words = Vec::new(alloc);
    put_answer(&mut words, answer)?;
    put_words(out, &words)
}

/// Puts the line of a table's rows: `rows`, and each row as in a trace's last lines. The only refusal is `NoMemory`.
pub fn put_table(alloc: Global, out: &mut Vec<u8>, rows: &[Row]) -> Result<(), Refusal>
    ensures { OnOk result (out.new.items ≡ out.old.items ++ line_text (codes "rows" ∷ rows_words rows.now)) }
{
    let mut words = Vec::from_slice(alloc, b" rows")?;
    put_rows(&mut words, rows)?;
    put_words(out, &words)
}

/// A number, after a space.
fn put_number(out: &mut Vec<u8>, number: u64) -> Result<(), Refusal> {
    let mut digits = Buffer::new();
    out.push(b' ')?;
    out.extend_from_slice(digits.format(number).as_bytes())?;
    Ok(())
}

/// Puts the line of the transactions that aren't final: `open`, and each with its age in milliseconds. The only refusal is `NoMemory`.
pub fn put_open(alloc: Global, out: &mut Vec<u8>, open: &[(Tx, u64)]) -> Result<(), Refusal> {
    let mut words = Vec::from_slice(alloc, b" open")?;
    for (tx, age) in open {
        put_tx(&mut words, tx)?;
        put_number(&mut words, *age)?;
    }
    put_words(out, &words)
}

/// A count under its name, after a space.
fn put_count(out: &mut Vec<u8>, name: &[u8], count: u64) -> Result<(), Refusal> {
    out.push(b' ')?;
    out.extend_from_slice(name)?;
    put_number(out, count)
}

/// A place in the order of names under its name, after a space, if there is one.
fn put_place(out: &mut Vec<u8>, name: &[u8], place: &Option<Floor>) -> Result<(), Refusal> {
    let Some(place) = place else {
        return Ok(());
    };
    out.push(b' ')?;
    out.extend_from_slice(name)?;
    put_floor(out, place)
}

/// Puts the line that says how a node is: `info`, its name, each count under its name, `floor` with its floor, if it has one, and `rise`
/// with the place to which that may rise, if it is said. The only refusal is `NoMemory`.
pub fn put_info(
    alloc: Global,
    out: &mut Vec<u8>,
    who: NodeId,
    counts: &Counts,
    floor: &Option<Floor>,
    rise: &Option<Floor>,
) -> Result<(), Refusal> {
    let mut words = Vec::from_slice(alloc, b" info")?;
    put_node(&mut words, who)?;
    put_count(&mut words, b"record", counts.record)?;
    put_count(&mut words, b"memory", counts.memory)?;
    put_count(&mut words, b"kept", counts.kept)?;
    put_count(&mut words, b"groups", counts.groups)?;
    put_count(&mut words, b"appends", counts.appends)?;
    put_count(&mut words, b"in", counts.taken)?;
    put_count(&mut words, b"out", counts.sent)?;
    put_count(&mut words, b"dropped", counts.dropped)?;
    put_count(&mut words, b"port-faults", counts.port_faults)?;
    put_count(&mut words, b"record-faults", counts.record_faults)?;
    put_count(&mut words, b"clients", counts.clients)?;
    put_place(&mut words, b"floor", floor)?;
    put_place(&mut words, b"rise", rise)?;
    put_words(out, &words)
}
