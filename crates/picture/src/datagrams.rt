//! The rows in which datagrams are sent, taken and lost, by their numbers. A notice is a datagram here, with a number behind all theirs.

ghost use Rattle.std.specs.Prelude.{◌≡◌, ℕ, [], ◌∷◌, find, IfOk, IfErr, OnOk};
ghost use Rattle.std.specs.BTreeMap.{get};
ghost use Rattle.std.specs.List.{list_any};
ghost use Rattle.std.specs.Option.{option_copied, option_or};
ghost use Rattle.std.specs.Ordering.{nat_cmp};
ghost use Rattle.xid.specs.declared.refusals.Refusal.TheVariants.{NoMemory};
ghost use Rattle.picture.specs.Datagrams.{AreFirst, earlier, has_number, number_in};
ghost use Rattle.picture.specs.Drawing.{is_sent, settles, takes};
ghost use Rattle.picture.specs.Order.{Ascend};

use crate::rows::{Row, What};
use std::alloc::Global;
use std::collections::BTreeMap;
use std::marker::Model;
use xid::Refusal;

/// What a row does with a datagram.
#[derive(Clone, Copy, Debug)]
pub(crate) enum Role {
    /// It sends it.
    Sent,
    /// It takes it.
    Taken,
    /// It loses it.
    Lost,
}

/// The number of the datagram with which a row does this, if there is one.
fn number_in(role: Role, row: &Row) -> Option<u64>
    ensures { result ≡ number_in role row.now }
{
    match (role, row.what) {
        (Role::Sent, What::Sends { number, .. })
        | (
            Role::Taken,
            What::Delivers {
                number,
                is_taken: true,
                ..
            },
        )
        | (Role::Lost, What::Loses { number }) => Some(number),
        _ => None,
    }
}

/// Keeps a row, if it is the first that does this with its datagram.
fn keep_first<'a>(
    firsts: &mut BTreeMap<u64, &'a Row>,
    role: Role,
    row: &'a Row,
) -> Result<(), Refusal>
    ensures ok { OnOk result ((number : ℕ) → option_copied (get nat_cmp firsts.new number)
        ≡ option_or (option_copied (get nat_cmp firsts.old number)) (find (has_number role number) (row.now ∷ []))) }
    ensures err { IfErr result (λ e. e ≡ NoMemory) }
{
    let Some(number) = number_in(role, row) else {
        return Ok(());
    };
    if !firsts.contains_key(&number) {
        firsts.insert(number, row)?;
    }
    Ok(())
}

/// For each datagram the first row that does this with it. The only refusal is `NoMemory`.
fn first_rows<'a>(
    alloc: Global,
    role: Role,
    rows: &'a [Row],
) -> Result<BTreeMap<u64, &'a Row>, Refusal>
    ensures ok { IfOk result (AreFirst role rows.now) }
    ensures err { IfErr result (λ e. e ≡ NoMemory) }
{
    let mut firsts = BTreeMap::new(alloc);
    for row in rows {
        keep_first(&mut firsts, role, row)?;
    }
    Ok(firsts)
}

/// The rows of a trace, with the first that send, take and lose each datagram.
#[derive(Drop)]
pub(crate) struct IndexedRows<'a> {
    rows: &'a [Row],
    sent: BTreeMap<u64, &'a Row>,
    taken: BTreeMap<u64, &'a Row>,
    lost: BTreeMap<u64, &'a Row>,
}

impl<'a> Model for IndexedRows<'a> {
    ghost use Rattle.std.specs.Prelude.{List};
    ghost use Rattle.picture.specs.declared.rows.Row.{Row};
    ghost use Rattle.picture.specs.Datagrams.{AreIndexed};

    ghost Value = { List Row };

    ghost view = { λ a. a.rows.now };

    ghost invariant = { λ a. AreIndexed a.rows.now a.sent a.taken a.lost };
}

/// A row, if there is one and it is before a line.
fn earlier<'a>(line: u32, row: Option<&&'a Row>) -> Option<&'a Row>
    ensures { option_copied result ≡ earlier line (option_copied (option_copied row.entry)) }
{
    let row = *row?;
    if row.line < line { Some(row) } else { None }
}

impl<'a> IndexedRows<'a> {
    /// Looks through all rows. The only refusal is `NoMemory`.
    pub(crate) fn new(alloc: Global, rows: &'a [Row]) -> Result<IndexedRows<'a>, Refusal>
        requires { Ascend 0 rows.now }
        ensures ok { IfOk result (λ indexed. indexed ≡ rows.entry.now) }
        ensures err { IfErr result (λ e. e ≡ NoMemory) }
    {
        Ok(IndexedRows {
            rows,
            sent: first_rows(alloc, Role::Sent, rows)?,
            taken: first_rows(alloc, Role::Taken, rows)?,
            lost: first_rows(alloc, Role::Lost, rows)?,
        })
    }

    /// All rows, in their order.
    pub(crate) fn as_slice(&self) -> &'a [Row]
        ensures { result.now ≡ self.now }
    {
        self.rows
    }

    /// The row of the datagram of this number, sent before a line.
    pub(crate) fn find_sent(&self, number: u64, line: u32) -> Option<&'a Row>
        ensures { option_copied result ≡ find (is_sent number line) self.now }
    {
        earlier(line, self.sent.get(&number))
    }

    /// Whether the datagram of this number was taken before a line.
    pub(crate) fn is_taken_before(&self, number: u64, line: u32) -> bool
        ensures { result ≡ list_any (takes number line) self.now }
    {
        earlier(line, self.taken.get(&number)).is_some()
    }

    /// Whether the datagram of this number is taken or lost.
    pub(crate) fn is_settled(&self, number: u64) -> bool
        ensures { result ≡ list_any (settles number) self.now }
    {
        self.taken.contains_key(&number) || self.lost.contains_key(&number)
    }
}
