//! How a resource manager forgets what is below a floor.

ghost use Rattle.std.specs.Prelude.{◌≡◌, ℕ, true, not, List, IfOk, IfErr, OnOk};
ghost use Rattle.std.specs.List.{IsDistinct};
ghost use Rattle.xid.specs.Transactions.{tx_eq};
ghost use Rattle.xid.specs.declared.refusals.Refusal.TheVariants.{NoMemory};
ghost use Rattle.stable_record.specs.declared.fact.FactKind.{FactKind as Fact};
ghost use Rattle.protocol.specs.Effects.{Config};
ghost use Rattle.protocol.specs.Kept.{are_free_below};
ghost use Rattle.protocol.specs.Managers.{Branch};
ghost use Rattle.protocol.specs.Nodes.{first_rows};
ghost use Rattle.protocol.specs.Tables.{table};
ghost use Rattle.resource_manager.specs.Forgetting.{AreCoursesOf, IsKept, begun_above};
ghost use Rattle.resource_manager.specs.Left.{manager_left};
ghost use Rattle.resource_manager.specs.Managers.{StandsFor};

use crate::course::Course;
use crate::courses::Courses;
use crate::manager::ResourceManager;
use crate::spent::SpentNames;
use hashing::HashKey;
use std::alloc::Global;
use wire::SpelledTx;
use xid::{Floor, ManagerNumber, Refusal};

/// Notes how far a transaction has come that wasn't seen, and that its name here is spent. Refused: `NoMemory` alone, and then it may have
/// been seen.
fn keep(
    courses: &mut Courses,
    spent: &mut SpentNames,
    tx: &SpelledTx<'_>,
    number: ManagerNumber,
    course: Course,
) -> Result<(), Refusal>
    ensures ok { OnOk result (IsKept number tx.now course courses.old courses.new spent.old spent.new) }
    ensures err { IfErr result (λ e. e ≡ NoMemory) }
{
    let place = courses.see(tx)?;
    courses.reserve()?;
    spent.reserve()?;
    courses.set(tx, place, course);
    if let Some(xid) = tx.branch(number) {
        spent.spend(&xid);
    }
    Ok(())
}

/// The courses that aren't below a floor, in the order of their first facts, and the names that their transactions spend, where none is
/// twice among those of which a fact is stored. Refused: `NoMemory` alone.
fn left_of(
    alloc: Global,
    key: HashKey,
    manager: &ResourceManager,
    floor: &Floor,
) -> Result<(Courses, SpentNames), Refusal>
    ensures ok { IfOk result (λ left. IsDistinct tx_eq manager.now.courses.begun
        → AreCoursesOf (begun_above floor.now manager.now) manager.now left.0 left.1) }
    ensures err { IfErr result (λ e. e ≡ NoMemory) }
{
    let mut courses = Courses::new(alloc, key);
    let mut spent = SpentNames::new(alloc, key.words());
    for number in manager.courses.begun() {
        let Some(tx) = manager.courses.view(*number) else {
            unreachable!();
        };
        if tx.is_below(floor) {
            continue;
        }
        let course = manager.courses.of_likely(&tx, *number);
        keep(&mut courses, &mut spent, &tx, manager.number(), course)?;
    }
    Ok((courses, spent))
}

impl ResourceManager {
    /// Whether it has a branch below a floor, prepared, active or ended. It takes no memory.
    pub fn has_branch_below(&self, floor: &Floor) -> bool
        ensures { (config : Config) (number : ℕ) (facts : List Fact) (branches : List Branch)
            → StandsFor config number self.now facts branches → result ≡ not (are_free_below floor.now facts branches) }
    {
        self.table.has_below(floor)
    }

    /// What is left of it where it forgets what is below a floor: its rows, its branches, and of the transactions those that aren't below,
    /// in the order of their first facts. Refused: `NoMemory` alone.
    pub fn above(
        self,
        alloc: Global,
        key: HashKey,
        floor: &Floor,
    ) -> Result<ResourceManager, Refusal>
        ensures ok { IfOk result (λ left. (config next : Config) (number : ℕ) (facts : List Fact) (branches : List Branch)
            → StandsFor config number self facts branches → are_free_below floor.now facts branches ≡ true
            → next.managers ≡ config.managers → first_rows next number ≡ table (first_rows config number) facts
            → StandsFor next number left (manager_left (Some floor.now) facts) branches) }
        ensures err { IfErr result (λ e. e ≡ NoMemory) }
    {
        let (courses, spent) = left_of(alloc, key, &self, floor)?;
        let ResourceManager {
            number,
            managers,
            courses: _,
            spent: _,
            table,
        } = self;
        Ok(ResourceManager {
            number,
            managers,
            courses,
            spent,
            table,
        })
    }
}
