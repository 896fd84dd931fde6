//! The views of resource managers, page by page.

ghost use Rattle.std.specs.Prelude.{◌≡◌, ℕ};
ghost use Rattle.protocol.specs.declared.states.View.TheVariants.{Working};
ghost use Rattle.picture.specs.Order.{Ascend};
ghost use Rattle.picture.specs.Passing.{AreBefore, HavePassed, changed, view_of};

use crate::rows::{Row, What};
use protocol::View;

/// How many resource managers rows can name.
const NAMED: usize = 256;

/// Before all rows, each resource manager is working.
fn first_views() -> [View; NAMED]
    ensures { (rm : ℕ) → view_of result rm ≡ Working }
{
    [View::Working; NAMED]
}

/// The views after a row more.
fn change_view(views: &mut [View; NAMED], row: &Row)
    ensures { (rm : ℕ) → view_of views.new rm ≡ changed rm (view_of views.old rm) row.now }
{
    match row.what {
        What::Changes { rm, view } => views[usize::from(rm)] = view,
        What::At { .. }
        | What::Delivers { .. }
        | What::Loses { .. }
        | What::Misses
        | What::Sends { .. } => {}
    }
}

/// The views of the resource managers, while rows pass.
#[derive(Drop)]
pub(crate) struct Views<'a> {
    rows: &'a [Row],
    /// How many of the rows have passed.
    place: usize,
    /// The view of each resource manager after these.
    views: [View; NAMED],
}

impl<'a> Views<'a> {
    /// No row has passed.
    pub(crate) fn new(rows: &'a [Row]) -> Views<'a>
        requires { Ascend 0 rows.now }
        ensures rows { result.rows ≡ rows.entry }
        ensures passed { (line : ℕ) → HavePassed result line }
    {
        Views {
            rows,
            place: 0,
            views: first_views(),
        }
    }

    /// Lets the rows before a line pass; those that have passed are before it already.
    pub(crate) fn pass(&mut self, line: u32)
        requires { HavePassed self.old line }
        ensures rows { self.new.rows ≡ self.old.rows }
        ensures passed { HavePassed self.new line }
        ensures before { AreBefore self.new line }
    {
        while self.place < self.rows.len() {
            let row = &self.rows[self.place];
            if row.line >= line {
                return;
            }
            change_view(&mut self.views, row);
            self.place += 1;
        }
    }

    /// The view of a resource manager.
    pub(crate) fn view_of(&self, rm: u32) -> View
        ensures { result ≡ view_of self.now.views rm }
    {
        self.views
            .get(rm as usize)
            .copied()
            .unwrap_or(View::Working)
    }
}
