ghost use Rattle.std.specs.Prelude.{◌≡◌, ℕ, ◌+◌, ◌<◌, ◌≤◌, ◌^◌, ◌∷◌, ◌++◌, length, take, drop};
ghost use Rattle.xid.specs.Places.{IsPlace};
ghost use Rattle.wire.specs.Versions.{version_2};
ghost use Rattle.wire.specs.Grammar.{rm_spelling};
ghost use Rattle.wire.specs.Names.{place_spelling};
ghost use Rattle.wire.specs.Notices.{IsNotice, fields_at, notice_at, notice_byte, notice_spelling};

use crate::grammar::{
    MAX_COMPONENT_BYTES, MAX_DATAGRAM, NUMBER_BYTES, RM_BYTES, VERSION, VersionNumber,
};
use crate::reading::{take_end, take_name, take_rm};
use crate::writing::{put_byte, put_component, put_number, put_rm};
use xid::{Floor, ManagerNumber};

/// The number of its kind, which no message has.
const KIND: u8 = 13;

/// How many bytes stand in front of the floor: version, kind and the manager's number.
const HEAD_BYTES: usize = 2 + RM_BYTES;

/// How many bytes a floor has at most: its format and its gtrid.
const MAX_PLACE_BYTES: usize = NUMBER_BYTES + MAX_COMPONENT_BYTES;

/// How many bytes a notice has at most.
pub const MAX_NOTICE_BYTES: usize = HEAD_BYTES + MAX_PLACE_BYTES;

/// What a resource manager tells: its floor. It is no message, and is read beside the messages.
#[derive(Clone, Copy, Debug)]
pub struct Notice {
    /// Who tells it.
    pub manager: ManagerNumber,
    /// What stands below it is forgotten there.
    pub floor: Floor,
}

/// The manager's number and the floor, where nothing follows these.
#[tactic(auto, unfolding(crate::specs::Notices::fields_at))]
fn take_fields(bytes: &[u8]) -> Option<Notice>
    ensures { result ≡ fields_at bytes.now }
{
    let (manager, rest) = take_rm(VersionNumber::Second, bytes)?;
    let (format, gtrid, rest) = take_name(rest)?;
    take_end(rest)?;
    let floor = Floor::new(format, gtrid);
    Some(Notice { manager, floor })
}

/// Puts what stands in front of the floor at the front of `out`: version, kind and the manager's number.
fn put_head(manager: ManagerNumber, out: &mut [u8]) -> usize
    requires room { HEAD_BYTES ≤ length out.old }
    ensures end { result ≡ HEAD_BYTES }
    ensures shown { take result out.new ≡ version_2.byte ∷ notice_byte ∷ rm_spelling version_2 manager }
    ensures rest { (n : ℕ) → result ≤ n → drop n out.new ≡ drop n out.old }
    ensures valid { manager < 2 ^ 16 }
{
    let at = put_byte(out, 0, VERSION);
    let at = put_byte(out, at, KIND);
    put_rm(out, at, manager)
}

/// Puts a floor's format and gtrid at a place, as a name begins, and answers the place after it.
fn put_place(floor: &Floor, out: &mut [u8], at: usize) -> usize
    requires room { at + MAX_PLACE_BYTES ≤ length out.old }
    ensures end { result ≡ at + length (place_spelling floor.now) }
    ensures few { result ≤ at + MAX_PLACE_BYTES }
    ensures shown { take result out.new ≡ take at out.old ++ place_spelling floor.now }
    ensures rest { (n : ℕ) → result ≤ n → drop n out.new ≡ drop n out.old }
    ensures valid { IsPlace floor.now }
{
    let at = put_number(out, at, floor.format());
    put_component(out, at, floor.gtrid())
}

impl Notice {
    /// The notice that these bytes spell. None where they spell none.
    #[tactic(auto, unfolding(crate::specs::Notices::notice_at))]
    pub fn take(bytes: &[u8]) -> Option<Notice>
        ensures { result ≡ notice_at bytes.now }
    {
        let [VERSION, KIND, rest @ ..] = bytes else {
            return None;
        };
        take_fields(rest)
    }

    /// Spells it at the front of `out`, and answers how many bytes its spelling has. What follows it stays.
    pub fn encode(&self, out: &mut [u8; MAX_DATAGRAM]) -> usize
        ensures few { result ≤ MAX_NOTICE_BYTES }
        ensures len { result ≡ length (notice_spelling self.now) }
        ensures spells { take result out.new ≡ notice_spelling self.now }
        ensures rest { drop result out.new ≡ drop result out.old }
        ensures valid { IsNotice self.now }
    {
        let at = put_head(self.manager, out);
        put_place(&self.floor, out, at)
    }
}
