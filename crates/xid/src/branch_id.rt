ghost use Rattle.std.specs.Prelude.{◌≡◌, ◌≢◌, ℕ, ◌≤◌, ◌<◌, ◌↔◌, MatchOption, ◌++◌, ◌-◌, ◌+◌};
ghost use Rattle.std.specs.Prelude.{List, length, take, drop, replicate, IsTrue, IfOk, IfErr, OnOk, pos};
ghost use Rattle.std.specs.Cmp.{partial_order_from_own_ties};
ghost use Rattle.std.specs.Cmp.Rules.{comparing};
ghost use Rattle.std.specs.Ordering.{as_partial_cmp};
ghost use Rattle.std.proofs.Common.{rules};
ghost use Rattle.xid.specs.Names.{XidParts, IsXid, IsComponent, xid_cmp};
ghost use Rattle.xid.specs.Text.{xid_text, Extends};
ghost use Rattle.xid.specs.declared.refusals.Refusal.TheVariants.{BadXid, NoMemory};

use crate::component::Component;
use crate::limits::{FORMATS, MAX_COMPONENT};
use crate::refusals::Refusal;
use crate::text;
use std::cmp::Ordering;
use std::marker::Model;

/// The name of a transaction branch: a format, a gtrid and a bqual.
#[derive(Clone, Copy, Debug, PartialEq, Eq, Hash)]
pub struct Xid {
    format: u32,
    gtrid: Component,
    bqual: Component,
}

impl Model for Xid {
    ghost use Rattle.xid.specs.Names.{XidParts, IsXid};

    ghost Value = { XidParts };

    ghost view = { λ x. record { format = x.format; gtrid = x.gtrid; bqual = x.bqual } };

    ghost invariant = { λ x. IsXid (record { format = x.format; gtrid = x.gtrid; bqual = x.bqual }) };

    ghost inverse = { λ x. record { format = x.format; gtrid = x.gtrid; bqual = x.bqual } };
}

impl Xid {
    /// The XID of these parts. Refused (`BadXid`): a format below 0 (the null XID's -1 among them) or above 2^31-1,
    /// and a gtrid or bqual without bytes or with more than 64. Then there is no XID.
    pub fn new(format: i64, gtrid: &[u8], bqual: &[u8]) -> Result<Xid, Refusal>
        ensures ok { IfOk result (λ x. IsXid x × (format ≡ pos x.format) × (x.gtrid ≡ gtrid.now) × (x.bqual ≡ bqual.now)) }
        ensures err { IfErr result (λ e. (e ≡ BadXid) × ((x : XidParts) → IsXid x → format ≡ pos x.format
            → x.gtrid ≡ gtrid.now → x.bqual ≡ bqual.now → ⊥)) }
    {
        let Ok(format) = u32::try_from(format) else {
            return Err(Refusal::BadXid);
        };
        if format >= FORMATS || !is_component(gtrid) || !is_component(bqual) {
            return Err(Refusal::BadXid);
        }
        Ok(Xid {
            format,
            gtrid: Component::new(gtrid),
            bqual: Component::new(bqual),
        })
    }

    /// The XID of components.
    pub(crate) fn of(format: u32, gtrid: Component, bqual: Component) -> Xid
        requires { IsXid (record { format = format; gtrid = gtrid; bqual = bqual }) }
        ensures { result ≡ record { format = format; gtrid = gtrid; bqual = bqual } }
    {
        Xid {
            format,
            gtrid,
            bqual,
        }
    }

    /// Its format, 0 to 2^31-1.
    pub fn format(&self) -> u32
        ensures value { result ≡ self.now.format }
        ensures valid { IsXid self.now }
    {
        self.format
    }

    /// Its gtrid, 1 to 64 bytes.
    pub fn gtrid(&self) -> &[u8]
        ensures value { result.now ≡ self.now.gtrid }
        ensures valid { IsXid self.now }
    {
        self.gtrid.as_bytes()
    }

    /// Its bqual, 1 to 64 bytes.
    pub fn bqual(&self) -> &[u8]
        ensures value { result.now ≡ self.now.bqual }
        ensures valid { IsXid self.now }
    {
        self.bqual.as_bytes()
    }

    /// Its data area, as X/Open XA lays it out: the gtrid, then the bqual; what is left is zero.
    pub fn area(&self) -> [u8; 128]
        ensures { result ≡ self.now.gtrid ++ self.now.bqual
            ++ replicate (128 - (length self.now.gtrid + length self.now.bqual)) 0 }
    {
        let gtrid = self.gtrid.as_bytes();
        let bqual = self.bqual.as_bytes();
        let mut area = [0; 2 * MAX_COMPONENT];
        put_at(&mut area, 0, gtrid);
        put_at(&mut area, gtrid.len(), bqual);
        area
    }

    /// The XID whose text this is, as `1:7431:6231`. Every other text is refused (`BadXid`), and nothing is made of it.
    pub fn read(text: &[u8]) -> Result<Xid, Refusal>
        ensures ok { IfOk result (λ x. IsXid x × (text.now ≡ xid_text x)) }
        ensures err { IfErr result (λ e. (e ≡ BadXid) × ((x : XidParts) → IsXid x → text.now ≢ xid_text x)) }
    {
        parts_of(text).ok_or(Refusal::BadXid)
    }

    /// Writes its text at the end. At `NoMemory`, the only refusal, the content is as it was.
    pub fn write(&self, out: &mut Vec<u8>) -> Result<(), Refusal>
        ensures valid { IsXid self.now }
        ensures ok { OnOk result (out.new.items ≡ out.old.items ++ xid_text self.now) }
        ensures err { IfErr result (λ e. (e ≡ NoMemory) × (out.new.items ≡ out.old.items)) }
    {
        let before = out.len();
        match self.put(out) {
            Ok(()) => Ok(()),
            Err(refusal) => {
                out.truncate(before);
                Err(refusal)
            }
        }
    }

    /// Writes its text at the end. At `NoMemory`, the only refusal, there may be a beginning of it.
    fn put(&self, out: &mut Vec<u8>) -> Result<(), Refusal>
        ensures valid { IsXid self.now }
        ensures ok { OnOk result (out.new.items ≡ out.old.items ++ xid_text self.now) }
        ensures err { IfErr result (λ e. e ≡ NoMemory) }
        ensures kept { Extends out.old.items out.new.items }
    {
        text::put_number(self.format, out)?;
        out.push(b':')?;
        text::put_hex(self.gtrid.as_bytes(), out)?;
        out.push(b':')?;
        text::put_hex(self.bqual.as_bytes(), out)
    }
}

impl Ord for Xid {
    ghost use Rattle.xid.specs.Comparing.{xid_ties};

    ghost cmp = { xid_cmp };

    ghost total = { Prim.search (comparing, rules) };

    ghost matches_partial_cmp = { Prim.search (comparing, rules) };

    ghost matches_eq = { xid_ties };

    fn cmp(&self, other: &Xid) -> Ordering {
        self.format
            .cmp(&other.format)
            .then(self.gtrid.cmp(&other.gtrid))
            .then(self.bqual.cmp(&other.bqual))
    }
}

impl PartialOrd for Xid {
    ghost use Rattle.xid.specs.Comparing.{xid_ties};

    ghost partial_cmp = { as_partial_cmp xid_cmp };

    ghost laws = { partial_order_from_own_ties (Prim.search (comparing, rules)) xid_ties };

    fn partial_cmp(&self, other: &Xid) -> Option<Ordering> {
        Some(self.cmp(other))
    }
}

/// Puts bytes at a place.
fn put_at(area: &mut [u8], at: usize, bytes: &[u8])
    requires { at + length bytes.now ≤ length area.old }
    ensures { area.new ≡ take at area.old ++ bytes.now ++ drop (at + length bytes.now) area.old }
{
    area[at..at + bytes.len()].copy_from_slice(bytes);
}

pub(crate) fn is_component(bytes: &[u8]) -> bool
    ensures { IsTrue result ↔ IsComponent bytes.now }
{
    (1..=MAX_COMPONENT).contains(&bytes.len())
}

/// The XID whose text this is.
fn parts_of(text: &[u8]) -> Option<Xid>
    ensures { MatchOption result ((x : XidParts) → IsXid x → text.now ≢ xid_text x)
        (λ x. IsXid x × (text.now ≡ xid_text x)) }
{
    let Some((format, names)) = text::split_once(text, b':') else {
        return None;
    };
    let Some((gtrid, bqual)) = text::split_once(names, b':') else {
        return None;
    };
    let Some(format) = text::number(format) else {
        return None;
    };
    if format >= FORMATS {
        return None;
    }
    let Some(gtrid) = text::component(gtrid) else {
        return None;
    };
    let Some(bqual) = text::component(bqual) else {
        return None;
    };
    Some(Xid {
        format,
        gtrid,
        bqual,
    })
}
