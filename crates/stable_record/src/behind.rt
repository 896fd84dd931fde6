//! A record behind a floor's frame.

ghost use Rattle.std.specs.Prelude.{◌≡◌, ◌≤◌, ◌++◌, true, Some, length, drop, IfOk, IfErr, OnOk};
ghost use Rattle.xid.specs.Names.{IsBytes};
ghost use Rattle.xid.specs.Places.{IsPlace};
ghost use Rattle.stable_record.specs.declared.record.RecordError.TheVariants.{Memory};
ghost use Rattle.stable_record.specs.Held.{HasRead};
ghost use Rattle.stable_record.specs.Floors.{floor_frame, floor_of, front_of};
ghost use Rattle.stable_record.specs.Behind.{BeginsWith, HasLearned, HasRisen, IsFloor, IsTakenUp, behind};

use crate::floor_frame::{front_len, put_floor, take_floor};
use crate::record::{Record, RecordError, Tear};
use std::alloc::{AllocError, Global};
use std::marker::Model;
use xid::Floor;

/// A record as it stands behind the frame of a floor: it holds what follows that frame, and each of its calls but `raise` leaves the frame
/// in front. Where there is no floor, it is the record beneath. Once a replacement that was to raise the floor has failed, which one it has
/// isn't known until it is read again; until then it is neither appended to nor cut nor replaced, as where memory runs out.
pub struct Behind<R: Record> {
    alloc: Global,
    device: R,
    /// The floor, where it is known.
    floor: Option<Floor>,
    is_known: bool,
}

// written once: a derived one would stand in each function that lets a record go
impl<R: Record + Drop> Drop for Behind<R> {
    fn drop(self) {
        let Behind {
            alloc: _,
            device: _,
            floor: _,
            is_known: _,
        } = self;
    }
}

impl<R: Record> Model for Behind<R> {
    ghost use Rattle.stable_record.specs.Behind.{BehindParts, IsFronted, standing_behind};

    ghost Value = { BehindParts };

    ghost view = { λ b. standing_behind b.is_known b.floor (R.held b.device) };

    ghost invariant = { λ b. IsFronted b.is_known b.floor (R.held b.device).bytes };
}

/// Bytes without the first so many.
fn without_front(bytes: Vec<u8>, front: usize) -> Vec<u8>
    requires { front ≤ length bytes.items }
    ensures { result.items ≡ drop front bytes.items }
{
    let mut bytes = bytes;
    let len = bytes.len() - front;
    bytes.rotate_left(front);
    bytes.truncate(len);
    bytes
}

/// Puts a floor's frame, and bytes behind it, at the end. Refused: memory ran out, and then there may be a beginning of them.
fn put_framed(out: &mut Vec<u8>, floor: &Floor, bytes: &[u8]) -> Result<(), AllocError>
    ensures put { OnOk result (out.new.items ≡ out.old.items ++ (floor_frame floor.now ++ bytes.now)) }
    ensures valid { OnOk result (IsPlace floor.now) }
    ensures are_bytes { OnOk result (IsBytes out.new.items) }
{
    put_floor(out, floor)?;
    out.extend_from_slice(bytes)?;
    Ok(())
}

/// A floor's frame, and bytes behind it.
fn framed(alloc: Global, floor: &Floor, bytes: &[u8]) -> Result<Vec<u8>, AllocError>
    ensures all { IfOk result (λ all. all.items ≡ floor_frame floor.now ++ bytes.now) }
    ensures valid { OnOk result (IsPlace floor.now) }
    ensures are_bytes { IfOk result (λ all. IsBytes all.items) }
{
    let mut all = Vec::new(alloc);
    put_framed(&mut all, floor, bytes)?;
    Ok(all)
}

/// The floor that a record's bytes begin with, if they begin with one.
fn floor_in(bytes: &[u8]) -> Option<Floor>
    ensures floor { result ≡ floor_of bytes.now }
    ensures begins { BeginsWith (front_of (floor_of bytes.now)) bytes.now }
    ensures are_bytes { IsBytes bytes.now }
    ensures valid { IsFloor (floor_of bytes.now) }
{
    match take_floor(bytes) {
        Some((floor, _)) => Some(floor),
        None => None,
    }
}

impl<R: Record> Behind<R> {
    /// The record behind the floor that it begins with; where it begins with none, the record as it is. Refused, with the record, whose
    /// bytes stay: it couldn't be read.
    pub fn open(alloc: Global, device: R) -> Result<Behind<R>, (R, RecordError)>
        ensures ok { IfOk result (λ b. IsTakenUp (R.held device) b) }
        ensures err { IfErr result (λ x. HasRead {T = Unit {0}} (R.held device) (R.held x.0) (Err x.1)) }
    {
        let mut device = device;
        let floor = match device.read(alloc) {
            Ok(bytes) => floor_in(&bytes),
            Err(error) => return Err((device, error)),
        };
        Ok(Behind {
            alloc,
            device,
            floor,
            is_known: true,
        })
    }

    /// Its floor, if it has one, where it is known.
    pub fn floor(&self) -> Option<Floor>
        ensures { self.now.is_known ≡ true → result ≡ self.now.floor }
    {
        self.floor
    }

    /// Its floor, if it has one: where it isn't known, its bytes are read. Refused as a read is, and then it is as that leaves it.
    pub fn learn(&mut self) -> Result<Option<Floor>, RecordError>
        ensures { HasLearned self.old self.new result }
    {
        if self.is_known {
            return Ok(self.floor);
        }
        let bytes = self.device.read(self.alloc)?;
        self.floor = floor_in(&bytes);
        self.is_known = true;
        Ok(self.floor)
    }

    /// Puts a floor's frame, and bytes behind it, in the place of all bytes, by one replacement. Where it answers `Fault`, it holds what it
    /// held, or these; which, and so which floor it has, is known when it is read again.
    pub fn raise(&mut self, floor: &Floor, bytes: &[u8]) -> Result<(), RecordError>
        ensures { HasRisen floor.now bytes.now self.old self.new result }
    {
        if !self.is_known {
            return Err(RecordError::Memory);
        }
        let all = framed(self.alloc, floor, bytes)?;
        match self.device.replace(&all) {
            Ok(()) => {
                self.floor = Some(*floor);
                Ok(())
            }
            Err(RecordError::Fault) => {
                self.is_known = false;
                Err(RecordError::Fault)
            }
            Err(RecordError::Memory) => Err(RecordError::Memory),
        }
    }

    /// The record beneath, which begins with the floor's frame.
    pub fn into_inner(self) -> R
        ensures held { behind (front_of self.floor) (R.held result) ≡ self.held }
        ensures bytes { (R.held result).bytes ≡ front_of self.floor ++ self.held.bytes }
    {
        let Behind {
            alloc: _,
            device,
            floor: _,
            is_known: _,
        } = self;
        device
    }
}

impl<R: Record> Record for Behind<R> {
    ghost held = { λ b. b.held };

    fn read(&mut self, alloc: Global) -> Result<Vec<u8>, RecordError> {
        let bytes = self.device.read(alloc)?;
        if !self.is_known {
            self.floor = floor_in(&bytes);
            self.is_known = true;
        }
        Ok(without_front(bytes, front_len(&self.floor)))
    }

    fn append(&mut self, bytes: &[u8]) -> Result<(), RecordError> {
        if !self.is_known {
            return Err(RecordError::Memory);
        }
        self.device.append(bytes)
    }

    fn cut(&mut self, len: usize) -> Result<(), RecordError> {
        if !self.is_known {
            return Err(RecordError::Memory);
        }
        // no record has so many bytes
        match len.checked_add(front_len(&self.floor)) {
            Some(len) => self.device.cut(len),
            None => Err(RecordError::Memory),
        }
    }

    fn replace(&mut self, bytes: &[u8]) -> Result<(), RecordError> {
        if !self.is_known {
            return Err(RecordError::Memory);
        }
        match &self.floor {
            Some(floor) => {
                let all = framed(self.alloc, floor, bytes)?;
                self.device.replace(&all)
            }
            None => self.device.replace(bytes),
        }
    }

    fn kept(&self) -> usize {
        self.device.kept()
    }

    fn faults(&self) -> u64 {
        self.device.faults()
    }

    fn is_armed(&self) -> bool {
        self.device.is_armed()
    }
}

impl<R: Tear> Tear for Behind<R> {
    fn arm(&mut self, n: usize) {
        self.device.arm(n);
    }
}
