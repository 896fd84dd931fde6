//! Records as nodes leave them, written frame by frame.
use crate::numbers::Numbers;
use std::alloc::{AllocError, Global};

/// The version of a record's frames.
#[derive(Clone, Copy, PartialEq, Eq)]
pub enum FrameVersion {
    /// Numbers of resource managers have one byte.
    First,
    /// They have two.
    Second,
}

/// How many branches each transaction has, one at each resource manager.
pub const BRANCHES: u8 = 3;

/// How many keys a branch has written.
const KEYS: u8 = 3;

/// The bytes that frames are made of.
#[derive(Drop)]
pub struct Frames {
    version: FrameVersion,
    body: Vec<u8>,
    bytes: Vec<u8>,
}

impl Frames {
    /// No frame.
    pub fn new(alloc: Global, version: FrameVersion) -> Frames {
        Frames {
            version,
            body: Vec::new(alloc),
            bytes: Vec::new(alloc),
        }
    }

    /// The bytes of all frames.
    pub fn into_bytes(self) -> Vec<u8> {
        self.bytes
    }

    /// The number of a resource manager.
    fn manager(&mut self, rm: u8) -> Result<(), AllocError> {
        if self.version == FrameVersion::Second {
            self.body.push(0)?;
        }
        self.body.push(rm)?;
        Ok(())
    }

    /// A number of four bytes.
    fn number(&mut self, number: u32) -> Result<(), AllocError> {
        self.body.extend_from_slice(&number.to_be_bytes())
    }

    /// A frame of a kind begins, with the transaction of a number.
    fn begin(&mut self, kind: u8, number: u32) -> Result<(), AllocError> {
        let version = if self.version == FrameVersion::First {
            1
        } else {
            2
        };
        self.body.clear();
        self.body.extend_from_slice(&[version, kind])?;
        self.number(1)?;
        self.body.push(14)?;
        self.body.extend_from_slice(b"payment-17")?;
        self.number(number)?;
        self.body.push(BRANCHES)?;
        for rm in 0..BRANCHES {
            self.manager(rm)?;
            self.body
                .extend_from_slice(&[2, b'b', rm.wrapping_add(b'0')])?;
        }
        Ok(())
    }

    /// The frame ends.
    fn end(&mut self) -> Result<(), AllocError> {
        let len = u32::try_from(self.body.len()).unwrap_or(0);
        self.bytes.extend_from_slice(&len.to_be_bytes())?;
        self.bytes.extend_from_slice(&self.body)
    }

    /// An acceptor accepts a vote, 1 for prepared, in a ballot of an instance.
    fn accept(&mut self, number: u32, rm: u8, ballot: u32, vote: u8) -> Result<(), AllocError> {
        self.begin(2, number)?;
        self.manager(rm)?;
        self.number(ballot)?;
        self.body.push(vote)?;
        self.end()
    }

    /// It takes part in a ballot of an instance.
    fn promise(&mut self, number: u32, rm: u8, ballot: u32) -> Result<(), AllocError> {
        self.begin(1, number)?;
        self.manager(rm)?;
        self.number(ballot)?;
        self.end()
    }

    /// A leader begins a ballot.
    fn ballot(&mut self, number: u32, ballot: u32) -> Result<(), AllocError> {
        self.begin(3, number)?;
        self.number(ballot)?;
        self.end()
    }

    /// A resource manager votes prepared, its branch having put rows of keys that no other transaction of its group holds.
    fn vote(&mut self, number: u32, numbers: &mut Numbers, keys: u32) -> Result<(), AllocError> {
        self.begin(4, number)?;
        self.body.push(KEYS)?;
        let drawn = numbers.below(keys / 32).wrapping_mul(32);
        let first = drawn.wrapping_add(number % GROUP * 4);
        for key in 0..KEYS {
            let account = first.wrapping_add(u32::from(key));
            self.body.extend_from_slice(&[9])?;
            self.body.extend_from_slice(b"acct:")?;
            self.number(account)?;
            self.body.extend_from_slice(&[1, 0, 12])?;
            self.body.extend_from_slice(b"balance=")?;
            self.number(number)?;
        }
        self.end()
    }

    /// A resource manager has learned the outcome.
    fn outcome(&mut self, number: u32, is_committed: bool) -> Result<(), AllocError> {
        self.begin(if is_committed { 6 } else { 7 }, number)?;
        self.end()
    }

    /// What an acceptor stores of a group of transactions, of which one in ten is taken over.
    fn accept_group(
        &mut self,
        numbers: &mut Numbers,
        first: u32,
        count: u32,
    ) -> Result<(), AllocError> {
        for rm in 0..BRANCHES {
            for place in 0..count {
                self.accept(first.wrapping_add(place), rm, 0, 1)?;
            }
        }
        for place in 0..count {
            if numbers.happens(10) {
                let number = first.wrapping_add(place);
                for rm in 0..BRANCHES {
                    self.promise(number, rm, 1)?;
                    self.accept(number, rm, 1, 1)?;
                }
            }
        }
        Ok(())
    }

    /// What a resource manager stores of a group of transactions, of which one in ten is aborted.
    fn vote_group(
        &mut self,
        numbers: &mut Numbers,
        first: u32,
        count: u32,
        keys: u32,
    ) -> Result<(), AllocError> {
        for place in 0..count {
            self.vote(first.wrapping_add(place), numbers, keys)?;
        }
        for place in 0..count {
            let is_committed = numbers.happens(90);
            self.outcome(first.wrapping_add(place), is_committed)?;
        }
        Ok(())
    }
}

/// The transactions of a record stand in groups of so many.
const GROUP: u32 = 8;

/// The number in the name of a record's first transaction is below this one.
const NAMES: u32 = 1 << 31;

/// The number of the first transaction of a group.
fn first_of(group: u32, base: u32) -> u32 {
    base.wrapping_add(group.wrapping_mul(GROUP))
}

/// The record of an acceptor with so many groups of transactions.
pub fn acceptor_record(
    alloc: Global,
    version: FrameVersion,
    groups: u32,
    numbers: &mut Numbers,
) -> Result<Vec<u8>, AllocError> {
    let mut frames = Frames::new(alloc, version);
    let base = numbers.below(NAMES);
    for group in 0..groups {
        frames.accept_group(numbers, first_of(group, base), GROUP)?;
    }
    Ok(frames.into_bytes())
}

/// The record of the second of two leaders with so many groups of transactions, some of which it has taken over twice.
pub fn leader_record(
    alloc: Global,
    groups: u32,
    numbers: &mut Numbers,
) -> Result<Vec<u8>, AllocError> {
    let mut frames = Frames::new(alloc, FrameVersion::Second);
    let base = numbers.below(NAMES);
    for place in 0..groups.wrapping_mul(GROUP) {
        let number = base.wrapping_add(place);
        let ballot = numbers.below(4).wrapping_mul(2).wrapping_add(2);
        frames.ballot(number, ballot)?;
        if numbers.happens(20) {
            frames.ballot(number, ballot.wrapping_add(2))?;
        }
    }
    Ok(frames.into_bytes())
}

/// The record of a resource manager with so many groups of transactions, whose keys are so many at most.
pub fn manager_record(
    alloc: Global,
    version: FrameVersion,
    groups: u32,
    keys: u32,
    numbers: &mut Numbers,
) -> Result<Vec<u8>, AllocError> {
    let mut frames = Frames::new(alloc, version);
    let base = numbers.below(NAMES);
    for group in 0..groups {
        frames.vote_group(numbers, first_of(group, base), GROUP, keys)?;
    }
    Ok(frames.into_bytes())
}
