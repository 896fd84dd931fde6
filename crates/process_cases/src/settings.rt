//! How the process of a node begins.

use case_lines::{Stop, words};
use hashing::HashKey;
use node_process::Desk;
use protocol::NodeId;
use serving::{Lock, Schedule, Terms, Times};
use std::alloc::Global;
use std::time::{Duration, Instant};

/// What is said of a process beside its cluster.
#[derive(Drop)]
pub struct Setting {
    ask: u64,
    idle: u64,
    key: Option<[u8; 32]>,
    digest: Vec<u8>,
    times: Option<Times>,
    is_beside: bool,
}

/// The 32 bytes of a key.
fn key_of(alloc: Global, word: &[u8]) -> Result<[u8; 32], Stop> {
    let bytes = words::bytes(alloc, word)?;
    if bytes.len() != 32 {
        return Err(Stop::Unread);
    }
    let mut key = [0; 32];
    key.copy_from_slice(&bytes);
    Ok(key)
}

/// How names stand in time: the format, for how long they are kept, and how far they may be ahead, as 1:600000:60000.
fn times_of(word: &[u8]) -> Result<Times, Stop> {
    let (format, word) = words::cut_at(word, b':')?;
    let (keep, ahead) = words::cut_at(word, b':')?;
    Ok(Times {
        format: words::number(format)?,
        ahead: u64::from(words::number(ahead)?),
        keep: Some(u64::from(words::number(keep)?)),
    })
}

impl Setting {
    /// What words say: `ask=`, `idle=`, `key=`, `digest=`, `timed=` and `beside=yes`. What isn't said is as in a cluster's file.
    pub fn read(alloc: Global, rest: &[u8]) -> Result<Setting, Stop> {
        let mut setting = Setting {
            ask: 200,
            idle: 60_000,
            key: None,
            digest: Vec::new(alloc),
            times: None,
            is_beside: false,
        };
        for word in rest.split(|byte| *byte == b' ') {
            if !word.is_empty() {
                setting.set(alloc, word)?;
            }
        }
        Ok(setting)
    }

    /// What a word says is so.
    fn set(&mut self, alloc: Global, word: &[u8]) -> Result<(), Stop> {
        let (name, value) = words::cut_at(word, b'=')?;
        match name {
            b"ask" => self.ask = u64::from(words::number(value)?),
            b"idle" => self.idle = u64::from(words::number(value)?),
            b"key" => self.key = Some(key_of(alloc, value)?),
            b"digest" => self.digest = words::bytes(alloc, value)?,
            b"timed" => self.times = Some(times_of(value)?),
            b"beside" => self.is_beside = value == b"yes".as_slice(),
            _ => return Err(Stop::Unread),
        }
        Ok(())
    }

    /// What its clients have to prove, if they do.
    fn lock(&self, alloc: Global, name: &[u8]) -> Result<Option<Lock>, Stop> {
        match self.key {
            Some(key) => Ok(Some(Lock::new(alloc, key, name, &self.digest)?)),
            None => Ok(None),
        }
    }

    /// When it asks after a transaction.
    fn schedule(&self, who: NodeId) -> Schedule {
        match who {
            NodeId::L(leader) => Schedule {
                first: self.ask.saturating_mul(u64::from(leader) + 1),
            },
            NodeId::A(_) | NodeId::R(_) => Schedule { first: self.ask },
        }
    }

    /// What the process keeps of a node of this name that begins now.
    pub fn desk(
        &self,
        alloc: Global,
        name: &[u8],
        who: NodeId,
        now: Instant,
    ) -> Result<Desk, Stop> {
        let terms = Terms {
            who,
            lock: self.lock(alloc, name)?,
            times: self.times,
            clock: 0,
            latest: 0,
            is_beside: self.is_beside,
        };
        let idle = match self.idle {
            0 => None,
            idle => Some(Duration::from_millis(idle)),
        };
        let schedule = self.schedule(who);
        Ok(Desk::new(alloc, HashKey::fixed(), terms, schedule, idle, now)?)
    }
}
