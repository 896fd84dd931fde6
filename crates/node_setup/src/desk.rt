//! What the process of a node keeps beside its node and its port when it begins.

use crate::failure::Failure;
use crate::setup::Setup;
use crate::timing::{idle_of, schedule_of, times_of};
use node_process::Desk;
use serving::{Lock, Terms};
use std::alloc::{AllocError, Global};
use std::time::Instant;

/// What clients have to prove, if they do.
fn lock_of(alloc: Global, setup: &Setup, name: &str) -> Result<Option<Lock>, AllocError> {
    match setup.client_key {
        Some(key) => Ok(Some(Lock::new(alloc, key, name.as_bytes(), &setup.digest)?)),
        None => Ok(None),
    }
}

/// On what terms the lines of clients are taken.
fn terms_of(alloc: Global, setup: &Setup, name: &str) -> Result<Terms, AllocError> {
    Ok(Terms {
        who: setup.who,
        lock: lock_of(alloc, setup, name)?,
        times: times_of(setup),
        clock: 0,
        latest: 0,
        is_beside: setup.place.beside,
    })
}

/// What the process of a node of this name keeps beside its node and its port. Refused: the clock can't be read, or memory ran out.
pub fn make_desk(rt: &HostRuntime, setup: &Setup, name: &str) -> Result<Desk, Failure> {
    let terms = terms_of(rt.alloc(), setup, name)?;
    let (schedule, idle) = (schedule_of(setup), idle_of(setup));
    let now = Instant::now(rt)?;
    Ok(Desk::new(rt.alloc(), setup.hash_key, terms, schedule, idle, now)?)
}
