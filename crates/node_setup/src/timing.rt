//! How the process of a node stands in time: its waits, its names and its clock.

use crate::failure::Failure;
use crate::setup::Setup;
use protocol::NodeId;
use serving::{Schedule, Times};
use std::time::{Duration, SystemTime};

/// The milliseconds since 1970 by the system's clock, none where that is set before.
pub fn clock(rt: &HostRuntime) -> Result<u64, Failure> {
    match SystemTime::now(rt)?.duration_since(SystemTime::UNIX_EPOCH) {
        Ok(since) => Ok(u64::try_from(since.as_millis()).unwrap_or(u64::MAX)),
        Err(_) => Ok(0),
    }
}

/// How long a node waits before it asks after a transaction: a later leader longer, so that no two outbid each other for ever.
pub(crate) fn schedule_of(setup: &Setup) -> Schedule {
    let ask = u64::from(setup.cluster.timing.ask);
    match setup.who {
        NodeId::L(leader) => Schedule {
            first: ask * (u64::from(leader) + 1),
        },
        _ => Schedule { first: ask },
    }
}

/// How long a branch is left that nobody touches.
pub(crate) fn idle_of(setup: &Setup) -> Option<Duration> {
    match setup.cluster.timing.idle {
        0 => None,
        idle => Some(Duration::from_millis(u64::from(idle))),
    }
}

/// How names stand in time, at a resource manager where they do.
pub(crate) fn times_of(setup: &Setup) -> Option<Times> {
    let NodeId::R(_) = setup.who else {
        return None;
    };
    let naming = setup.cluster.naming;
    if !naming.timed {
        return None;
    }
    Some(Times {
        format: naming.format,
        ahead: u64::from(naming.ahead),
        keep: Some(u64::from(naming.keep)),
    })
}
