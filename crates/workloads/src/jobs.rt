//! The jobs over scripts and traces: simulating, auditing, drawing.
use crate::digest::Digest;
use crate::kinds::{COMMIT, FAILING, FAILING_BUNDLED, STEADY, Steady};
use crate::numbers::{Numbers, rounds};
use crate::scripts::{failing, steady};
use crate::tables::{Contents, KeyOrder, with_contents};
use anyhow::Result;
use audit::{Fault, Question, audit_text};
use cluster_run::{run, run_to};
use picture::picture;
use std::alloc::{AllocError, Global};
use xid::Refusal;

/// How many rounds of scripts are run, with other numbers in each.
const RUN_ROUNDS: u32 = 2;

/// How many rounds of traces are audited.
const AUDIT_ROUNDS: u32 = 2;

/// How many rounds of large first tables there are.
const TABLE_ROUNDS: u32 = 3;

/// How many rounds of traces are drawn.
const DRAW_ROUNDS: u32 = 2;

/// How many short scripts of failing clusters make a campaign.
const CAMPAIGN: u32 = 160;

/// How many copies of a trace are audited, each with other names.
const COPIES: u8 = 6;

/// The hex of what the name of each transaction begins with, but for the last digit of the character that tells copies apart.
const MARK: &[u8] = b":6f72643";

/// What was refused, as a number.
fn refused(refusal: Refusal) -> u64 {
    u64::from(refusal.number())
}

/// Runs a script, and takes what it prints.
fn simulate_one(alloc: Global, script: &[u8], digest: &mut Digest) {
    match run_to(alloc, script, digest) {
        Ok(()) => digest.number(0),
        Err(refusal) => digest.number(refused(refusal)),
    }
}

/// Runs scripts of all kinds, once.
fn simulate_round(
    alloc: Global,
    parts: u32,
    numbers: &mut Numbers,
    digest: &mut Digest,
) -> Result<()> {
    for kind in STEADY {
        let Steady {
            shape,
            transactions,
        } = kind.fewer(parts);
        let script = steady(alloc, &shape, transactions, numbers)?;
        simulate_one(alloc, &script, digest);
    }
    for _ in 0..(CAMPAIGN / parts.max(1)).max(1) {
        let script = failing(alloc, &FAILING, numbers)?;
        simulate_one(alloc, &script, digest);
        let script = failing(alloc, &FAILING_BUNDLED, numbers)?;
        simulate_one(alloc, &script, digest);
    }
    Ok(())
}

/// Runs scripts of all kinds.
pub fn simulate(alloc: Global, seed: u32, parts: u32, digest: &mut Digest) -> Result<()> {
    let mut numbers = Numbers::new(seed, 1);
    for _ in 0..rounds(RUN_ROUNDS, parts) {
        simulate_round(alloc, parts, &mut numbers, digest)?;
    }
    Ok(())
}

/// A trace in which each transaction has another name, of the same length and in the same order.
fn renamed(alloc: Global, trace: &[u8], copy: u8) -> Result<Vec<u8>, AllocError> {
    let mut text = Vec::with_capacity(alloc, trace.len())?;
    let mut rest = trace;
    for _ in 0..trace.len() {
        let Some(at) = memchr::memchr(b':', rest) else {
            break;
        };
        let (before, after) = rest.split_at(at);
        text.extend_from_slice(before)?;
        if after.starts_with(MARK) && after.len() > MARK.len() {
            text.extend_from_slice(MARK)?;
            text.push(copy)?;
            rest = &after[MARK.len() + 1..];
        } else {
            text.push(b':')?;
            rest = after.split_at(1.min(after.len())).1;
        }
    }
    text.extend_from_slice(rest)?;
    Ok(text)
}

/// Takes what an audit finds.
fn take_audit(found: Result<Option<Fault>, Refusal>, digest: &mut Digest) {
    match found {
        Ok(None) => digest.number(0),
        Ok(Some(fault)) => {
            digest.number(match fault.question {
                Question::Changes => 1,
                Question::Gets => 2,
                Question::Tables => 3,
                Question::Order => 4,
                Question::Floors => 6,
            });
            digest.number(u64::try_from(fault.line).unwrap_or(0));
        }
        Err(refusal) => {
            digest.number(5);
            digest.number(refused(refusal));
        }
    }
}

/// Audits copies of a trace, which is taken too.
fn audit_copies(alloc: Global, trace: &[u8], digest: &mut Digest) -> Result<()> {
    for copy in 0..COPIES {
        let text = renamed(alloc, trace, b'0'.saturating_add(copy))?;
        take_audit(audit_text(alloc, &text), digest);
    }
    digest.take(trace);
    Ok(())
}

/// Audits the trace of a script.
fn audit_one(alloc: Global, script: &[u8], digest: &mut Digest) -> Result<()> {
    match run(alloc, script) {
        Ok(trace) => audit_copies(alloc, &trace, digest),
        Err(refusal) => {
            digest.number(refused(refusal));
            Ok(())
        }
    }
}

/// Audits traces of scripts of all kinds, once.
fn audit_round(
    alloc: Global,
    parts: u32,
    numbers: &mut Numbers,
    digest: &mut Digest,
) -> Result<()> {
    for kind in STEADY {
        let Steady {
            shape,
            transactions,
        } = kind.fewer(parts.saturating_mul(5));
        let script = steady(alloc, &shape, transactions, numbers)?;
        audit_one(alloc, &script, digest)?;
    }
    for _ in 0..(CAMPAIGN / parts.saturating_mul(5).max(1)).max(1) {
        let script = failing(alloc, &FAILING, numbers)?;
        audit_one(alloc, &script, digest)?;
    }
    Ok(())
}

/// Audits traces of scripts of all kinds.
pub fn audit(alloc: Global, seed: u32, parts: u32, digest: &mut Digest) -> Result<()> {
    let mut numbers = Numbers::new(seed, 2);
    for _ in 0..rounds(AUDIT_ROUNDS, parts) {
        audit_round(alloc, parts, &mut numbers, digest)?;
    }
    Ok(())
}

/// The first tables of the scripts.
const TABLES: [Contents; 6] = [
    Contents {
        rows: 16_000,
        order: KeyOrder::Shuffled,
        is_long: false,
        repeats: false,
    },
    Contents {
        rows: 8_000,
        order: KeyOrder::Shuffled,
        is_long: true,
        repeats: false,
    },
    Contents {
        rows: 8_000,
        order: KeyOrder::Ascending,
        is_long: false,
        repeats: false,
    },
    Contents {
        rows: 8_000,
        order: KeyOrder::Descending,
        is_long: true,
        repeats: false,
    },
    Contents {
        rows: 8_000,
        order: KeyOrder::Shuffled,
        is_long: false,
        repeats: true,
    },
    Contents {
        rows: 1_000,
        order: KeyOrder::Shuffled,
        is_long: true,
        repeats: false,
    },
];

/// Runs scripts with large first tables, and audits their traces, once.
fn tables_round(
    alloc: Global,
    parts: u32,
    numbers: &mut Numbers,
    digest: &mut Digest,
) -> Result<()> {
    for full in TABLES {
        let contents = Contents {
            rows: (full.rows / parts.max(1)).max(10),
            ..full
        };
        let script = with_contents(alloc, &contents, numbers)?;
        match run(alloc, &script) {
            Ok(trace) => {
                digest.take(&trace);
                take_audit(audit_text(alloc, &trace), digest);
            }
            Err(refusal) => digest.number(refused(refusal)),
        }
    }
    Ok(())
}

/// Runs scripts with large first tables, and audits their traces.
pub fn tables(alloc: Global, seed: u32, parts: u32, digest: &mut Digest) -> Result<()> {
    let mut numbers = Numbers::new(seed, 3);
    for _ in 0..rounds(TABLE_ROUNDS, parts) {
        tables_round(alloc, parts, &mut numbers, digest)?;
    }
    Ok(())
}

/// Draws copies of a trace, which is taken too.
fn draw_copies(alloc: Global, trace: &[u8], copies: u8, digest: &mut Digest) -> Result<()> {
    digest.take(trace);
    for copy in 0..copies {
        let text = renamed(alloc, trace, b'0'.saturating_add(copy))?;
        match picture(alloc, b"a.trace", &text) {
            Ok(svg) => digest.take(&svg),
            Err(refusal) => digest.number(refused(refusal)),
        }
    }
    Ok(())
}

/// Draws the trace of a script, some copies of it.
fn draw_one(alloc: Global, script: &[u8], copies: u8, digest: &mut Digest) -> Result<()> {
    match run(alloc, script) {
        Ok(trace) => draw_copies(alloc, &trace, copies, digest),
        Err(refusal) => {
            digest.number(refused(refusal));
            Ok(())
        }
    }
}

/// Draws traces of short, longer and long runs, once.
fn draw_round(alloc: Global, parts: u32, numbers: &mut Numbers, digest: &mut Digest) -> Result<()> {
    for _ in 0..(20 / parts.max(1)).max(1) {
        let script = failing(alloc, &FAILING, numbers)?;
        draw_one(alloc, &script, 2, digest)?;
    }
    for transactions in [8, 24, 48, 192] {
        let fewer = (transactions / parts.max(1)).max(1);
        let script = steady(alloc, &COMMIT, fewer, numbers)?;
        draw_one(alloc, &script, 2, digest)?;
    }
    Ok(())
}

/// Draws traces of short, longer and long runs.
pub fn draw(alloc: Global, seed: u32, parts: u32, digest: &mut Digest) -> Result<()> {
    let mut numbers = Numbers::new(seed, 4);
    for _ in 0..rounds(DRAW_ROUNDS, parts) {
        draw_round(alloc, parts, &mut numbers, digest)?;
    }
    Ok(())
}
