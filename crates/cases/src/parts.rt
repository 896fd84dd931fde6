//! The parts that cases are of.

use crate::{
    acceptors, ballots, clusters, codec, files, hmacs, leaders, letter_ports, managers, nodes,
    numbers, ports, records, signed, tables, texts, values,
};
use case_lines::{Page, Stop, words};

/// Runs the calls of a case of the part that its head names.
pub fn run(rt: HostRuntime, head: &[u8], calls: &[String], page: &mut Page) -> Result<(), Stop> {
    let alloc = rt.alloc();
    let (part, rest) = words::cut(head);
    match part {
        b"values" => values::run(alloc, calls, page),
        b"codec" => codec::run(alloc, calls, page),
        b"ballots" => ballots::run(alloc, calls, page),
        b"transactions" => numbers::run(alloc, calls, page),
        b"scripts" => texts::run_scripts(alloc, rest, calls, page),
        b"trace" => texts::run_trace(alloc, calls, page),
        b"frames" => records::run_frames(alloc, calls, page),
        b"record" => records::run(rt, rest, calls, page),
        b"acceptor" => acceptors::run(alloc, rest, calls, page),
        b"leader" => leaders::run(alloc, rest, calls, page),
        b"branches" => tables::run(alloc, rest, calls, page),
        b"manager" => managers::run(alloc, rest, calls, page),
        b"node" => nodes::run(rt, rest, calls, page),
        b"hmac" => hmacs::run(alloc, calls, page),
        b"signed" => signed::run(alloc, rest, calls, page),
        b"cluster_file" => files::run_clusters(alloc, rest, calls, page),
        b"key_file" => files::run_keys(alloc, calls, page),
        b"owner" => files::run_owners(alloc, calls, page),
        b"letters" => letter_ports::run(alloc, rest, calls, page),
        b"port" => ports::run(alloc, rest, calls, page),
        b"cluster" => clusters::run(alloc, rest, calls, page),
        _ => Err(Stop::Unread),
    }
}
