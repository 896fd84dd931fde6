//! What the commands of a script make happen, and the text of that, which is printed in pieces.

ghost use Rattle.std.specs.Prelude.{[], IfErr, OnOk};
ghost use Rattle.net_script.specs.declared.values.Command.TheVariants.{Do};
ghost use Rattle.std.specs.List.{flat_map};
ghost use Rattle.net_script.specs.Events.{event_words};
ghost use Rattle.net_script.specs.Traces.{notice_line, outcome_text};
ghost use Rattle.net_script.specs.Writing.{IsFileRefusal, Puts};
ghost use Rattle.cluster.specs.Clusters.{sent_after, told_after};
ghost use Rattle.cluster_run.specs.Happenings.{IsFlow, IsDoneBy, AreDoneBy};
ghost use Rattle.cluster_run.specs.Running.{GoesOn, Prints, PrintsShort, StopsIn, so_far};

use cluster::{Answered, Cluster};
use net_script::{
    Command, Commands, WrittenTx, write_answered, write_datagram, write_notice, write_text,
};
use protocol::Event;
use stable_record::MemRecord;
use std::alloc::Global;
use std::io::Write;
use xid::Refusal;

/// A piece of so many bytes or more is printed.
const LONG: usize = 65_536;

/// Prints a piece that is long enough. Refused as `write_text` is.
fn print_long<W: Write>(piece: &mut Vec<u8>, out: &mut W) -> Result<(), Refusal>
    ensures ok { OnOk result (Prints (so_far piece.old.items (W.contents out.old)) (so_far piece.new.items (W.contents out.new)) []) }
    ensures err { IfErr result (λ e. IsFileRefusal e
        × PrintsShort (so_far piece.old.items (W.contents out.old)) (W.contents out.new) []) }
{
    if piece.len() < LONG {
        return Ok(());
    }
    write_text(piece, out)?;
    piece.clear();
    Ok(())
}

/// The lines of an event that happened last join the piece, but for those of the notices that it told; its cluster had so many datagrams
/// before. Refused: `NoMemory` alone.
fn write_lines(
    cluster: &Cluster<MemRecord>,
    before: u32,
    event: &Event,
    answered: &Answered,
    written: &mut WrittenTx,
    piece: &mut Vec<u8>,
) -> Result<(), Refusal>
    ensures { Puts piece.old.items piece.new.items result (outcome_text (event_words event.now) answered.entry.now.answer
        answered.entry.now.now (sent_after before cluster.now.network)) }
{
    write_answered(piece, written, event, &answered.answer, &answered.now)?;
    for place in before..cluster.datagram_count() {
        let kept = cluster.datagram(place);
        write_datagram(
            piece,
            written,
            place + 1,
            kept.sender,
            kept.receiver,
            kept.bytes,
        )?;
    }
    Ok(())
}

/// The lines of the notices that were told last join the piece, when their cluster had so many before. Refused: `NoMemory` alone.
fn write_notices(
    cluster: &Cluster<MemRecord>,
    before: u32,
    piece: &mut Vec<u8>,
) -> Result<(), Refusal>
    ensures { Puts piece.old.items piece.new.items result (flat_map notice_line (told_after before cluster.now.notices)) }
{
    for place in before..cluster.notice_count() {
        write_notice(piece, &cluster.notice(place))?;
    }
    Ok(())
}

/// An event happens, what it is answered takes the place of another answer, and its lines join the piece. Refused: `NoMemory`, where there
/// is none for the lines, and as `write_text` is.
fn happen<W: Write>(
    cluster: &mut Cluster<MemRecord>,
    answered: &mut Answered,
    written: &mut WrittenTx,
    piece: &mut Vec<u8>,
    out: &mut W,
    event: &Event,
) -> Result<(), Refusal>
    ensures ok { OnOk result (GoesOn (λ config world. IsDoneBy config world (Do event.now)) cluster.old cluster.new
        (so_far piece.old.items (W.contents out.old)) (so_far piece.new.items (W.contents out.new))) }
    ensures err { IfErr result (StopsIn (λ config world. IsDoneBy config world (Do event.now)) cluster.old
        (so_far piece.old.items (W.contents out.old)) (W.contents out.new)) }
{
    let sent_before = cluster.datagram_count();
    let told_before = cluster.notice_count();
    cluster.step_into(event, answered);
    write_lines(cluster, sent_before, event, answered, written, piece)?;
    write_notices(cluster, told_before, piece)?;
    print_long(piece, out)
}

/// So many deliveries at most, each of the datagram of least number that isn't marked then, until there is none. Refused as `happen` is.
fn flow<W: Write>(
    cluster: &mut Cluster<MemRecord>,
    answered: &mut Answered,
    written: &mut WrittenTx,
    piece: &mut Vec<u8>,
    out: &mut W,
    count: u32,
) -> Result<(), Refusal>
    ensures ok { OnOk result (GoesOn (λ config world. IsFlow config world count) cluster.old cluster.new
        (so_far piece.old.items (W.contents out.old)) (so_far piece.new.items (W.contents out.new))) }
    ensures err { IfErr result (StopsIn (λ config world. IsFlow config world count) cluster.old
        (so_far piece.old.items (W.contents out.old)) (W.contents out.new)) }
{
    for _made in 0..count {
        let Some(number) = cluster.least_unmarked() else {
            return Ok(());
        };
        happen(
            cluster,
            answered,
            written,
            piece,
            out,
            &Event::Deliver { number },
        )?;
    }
    Ok(())
}

/// What a command makes happen. Refused as `happen` is.
fn carry_out<W: Write>(
    cluster: &mut Cluster<MemRecord>,
    answered: &mut Answered,
    written: &mut WrittenTx,
    piece: &mut Vec<u8>,
    out: &mut W,
    command: Command,
) -> Result<(), Refusal>
    ensures ok { OnOk result (GoesOn (λ config world. IsDoneBy config world command) cluster.old cluster.new
        (so_far piece.old.items (W.contents out.old)) (so_far piece.new.items (W.contents out.new))) }
    ensures err { IfErr result (StopsIn (λ config world. IsDoneBy config world command) cluster.old
        (so_far piece.old.items (W.contents out.old)) (W.contents out.new)) }
{
    match command {
        Command::Do(event) => happen(cluster, answered, written, piece, out, &event),
        Command::Flow(count) => flow(cluster, answered, written, piece, out, count),
    }
}

/// What some commands make happen, one after another. Refused as `happen` is.
fn carry_out_each<W: Write>(
    cluster: &mut Cluster<MemRecord>,
    answered: &mut Answered,
    written: &mut WrittenTx,
    piece: &mut Vec<u8>,
    out: &mut W,
    commands: Vec<Command>,
) -> Result<(), Refusal>
    ensures ok { OnOk result (GoesOn (λ config world. AreDoneBy config world commands.items) cluster.old cluster.new
        (so_far piece.old.items (W.contents out.old)) (so_far piece.new.items (W.contents out.new))) }
    ensures err { IfErr result (StopsIn (λ config world. AreDoneBy config world commands.items) cluster.old
        (so_far piece.old.items (W.contents out.old)) (W.contents out.new)) }
{
    for command in commands {
        carry_out(cluster, answered, written, piece, out, command)?;
    }
    Ok(())
}

/// What the commands make happen, one after another; what isn't printed yet is left in the piece. Those that are done are let go, batch by
/// batch. Refused: `NoMemory`, where there is none for the lines of an event, and as `write_text` is; then a beginning of these lines is
/// printed at most.
pub fn carry_out_all<W: Write>(
    alloc: Global,
    cluster: &mut Cluster<MemRecord>,
    piece: &mut Vec<u8>,
    out: &mut W,
    commands: Commands,
) -> Result<(), Refusal>
    ensures ok { OnOk result (GoesOn (λ config world. AreDoneBy config world commands) cluster.old cluster.new
        (so_far piece.old.items (W.contents out.old)) (so_far piece.new.items (W.contents out.new))) }
    ensures err { IfErr result (StopsIn (λ config world. AreDoneBy config world commands) cluster.old
        (so_far piece.old.items (W.contents out.old)) (W.contents out.new)) }
{
    let mut answered = Answered::nothing();
    let mut written = WrittenTx::none(alloc);
    for batch in commands.into_batches()? {
        carry_out_each(
            cluster,
            &mut answered,
            &mut written,
            piece,
            out,
            batch.into_vec(),
        )?;
    }
    Ok(())
}
