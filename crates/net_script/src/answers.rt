//! What came of events: answers, written and read, and changed views, datagrams and notices, written.

ghost use Rattle.std.specs.Prelude.{◌≡◌, ◌++◌, IfErr, OnOk, ◌≢◌, ◌∷◌, true, MatchOption, OnErr};
ghost use Rattle.xid.specs.Text.{Extends};
ghost use Rattle.net_script.specs.Basics.{NoMemory, Refusal, XaCode, Standing, View, number_of};
ghost use Rattle.net_script.specs.Answers.{standing_text, view_text, answer_words, IsTold, IsAnswer, code_text};
ghost use Rattle.net_script.specs.Traces.{spaced_words, change_text, datagram_line, sent_line, notice_line};
ghost use Rattle.net_script.specs.Writing.{Puts};
ghost use Rattle.net_script.specs.Lines.{words};
ghost use Rattle.net_script.specs.Spelling.{Finds};

use crate::messages::put_message;
use crate::pieces::{
    put_bytes_word, put_floor, put_manager, put_node, put_number, put_word, put_xid,
};
use crate::stop::Stop;
use crate::word::{Words, is_word};
use crate::words::next_word;
use crate::written::WrittenTx;
use itoa::Buffer;
use protocol::{Answer, Change, NodeId, Sent, Standing, Told, View};
use std::alloc::Global;
use wire::{MAX_DATAGRAM, MAX_TX_BYTES, MessageView, SpelledTx, encode, view_of};
use xid::{Refusal, XaCode};

/// The word of where a transaction stands.
fn standing_word(standing: Standing) -> &'static [u8]
    ensures { result.now ≡ standing_text standing }
{
    match standing {
        Standing::Unknown => b"unknown",
        Standing::Undecided => b"undecided",
        Standing::Working => b"working",
        Standing::Prepared => b"prepared",
        Standing::Committed => b"committed",
        Standing::Aborted => b"aborted",
    }
}

/// The word of a view.
fn view_word(view: View) -> &'static [u8]
    ensures { result.now ≡ view_text view }
{
    match view {
        View::Working => b"working",
        View::Prepared => b"prepared",
        View::Committed => b"committed",
        View::Aborted => b"aborted",
    }
}

/// The words of an answer. The only refusal is `NoMemory`, and then what stood in `out` still begins it.
pub fn put_answer(out: &mut Vec<u8>, answer: &Answer) -> Result<(), Refusal>
    ensures ok { OnOk result (out.new.items ≡ out.old.items ++ spaced_words (answer_words answer.now)) }
    ensures err { IfErr result (λ e. e ≡ NoMemory) }
    ensures kept { OnErr result (Extends out.old.items out.new.items) }
{
    match answer {
        Answer::Done => put_word(out, b"ok"),
        Answer::Code(code) => {
            let mut digits = Buffer::new();
            put_word(out, digits.format(code.number()).as_bytes())
        }
        Answer::Value(bytes) => {
            put_word(out, b"value")?;
            put_bytes_word(out, bytes.as_slice())
        }
        Answer::NoValue => put_word(out, b"none"),
        Answer::Xids(xids) => {
            put_word(out, b"xids")?;
            for xid in xids.as_slice() {
                put_xid(out, xid)?;
            }
            Ok(())
        }
        Answer::Stands(standing) => put_word(out, standing_word(*standing)),
        Answer::Refused(refusal) => {
            put_word(out, b"refused")?;
            put_number(out, u32::from(refusal.number()))
        }
    }
}

/// The line of the view that an event changed, if it changed one.
pub(crate) fn put_change(
    out: &mut Vec<u8>,
    written: &mut WrittenTx,
    now: &Option<Change>,
) -> Result<(), Refusal>
    ensures puts { Puts out.old.items out.new.items result (change_text now.now) }
    ensures kept { OnErr result (Extends out.old.items out.new.items) }
{
    let Some(change) = now else {
        return Ok(());
    };
    let mut buffer = [0; MAX_TX_BYTES];
    out.extend_from_slice(b"now")?;
    put_manager(out, u32::from(change.rm))?;
    written.put(out, &SpelledTx::of(&change.tx, &mut buffer))?;
    put_word(out, view_word(change.view))?;
    out.push(b'\n')?;
    Ok(())
}

/// The line of a datagram whose message is seen over the bytes that spell it.
fn put_seen(
    out: &mut Vec<u8>,
    written: &mut WrittenTx,
    number: u32,
    sender: NodeId,
    receiver: NodeId,
    message: &MessageView<'_>,
) -> Result<(), Refusal>
    ensures puts { Puts out.old.items out.new.items result
        (sent_line (record { number = number; sender = sender; receiver = receiver; message = message.now })) }
    ensures kept { OnErr result (Extends out.old.items out.new.items) }
{
    out.extend_from_slice(b"sent")?;
    put_number(out, number)?;
    put_node(out, sender)?;
    put_node(out, receiver)?;
    put_message(out, written, message)?;
    out.push(b'\n')?;
    Ok(())
}

/// Writes the line of a datagram that was sent, by its number, its sender, its receiver and the bytes that spell its message, after what
/// stands in `out`; nothing, where they spell none. The text of the transaction that was written last isn't made again. The only refusal
/// is `NoMemory`, and then what stood in `out` still begins it, and what is new there is no whole line.
pub fn write_datagram(
    out: &mut Vec<u8>,
    written: &mut WrittenTx,
    number: u32,
    sender: NodeId,
    receiver: NodeId,
    bytes: &[u8],
) -> Result<(), Refusal>
    ensures ok { OnOk result (out.new.items ≡ out.old.items ++ datagram_line number sender receiver bytes.now) }
    ensures err { IfErr result (λ e. e ≡ NoMemory) }
    ensures kept { OnErr result (Extends out.old.items out.new.items) }
{
    match &view_of(bytes) {
        Ok(message) => put_seen(out, written, number, sender, receiver, message),
        Err(_) => Ok(()),
    }
}

/// The line of a datagram that was sent.
pub(crate) fn put_sent(
    out: &mut Vec<u8>,
    written: &mut WrittenTx,
    sent: &Sent,
) -> Result<(), Refusal>
    ensures puts { Puts out.old.items out.new.items result (sent_line sent.now) }
    ensures kept { OnErr result (Extends out.old.items out.new.items) }
{
    let mut buffer = [0; MAX_DATAGRAM];
    let _ = sent.message.kind();
    let len = encode(&sent.message, &mut buffer);
    write_datagram(
        out,
        written,
        sent.number,
        sent.sender,
        sent.receiver,
        &buffer[..len],
    )
}

/// Writes the line of a notice that was told after what stands in `out`. The only refusal is `NoMemory`, and then what stood in `out`
/// still begins it, and what is new there is no whole line.
pub fn write_notice(out: &mut Vec<u8>, told: &Told) -> Result<(), Refusal>
    ensures ok { OnOk result (out.new.items ≡ out.old.items ++ notice_line told.now) }
    ensures err { IfErr result (λ e. e ≡ NoMemory) }
    ensures kept { OnErr result (Extends out.old.items out.new.items) }
{
    out.extend_from_slice(b"told")?;
    put_number(out, told.number)?;
    put_manager(out, u32::from(told.manager))?;
    put_node(out, told.receiver)?;
    put_floor(out, &told.floor)?;
    out.push(b'\n')?;
    Ok(())
}

/// The code of this number.
fn code_named(word: &[u8]) -> Option<XaCode>
    ensures { MatchOption result ((c : XaCode) → word.now ≢ code_text c) (λ c. word.now ≡ code_text c) }
{
    match word {
        b"0" => Some(XaCode::Ok),
        b"100" => Some(XaCode::RbRollback),
        b"-4" => Some(XaCode::Nota),
        b"-5" => Some(XaCode::Inval),
        b"-6" => Some(XaCode::Proto),
        b"-7" => Some(XaCode::RmFail),
        b"-8" => Some(XaCode::DupId),
        _ => None,
    }
}

/// Where a transaction stands, by its word.
fn standing_named(word: &[u8]) -> Option<Standing>
    ensures { MatchOption result ((s : Standing) → word.now ≢ standing_text s) (λ s. word.now ≡ standing_text s) }
{
    match word {
        b"unknown" => Some(Standing::Unknown),
        b"undecided" => Some(Standing::Undecided),
        b"working" => Some(Standing::Working),
        b"prepared" => Some(Standing::Prepared),
        b"committed" => Some(Standing::Committed),
        b"aborted" => Some(Standing::Aborted),
        _ => None,
    }
}

/// The view of this word.
pub(crate) fn view_named(word: &[u8]) -> Option<View>
    ensures { MatchOption result ((v : View) → word.now ≢ view_text v) (λ v. word.now ≡ view_text v) }
{
    match word {
        b"working" => Some(View::Working),
        b"prepared" => Some(View::Prepared),
        b"committed" => Some(View::Committed),
        b"aborted" => Some(View::Aborted),
        _ => None,
    }
}

/// The refusal of this number, of those that an event may be answered.
fn refusal_numbered(number: u32) -> Option<Refusal>
    ensures { MatchOption result
        ((r : Refusal) → IsTold r → number ≢ number_of r)
        (λ r. IsTold r × (number ≡ number_of r)) }
{
    match number {
        2 => Some(Refusal::BadTx),
        3 => Some(Refusal::BadMessage),
        4 => Some(Refusal::Damaged),
        5 => Some(Refusal::RecordFault),
        6 => Some(Refusal::NoBallot),
        8 => Some(Refusal::Down),
        9 => Some(Refusal::Busy),
        10 => Some(Refusal::Full),
        11 => Some(Refusal::NoMemory),
        12 => Some(Refusal::PortFault),
        14 => Some(Refusal::Forged),
        15 => Some(Refusal::NoSuch),
        17 => Some(Refusal::Forgotten),
        18 => Some(Refusal::InUse),
        _ => None,
    }
}

/// The answer of this first word, by those after it.
fn answer_by(alloc: Global, name: &[u8], args: &[u8]) -> Result<Answer, Stop>
    ensures { Finds true IsAnswer answer_words (name.now ∷ words args.now) result }
{
    if is_word(name, b"ok") {
        let () = Words::read(alloc, args)?;
        return Ok(Answer::Done);
    }
    if let Some(code) = code_named(name) {
        let () = Words::read(alloc, args)?;
        return Ok(Answer::Code(code));
    }
    if is_word(name, b"value") {
        let (bytes, ()) = Words::read(alloc, args)?;
        return Ok(Answer::Value(bytes));
    }
    if is_word(name, b"none") {
        let () = Words::read(alloc, args)?;
        return Ok(Answer::NoValue);
    }
    if is_word(name, b"xids") {
        let xids = Words::read(alloc, args)?;
        return Ok(Answer::Xids(xids));
    }
    if let Some(standing) = standing_named(name) {
        let () = Words::read(alloc, args)?;
        return Ok(Answer::Stands(standing));
    }
    if is_word(name, b"refused") {
        let (number, ()) = Words::read(alloc, args)?;
        let Some(refusal) = refusal_numbered(number) else {
            return Err(Stop::Wrong);
        };
        return Ok(Answer::Refused(refusal));
    }
    Err(Stop::Wrong)
}

/// The answer of these words.
#[inline(never)]
pub(crate) fn read_answer(alloc: Global, args: &[u8]) -> Result<Answer, Stop>
    ensures { Finds true IsAnswer answer_words (words args.now) result }
{
    let (name, args) = next_word(args).ok_or(Stop::Wrong)?;
    answer_by(alloc, name, args)
}
