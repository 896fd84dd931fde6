//! What is printed.

use crate::stop::Stop;
use net_script::{WrittenTx, write_step};
use protocol::{Address, Answer, Change, Event, NodeId, Outgoing, Row, Sent, Step};
use stable_record::{Act, Entry, FactView, Touched};
use std::alloc::Global;
use std::io::{self, Write};
use wire::{Message, take_number};
use xid::{Refusal, Sequence, Tx, text};

/// How much is printed of a case without asking for memory again.
const ROOM: usize = 65536;

/// What is printed of a case.
#[derive(Drop)]
pub struct Page {
    alloc: Global,
    text: Vec<u8>,
}

impl Page {
    /// Nothing yet.
    pub fn new(alloc: Global) -> Result<Page, Stop> {
        let text = Vec::with_capacity(alloc, ROOM)?;
        Ok(Page { alloc, text })
    }

    /// Prints it to standard output.
    pub fn print(&self, rt: &impl Print) -> Result<(), Stop> {
        io::writer(rt).write_all(&self.text)?;
        Ok(())
    }

    /// What is printed.
    pub fn text(&self) -> &[u8] {
        &self.text
    }

    /// Nothing any more.
    pub fn clear(&mut self) {
        self.text.clear();
    }

    /// Bytes as they are.
    pub fn bytes(&mut self, bytes: &[u8]) -> Result<(), Stop> {
        self.text.extend_from_slice(bytes)?;
        Ok(())
    }

    /// The line is over.
    pub fn end_line(&mut self) -> Result<(), Stop> {
        self.bytes(b"\n")
    }

    /// A word after a space.
    pub fn word(&mut self, word: &[u8]) -> Result<(), Stop> {
        self.bytes(b" ")?;
        self.bytes(word)
    }

    /// A number.
    pub fn plain_number(&mut self, number: u64) -> Result<(), Stop> {
        let digits = format!(in self.alloc; "{number}")?;
        self.bytes(digits.as_bytes())
    }

    /// A number after a space.
    pub fn number(&mut self, number: u64) -> Result<(), Stop> {
        self.bytes(b" ")?;
        self.plain_number(number)
    }

    /// A transaction after a space.
    pub fn tx(&mut self, tx: &Tx) -> Result<(), Stop> {
        self.bytes(b" ")?;
        Ok(tx.write(&mut self.text)?)
    }

    /// Bytes as hex digits after a space, `-` for none.
    pub fn hex(&mut self, bytes: &[u8]) -> Result<(), Stop> {
        if bytes.is_empty() {
            return self.word(b"-");
        }
        self.bytes(b" ")?;
        self.digits(bytes)
    }

    /// Bytes as hex digits.
    pub fn digits(&mut self, bytes: &[u8]) -> Result<(), Stop> {
        Ok(text::put_hex(bytes, &mut self.text)?)
    }

    /// A refusal after a space.
    pub fn refusal(&mut self, refusal: Refusal) -> Result<(), Stop> {
        let text = format!(in self.alloc; "{refusal}")?;
        self.word(text.as_bytes())
    }

    /// `ok`, or the refusal.
    pub fn done(&mut self, done: Result<(), Refusal>) -> Result<(), Stop> {
        match done {
            Ok(()) => self.word(b"ok"),
            Err(refusal) => self.refusal(refusal),
        }
    }

    /// `yes` or `no`.
    pub fn truth(&mut self, is_true: bool) -> Result<(), Stop> {
        self.word(if is_true { b"yes" } else { b"no" })
    }

    /// The lines of a trace on an event with this answer, which changes this view and sends this message.
    fn traced(
        &self,
        answer: Answer,
        now: Option<Change>,
        message: Option<&Message>,
    ) -> Result<Vec<u8>, Stop> {
        let mut sent = Vec::new(self.alloc);
        if let Some(message) = message {
            sent.push(Sent {
                number: 0,
                sender: NodeId::A(0),
                receiver: NodeId::A(0),
                message: *message,
            })?;
        }
        let step = Step {
            event: Event::Deliver { number: 0 },
            answer,
            now,
            sent: Sequence::new(sent),
            told: Sequence::new(Vec::new(self.alloc)),
        };
        let mut text = Vec::new(self.alloc);
        write_step(&mut text, &mut WrittenTx::none(self.alloc), &step)?;
        Ok(text)
    }

    /// An answer as in a trace, after a space.
    pub fn answer(&mut self, answer: Answer) -> Result<(), Stop> {
        let text = self.traced(answer, None, None)?;
        let words = text.strip_prefix(b"deliver 0 -> ").unwrap_or(&[]);
        self.word(words.strip_suffix(b"\n").unwrap_or(&[]))
    }

    /// An answer, and the line is over.
    pub fn finished_answer(&mut self, answer: Answer) -> Result<(), Stop> {
        self.answer(answer)?;
        self.end_line()
    }

    /// A message as in a trace, after a space.
    pub fn message(&mut self, message: &Message) -> Result<(), Stop> {
        let text = self.traced(Answer::Done, None, Some(message))?;
        let words = text
            .strip_prefix(b"deliver 0 -> ok\nsent 0 a0 a0 ")
            .unwrap_or(&[]);
        self.word(words.strip_suffix(b"\n").unwrap_or(&[]))
    }

    /// A node after a space.
    pub fn node(&mut self, node: NodeId) -> Result<(), Stop> {
        let name = match node {
            NodeId::A(number) => format!(in self.alloc; "a{number}")?,
            NodeId::L(number) => format!(in self.alloc; "l{number}")?,
            NodeId::R(number) => format!(in self.alloc; "r{number}")?,
        };
        self.word(name.as_bytes())
    }

    /// To whom a message goes, after a space.
    fn address(&mut self, to: Address) -> Result<(), Stop> {
        match to {
            Address::Node(node) => self.node(node),
            Address::Acceptors => self.word(b"acceptors"),
            Address::Leaders => self.word(b"leaders"),
            Address::Managers => self.word(b"managers"),
        }
    }

    /// A line for a message that is sent.
    pub fn sent(&mut self, outgoing: &Outgoing) -> Result<(), Stop> {
        self.bytes(b"sent to")?;
        self.address(outgoing.to)?;
        self.message(&outgoing.message)?;
        self.end_line()
    }

    /// A line for a fact that is stored: its frame.
    pub fn fact(&mut self, fact: &FactView<'_>) -> Result<(), Stop> {
        let mut frame = Vec::new(self.alloc);
        fact.write(&mut frame)?;
        self.stored(&frame)
    }

    /// A line for a frame that is stored.
    fn stored(&mut self, frame: &[u8]) -> Result<(), Stop> {
        self.bytes(b"stored")?;
        self.hex(frame)?;
        self.end_line()
    }

    /// `ok` or the refusal, and the line is over.
    pub fn finished(&mut self, done: Result<(), Refusal>) -> Result<(), Stop> {
        self.done(done)?;
        self.end_line()
    }

    /// `none`, and the line is over.
    pub fn nothing(&mut self) -> Result<(), Stop> {
        self.word(b"none")?;
        self.end_line()
    }

    /// A touched key and its act.
    pub fn touched(&mut self, touched: &Touched) -> Result<(), Stop> {
        self.hex(touched.key.as_slice())?;
        match &touched.act {
            Act::Read => self.word(b"read"),
            Act::Put(value) => {
                self.word(b"put")?;
                self.hex(value.as_slice())
            }
            Act::Del => self.word(b"del"),
        }
    }

    /// A line for a view that changed.
    pub fn change(&mut self, change: Change) -> Result<(), Stop> {
        let text = self.traced(Answer::Done, Some(change), None)?;
        self.bytes(text.strip_prefix(b"deliver 0 -> ok\n").unwrap_or(&[]))
    }

    /// A line for what came of a fact that was played, unless it wanted memory.
    pub fn played(&mut self, played: Result<(), Refusal>) -> Result<(), Stop> {
        if let Err(Refusal::NoMemory) = played {
            return Err(Stop::Wanted);
        }
        self.finished(played)
    }

    /// Where two ways print different things, a line that is never right, and both.
    pub fn compare(&mut self, first: &Page, second: &Page) -> Result<(), Stop> {
        if first.text == second.text {
            return Ok(());
        }
        self.bytes(b"the two ways differ:\n")?;
        self.bytes(&first.text)?;
        self.bytes(b"and\n")?;
        self.bytes(&second.text)
    }

    /// A line for what opening a node was refused with.
    pub fn not_opened(&mut self, refusal: Refusal) -> Result<(), Stop> {
        self.bytes(b"open ->")?;
        self.finished(Err(refusal))
    }

    /// The frames of a shorter record, a line for each.
    pub fn frames(&mut self, bytes: &[u8]) -> Result<(), Stop> {
        let frames = frames_in(self.alloc, bytes)?;
        self.number(frames.len() as u64)?;
        self.end_line()?;
        for frame in &frames {
            self.stored(frame)?;
        }
        Ok(())
    }

    /// The frame of an entry, after a space.
    pub fn entry(&mut self, entry: &Entry) -> Result<(), Stop> {
        let mut frame = Vec::new(self.alloc);
        entry.write(self.alloc, &mut frame)?;
        self.hex(&frame)
    }

    /// The rows of a table, each as KEY=VALUE after a space.
    pub fn rows(&mut self, rows: &[Row]) -> Result<(), Stop> {
        for row in rows {
            self.hex(row.key.as_slice())?;
            self.bytes(b"=")?;
            if row.value.as_slice().is_empty() {
                self.bytes(b"-")?;
            } else {
                self.digits(row.value.as_slice())?;
            }
        }
        Ok(())
    }
}

/// The frame in front of bytes, and what follows it; all of them where none stands there.
fn first_frame(bytes: &[u8]) -> (&[u8], &[u8]) {
    let Some((len, _)) = take_number(bytes) else {
        return (bytes, &[]);
    };
    let end = 4 + len as usize;
    if bytes.len() < end {
        return (bytes, &[]);
    }
    bytes.split_at(end)
}

/// The frames of bytes, one after the other; what is no frame stands last.
pub fn frames_in(alloc: Global, bytes: &[u8]) -> Result<Vec<&[u8]>, Stop> {
    let mut frames = Vec::new(alloc);
    let mut rest = bytes;
    for _frame in 0..bytes.len() {
        if rest.is_empty() {
            return Ok(frames);
        }
        let (frame, after) = first_frame(rest);
        frames.push(frame)?;
        rest = after;
    }
    Ok(frames)
}
