//! The stream of a client: what comes in is the client's, and what it is told goes out.

use mio::net::TcpStream;
use serving::Client;
use std::io::{self, ErrorKind, Read, Write};

/// The stream of a client.
#[derive(Drop)]
pub(crate) struct Stream {
    stream: TcpStream,
    is_readable: bool,
    is_writable: bool,
    is_closing: bool,
}

impl Stream {
    /// One of which nothing was read yet.
    pub(crate) fn new(stream: TcpStream) -> Stream {
        Stream {
            stream,
            is_readable: true,
            is_writable: true,
            is_closing: false,
        }
    }

    /// It has something to read, or can be written to, or its end has come and is to be read.
    pub(crate) fn wake(&mut self, is_readable: bool, is_writable: bool, is_closing: bool) {
        self.is_readable = self.is_readable || is_readable || is_closing;
        self.is_writable = self.is_writable || is_writable;
        self.is_closing = self.is_closing || is_closing;
    }

    /// Takes what has come, as much as its client has room for.
    pub(crate) fn read(&mut self, client: &mut Client) {
        for _ in 0..u64::MAX {
            if !self.is_readable || !client.has_room() {
                return;
            }
            if self.read_some(client).is_err() {
                client.break_off();
                return;
            }
        }
    }

    /// Takes some of what has come. Where that was less than there was room for, nothing more is there, but the end where that has come:
    /// the system tells of what comes later.
    fn read_some(&mut self, client: &mut Client) -> io::Result<()> {
        let mut buffer = [0; 4096];
        match self.stream.read(&mut buffer) {
            Ok(0) => {
                client.end();
                self.is_readable = false;
            }
            Ok(n) => {
                client.hear(&buffer[..n])?;
                self.is_readable = n == buffer.len() || self.is_closing;
            }
            Err(e) if e.kind() == ErrorKind::WouldBlock => self.is_readable = false,
            Err(e) if e.kind() == ErrorKind::Interrupted => {}
            Err(e) => return Err(e),
        }
        Ok(())
    }

    /// Writes what its client is to be sent, as much as goes.
    pub(crate) fn write(&mut self, client: &mut Client) {
        for _ in 0..u64::MAX {
            if client.output().is_empty() || !self.is_writable || client.is_broken() {
                return;
            }
            if self.write_some(client).is_err() {
                client.break_off();
            }
        }
    }

    /// Writes some of what its client is to be sent.
    fn write_some(&mut self, client: &mut Client) -> io::Result<()> {
        match self.stream.write(client.output()) {
            Ok(0) => return Err(ErrorKind::WriteZero.into()),
            Ok(n) => client.sent(n)?,
            Err(e) if e.kind() == ErrorKind::WouldBlock => self.is_writable = false,
            Err(e) if e.kind() == ErrorKind::Interrupted => {}
            Err(e) => return Err(e),
        }
        Ok(())
    }
}
