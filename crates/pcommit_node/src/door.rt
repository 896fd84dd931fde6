//! Where clients come in, and their streams.

ghost use Rattle.std.specs.Prelude.{◌≡◌, false, IfOk};
ghost use Rattle.serving.specs.Clients.{is_awaiting};

use crate::logging::Logger;
use crate::stream::Stream;
use log::{debug, warn};
use mio::net::{TcpListener, TcpStream};
use mio::{Events, Interest, Poll, Token};
use node_process::{Desk, MAX_CLIENTS};
use serving::{Challenge, Stage, put_challenge};
use std::alloc::Global;
use std::io::{self, ErrorKind};
use std::random::RandomSource;
use std::time::Instant;

/// The token of the socket for datagrams.
pub(crate) const DATAGRAMS: Token = Token(0);
/// The token of the listener.
pub(crate) const LISTENER: Token = Token(1);
/// The token of the first client.
const CLIENTS: usize = 2;

/// Where clients come in, and their streams.
#[derive(Drop)]
pub(crate) struct Door {
    pub(crate) alloc: Global,
    pub(crate) log: Logger,
    pub(crate) poll: Poll,
    pub(crate) listener: Option<TcpListener>,
    /// Whether clients have to prove that they have a key.
    pub(crate) is_locked: bool,
    /// The stream of each client, at the client's key.
    pub(crate) streams: Vec<Option<Stream>>,
    /// Whether clients may be there to be taken in.
    pub(crate) has_clients: bool,
}

impl Door {
    /// Notes what the system told of sockets.
    pub(crate) fn note(&mut self, desk: &mut Desk, events: &Events<Global>) {
        for event in events {
            let Token(token) = event.token();
            if token == DATAGRAMS.0 {
                desk.has_datagrams = true;
            } else if token == LISTENER.0 {
                self.has_clients = true;
            } else if let Some(Some(stream)) = self.streams.get_mut(token.saturating_sub(CLIENTS)) {
                stream.wake(
                    event.is_readable(),
                    event.is_writable(),
                    event.is_read_closed(),
                );
            }
        }
    }

    /// Takes in the clients that wait.
    pub(crate) fn accept_all(&mut self, desk: &mut Desk, now: Instant) {
        for _ in 0..MAX_CLIENTS {
            if !self.has_clients {
                return;
            }
            let Some(listener) = &self.listener else {
                self.has_clients = false;
                return;
            };
            match listener.accept() {
                Ok((stream, _)) => {
                    if let Err(error) = self.accept(desk, stream, now) {
                        warn!(self.log; "a client was closed: {error}");
                    }
                }
                Err(error) => {
                    self.has_clients = error.kind() != ErrorKind::WouldBlock;
                    return;
                }
            }
        }
    }

    /// Takes in a client. One too many is closed.
    fn accept(&mut self, desk: &mut Desk, stream: TcpStream, now: Instant) -> io::Result<()> {
        if desk.clients.seats.len() >= MAX_CLIENTS {
            warn!(self.log; "a client was closed: there are {MAX_CLIENTS} already");
            return Ok(());
        }
        let mut stream = stream;
        let _ = stream.set_nodelay(true);
        let place = desk.clients.seats.vacant_key();
        let token = Token(place.saturating_add(CLIENTS));
        self.poll.registry().register(&mut stream, token, Interest::READABLE | Interest::WRITABLE)?;
        self.make_place(place)?;
        let mut greeting = Vec::new(self.alloc);
        let stage = self.greet(&mut greeting)?;
        let key = desk.clients.come(stage, &greeting, now)?;
        debug!(self.log; "client {} came", desk.clients.count);
        self.seat(desk, key, Stream::new(stream));
        Ok(())
    }

    /// There is a place for a stream at a key.
    fn make_place(&mut self, key: usize) -> io::Result<()> {
        for _ in self.streams.len()..key.saturating_add(1) {
            self.streams.push(None)?;
        }
        Ok(())
    }

    /// The stream of a new client stands at its key, and what it is told at first goes out.
    fn seat(&mut self, desk: &mut Desk, key: usize, stream: Stream) {
        let mut stream = stream;
        if let Some(client) = desk.clients.seats.get_mut(key) {
            stream.write(client);
        }
        if let Some(place) = self.streams.get_mut(key) {
            *place = Some(stream);
        }
    }

    /// What the next lines of a new client are, and how it is greeted: one that has a key to prove is challenged.
    fn greet(&self, greeting: &mut Vec<u8>) -> io::Result<Stage>
        ensures { IfOk result (λ stage. is_awaiting stage ≡ false) }
    {
        if !self.is_locked {
            return Ok(Stage::Open);
        }
        let mut challenge: Challenge = [0; 16];
        self.log.fill_bytes(&mut challenge)?;
        put_challenge(greeting, &challenge)?;
        Ok(Stage::Proving(challenge))
    }

    /// The stream of a client is closed.
    pub(crate) fn close(&mut self, key: usize) {
        if let Some(place) = self.streams.get_mut(key) {
            *place = None;
        }
    }

    /// Takes what clients have written.
    pub(crate) fn read_all(&mut self, desk: &mut Desk) {
        for key in 0..self.streams.len() {
            if let Some(Some(stream)) = self.streams.get_mut(key) {
                if let Some(client) = desk.clients.seats.get_mut(key) {
                    stream.read(client);
                }
            }
        }
    }

    /// Writes what has to go out to clients.
    pub(crate) fn write_all(&mut self, desk: &mut Desk) {
        for key in 0..self.streams.len() {
            if let Some(Some(stream)) = self.streams.get_mut(key) {
                if let Some(client) = desk.clients.seats.get_mut(key) {
                    stream.write(client);
                }
            }
        }
    }
}
