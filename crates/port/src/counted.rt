ghost use Rattle.std.specs.Prelude.{◌≡◌, ◌≢◌, ◌≤◌, ◌==◌, if◌then◌else◌, None, length, IfOk, IfErr, IfSome};
ghost use Rattle.port.specs.Asks.{Asks, IsUnasked, asked_after};

use std::io::{self, ErrorKind};
use std::net::{SocketAddr, UdpSocket};

/// What the system made of a datagram that it was asked to send.
#[derive(Clone, Copy, Debug, PartialEq, Eq)]
pub enum SendReply {
    /// It took all bytes.
    Sent,
    /// A signal interrupted it, and it took none.
    Interrupted,
    /// It took fewer bytes, or none.
    Failed,
}

/// A datagram that the system was asked to send.
#[derive(Clone, Copy)]
pub struct LastSend {
    /// To where.
    pub to: SocketAddr,
    /// How many bytes it has.
    pub len: usize,
    /// What the system made of it.
    pub reply: SendReply,
}

/// A socket for datagrams that doesn't wait. It keeps how often the system was asked to send by it, but for what a signal interrupted, and
/// what it was asked last. Only `ask` asks the system.
#[derive(Drop)]
pub struct CountedSocket {
    socket: UdpSocket,
    asked: u64,
    last: Option<LastSend>,
}

impl CountedSocket {
    /// One over a socket that doesn't wait. Nothing was asked of it yet.
    pub fn new(socket: UdpSocket) -> CountedSocket
        ensures { IsUnasked result }
    {
        CountedSocket {
            socket,
            asked: 0,
            last: None,
        }
    }

    /// Takes a datagram, if one is there, and answers how many bytes of it stand in the buffer. A call that was interrupted is tried again.
    pub fn take(&self, buffer: &mut [u8]) -> io::Result<Option<usize>>
        ensures { IfOk result (λ taken. IfSome taken (λ len. len ≤ length buffer.new)) }
    {
        for _ in 0..u64::MAX {
            match self.socket.recv_from(buffer) {
                Ok((len, _)) => return Ok(Some(len)),
                Err(e) if e.kind() == ErrorKind::WouldBlock => return Ok(None),
                Err(e) if e.kind() == ErrorKind::Interrupted => {}
                Err(e) => return Err(e),
            }
        }
        Ok(None)
    }

    /// Asks the system to send bytes, as one datagram, to an address: once, and again where a signal interrupted it.
    pub fn send(&mut self, to: SocketAddr, bytes: &[u8]) -> SendReply
        ensures { Asks self.old self.new to (length bytes.now) result }
    {
        let mut reply = self.ask(to, bytes);
        for _ in 0..u64::MAX {
            match reply {
                SendReply::Interrupted => reply = self.ask(to, bytes),
                SendReply::Sent | SendReply::Failed => return reply,
            }
        }
        reply
    }

    /// Asks the system, by one call, to send bytes, as one datagram, to an address.
    fn ask(&mut self, to: SocketAddr, bytes: &[u8]) -> SendReply
        ensures { Asks self.old self.new to (length bytes.now) result }
    {
        let len = bytes.len();
        let reply = reply_of(self.socket.send_to(bytes, to), len);
        self.asked = asked_after(self.asked, reply);
        self.last = Some(LastSend { to, len, reply });
        reply
    }
}

/// What the system made of a datagram of so many bytes, by what its call gave.
fn reply_of(given: io::Result<usize>, len: usize) -> SendReply
    ensures ok { IfOk given (λ taken. result ≡ (if taken == len then SendReply.Sent else SendReply.Failed)) }
    ensures err { IfErr given (λ e. result ≢ SendReply.Sent) }
{
    match given {
        Ok(taken) if taken == len => SendReply::Sent,
        Ok(_) => SendReply::Failed,
        Err(e) if e.kind() == ErrorKind::Interrupted => SendReply::Interrupted,
        Err(_) => SendReply::Failed,
    }
}

/// How often the system was asked, after it replied once more.
fn asked_after(asked: u64, reply: SendReply) -> u64
    ensures { result ≡ asked_after asked reply }
{
    match reply {
        SendReply::Interrupted => asked,
        SendReply::Sent | SendReply::Failed => asked.saturating_add(1),
    }
}
