use super::*;
use protocol::NodeId;
use std::process::Abort;
use std::test::Fail;
use wire::MAX_DATAGRAM;
use xid::Refusal;

const HERE: NodeId = NodeId::A(0);

/// A socket that finds itself, and no other node.
fn bound(rt: &HostRuntime) -> Result<UdpPort, Refusal> {
    let mut port = UdpPort::bind(rt)?;
    let mut addresses = Addresses::none();
    addresses.set(HERE, port.number());
    port.find_at(addresses);
    Ok(port)
}

/// The next datagram at the socket has these bytes, as far as they are taken.
fn takes<R: Abort>(rt: &R, port: &mut UdpPort, bytes: &[u8]) {
    let mut buffer = [0; MAX_TAKEN];
    match port.recv(&mut buffer) {
        Ok(Some(len)) => assert_eq!(rt; &buffer[..len.min(MAX_TAKEN)], bytes),
        _ => assert!(rt; false),
    }
}

/// No datagram is at the socket.
fn is_empty<R: Abort>(rt: &R, port: &mut UdpPort) {
    let mut buffer = [0; MAX_TAKEN];
    assert!(rt; matches!(port.recv(&mut buffer), Ok(None)));
}

#[test]
fn datagrams_come_one_by_one_and_nothing_waits(rt: HostRuntime) -> Result<(), Fail> {
    let mut port = bound(&rt)?;
    is_empty(&rt, &mut port);
    for bytes in [b"one".as_slice(), b"", b"two"] {
        port.send(HERE, bytes)?;
    }
    takes(&rt, &mut port, b"one");
    takes(&rt, &mut port, b"");
    takes(&rt, &mut port, b"two");
    is_empty(&rt, &mut port);
    assert_eq!(&rt; port.faults(), 0);
    Ok(())
}

/// Of 1,402 bytes the first 1,401 are taken, and the rest is lost.
#[test]
fn of_a_longer_datagram_the_first_bytes_are_taken(rt: HostRuntime) -> Result<(), Fail> {
    let mut bytes = [0; MAX_TAKEN + 1];
    bytes[..3].copy_from_slice(b"one");
    let mut port = bound(&rt)?;
    port.send(HERE, &bytes[..MAX_DATAGRAM])?;
    port.send(HERE, &bytes[..MAX_TAKEN])?;
    port.send(HERE, &bytes)?;
    takes(&rt, &mut port, &bytes[..MAX_DATAGRAM]);
    takes(&rt, &mut port, &bytes[..MAX_TAKEN]);
    takes(&rt, &mut port, &bytes[..MAX_TAKEN]);
    is_empty(&rt, &mut port);
    Ok(())
}

/// Neither a node that isn't found nor more bytes than a datagram can have reach the system's socket; what is sent next does.
#[test]
fn sends_that_fail_are_counted(rt: HostRuntime) -> Result<(), Fail> {
    let mut port = bound(&rt)?;
    assert!(&rt; port.send(NodeId::A(1), b"one") == Err(Refusal::PortFault));
    let mut long = Vec::new(rt.alloc());
    long.resize(65_508, 0)?;
    assert!(&rt; port.send(HERE, &long) == Err(Refusal::PortFault));
    assert_eq!(&rt; port.faults(), 2);
    port.send(HERE, b"two")?;
    takes(&rt, &mut port, b"two");
    is_empty(&rt, &mut port);
    assert_eq!(&rt; port.faults(), 2);
    Ok(())
}
