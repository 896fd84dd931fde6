use super::*;
use std::io;
use std::io::Write;
use std::test::Fail;
use xid::Refusal;

/// A run of some script.
const RUN: Subcommand<'static> = Subcommand::Run { file: "a.script" };

const SIZES: &[u8] = b"cluster acceptors 1 leaders 1 rms 1\n";

/// Takes at most seven bytes at a time, after an interruption, and none where it is full.
#[derive(Drop)]
struct Narrow {
    bytes: Vec<u8>,
    room: usize,
    is_interrupted: bool,
}

impl Write for Narrow {
    fn write(&mut self, buf: &[u8]) -> io::Result<usize> {
        self.is_interrupted = !self.is_interrupted;
        if self.is_interrupted {
            return Err(io::Error::from(io::ErrorKind::Interrupted));
        }
        let count = buf.len().min(7).min(self.room);
        self.bytes.extend_from_slice(&buf[..count])?;
        self.room -= count;
        Ok(count)
    }

    fn flush(&mut self) -> io::Result<()> {
        Ok(())
    }
}

#[test]
fn a_run_is_printed_in_parts(rt: HostRuntime) -> Result<(), Fail> {
    let alloc = rt.alloc();
    let whole = b"cluster acceptors 1 leaders 1 rms 1\nfinal r0\n".as_slice();
    for room in 0..whole.len() + 1 {
        let mut out = Narrow {
            bytes: Vec::new(alloc),
            room,
            is_interrupted: false,
        };
        let printed = answer(rt, RUN, SIZES, &mut out);
        if room < whole.len() {
            assert!(rt; printed == Err(Refusal::FileFault));
        } else {
            assert!(rt; printed == Ok(None));
        }
        assert_eq!(rt; out.bytes.as_slice(), &whole[..room]);
    }
    Ok(())
}
