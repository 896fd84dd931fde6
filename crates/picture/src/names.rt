//! The address of a trace, as links have it.

ghost use Rattle.std.specs.Prelude.{◌≡◌, ◌<◌, ◌++◌, IfOk, IfErr, OnOk};
ghost use Rattle.xid.specs.declared.refusals.Refusal.TheVariants.{NoMemory};
ghost use Rattle.picture.specs.Places.{address_byte, address_of, hex_digit, is_of_addresses};

use std::alloc::Global;
use xid::{Bytes, Refusal, Sequence};

/// Whether a byte stands for itself in an address.
fn is_of_addresses(byte: u8) -> bool
    ensures { result ≡ is_of_addresses byte }
{
    matches!(byte, b'a'..=b'z' | b'A'..=b'Z' | b'0'..=b'9' | b'-' | b'.' | b'/' | b'_' | b'~')
}

/// A hexadecimal digit, in upper case.
fn hex_digit(number: u8) -> u8
    requires { number < 16 }
    ensures { result ≡ hex_digit number }
{
    if number < 10 {
        b'0' + number
    } else {
        b'A' + (number - 10)
    }
}

/// A byte of an address.
fn put_address_byte(out: &mut Vec<u8>, byte: u8) -> Result<(), Refusal>
    ensures ok { OnOk result (out.new.items ≡ out.old.items ++ address_byte byte) }
    ensures err { IfErr result (λ e. e ≡ NoMemory) }
{
    if is_of_addresses(byte) {
        out.push(byte)?;
        return Ok(());
    }
    out.push(b'%')?;
    out.push(hex_digit(byte / 16))?;
    out.push(hex_digit(byte % 16))?;
    Ok(())
}

/// The address of a file of this path, for a page that stands where the path begins. The only refusal is `NoMemory`.
pub(crate) fn address_of(alloc: Global, path: &[u8]) -> Result<Bytes, Refusal>
    ensures ok { IfOk result (λ address. address ≡ address_of path.now) }
    ensures err { IfErr result (λ e. e ≡ NoMemory) }
{
    let mut address = Vec::new(alloc);
    for byte in path {
        put_address_byte(&mut address, *byte)?;
    }
    Ok(Sequence::new(address))
}
