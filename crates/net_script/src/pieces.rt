//! Words that are written at the end of a text, each after a space.

ghost use Rattle.std.specs.Prelude.{◌≡◌, ◌++◌, ◌∷◌, IfErr, OnOk, decimal, OnErr};
ghost use Rattle.xid.specs.Text.{Extends};
ghost use Rattle.net_script.specs.Basics.{NoMemory, R, tx_text, xid_text};
ghost use Rattle.net_script.specs.Lines.{bytes_text, node_text, floor_text};
ghost use Rattle.net_script.specs.Items.{rows_words};
ghost use Rattle.net_script.specs.Traces.{spaced_words};
ghost use Rattle.net_script.specs.Writing.{Puts};

use protocol::{NodeId, Row};
use xid::{Floor, Refusal, Tx, Xid, text};

/// A word.
pub(crate) fn put_word(out: &mut Vec<u8>, word: &[u8]) -> Result<(), Refusal>
    ensures puts { Puts out.old.items out.new.items result (32 ∷ word.now) }
    ensures kept { OnErr result (Extends out.old.items out.new.items) }
{
    out.push(b' ')?;
    out.extend_from_slice(word)?;
    Ok(())
}

/// A number.
pub(crate) fn put_number(out: &mut Vec<u8>, number: u32) -> Result<(), Refusal>
    ensures puts { Puts out.old.items out.new.items result (32 ∷ decimal number) }
    ensures kept { OnErr result (Extends out.old.items out.new.items) }
{
    out.push(b' ')?;
    text::put_number(number, out)?;
    Ok(())
}

/// A number behind a letter.
fn put_lettered(out: &mut Vec<u8>, letter: u8, number: u32) -> Result<(), Refusal>
    ensures puts { Puts out.old.items out.new.items result (32 ∷ letter ∷ decimal number) }
    ensures kept { OnErr result (Extends out.old.items out.new.items) }
{
    if number < 10 {
        out.extend_from_slice(&[b' ', letter, b'0' + number as u8])?;
        return Ok(());
    }
    out.push(b' ')?;
    out.push(letter)?;
    text::put_number(number, out)?;
    Ok(())
}

/// A resource manager.
pub(crate) fn put_manager(out: &mut Vec<u8>, rm: u32) -> Result<(), Refusal>
    ensures puts { Puts out.old.items out.new.items result (32 ∷ node_text (R rm)) }
    ensures kept { OnErr result (Extends out.old.items out.new.items) }
{
    put_lettered(out, b'r', rm)
}

/// A node. The only refusal is `NoMemory`, and then what stood in `out` still begins it.
pub fn put_node(out: &mut Vec<u8>, node: NodeId) -> Result<(), Refusal>
    ensures ok { OnOk result (out.new.items ≡ out.old.items ++ 32 ∷ node_text node) }
    ensures err { IfErr result (λ e. e ≡ NoMemory) }
    ensures kept { OnErr result (Extends out.old.items out.new.items) }
{
    match node {
        NodeId::A(number) => put_lettered(out, b'a', u32::from(number)),
        NodeId::L(number) => put_lettered(out, b'l', u32::from(number)),
        NodeId::R(number) => put_lettered(out, b'r', u32::from(number)),
    }
}

/// Bytes, after what was written.
fn put_bytes(out: &mut Vec<u8>, bytes: &[u8]) -> Result<(), Refusal>
    ensures puts { Puts out.old.items out.new.items result (bytes_text bytes.now) }
    ensures kept { OnErr result (Extends out.old.items out.new.items) }
{
    if bytes.is_empty() {
        out.push(b'-')?;
        return Ok(());
    }
    text::put_hex(bytes, out)?;
    Ok(())
}

/// Bytes.
pub(crate) fn put_bytes_word(out: &mut Vec<u8>, bytes: &[u8]) -> Result<(), Refusal>
    ensures puts { Puts out.old.items out.new.items result (32 ∷ bytes_text bytes.now) }
    ensures kept { OnErr result (Extends out.old.items out.new.items) }
{
    out.push(b' ')?;
    put_bytes(out, bytes)
}

/// An XID.
pub(crate) fn put_xid(out: &mut Vec<u8>, xid: &Xid) -> Result<(), Refusal>
    ensures puts { Puts out.old.items out.new.items result (32 ∷ xid_text xid.now) }
    ensures kept { OnErr result (Extends out.old.items out.new.items) }
{
    out.push(b' ')?;
    xid.write(out)?;
    Ok(())
}

/// A floor. Refused as `put_node` is.
pub fn put_floor(out: &mut Vec<u8>, floor: &Floor) -> Result<(), Refusal>
    ensures ok { OnOk result (out.new.items ≡ out.old.items ++ 32 ∷ floor_text floor.now) }
    ensures err { IfErr result (λ e. e ≡ NoMemory) }
    ensures kept { OnErr result (Extends out.old.items out.new.items) }
{
    put_number(out, floor.format())?;
    out.push(b':')?;
    put_bytes(out, floor.gtrid())
}

/// A transaction. Refused as `put_node` is.
pub fn put_tx(out: &mut Vec<u8>, tx: &Tx) -> Result<(), Refusal>
    ensures ok { OnOk result (out.new.items ≡ out.old.items ++ 32 ∷ tx_text tx.now) }
    ensures err { IfErr result (λ e. e ≡ NoMemory) }
    ensures kept { OnErr result (Extends out.old.items out.new.items) }
{
    out.push(b' ')?;
    tx.write(out)?;
    Ok(())
}

/// Rows. Refused as `put_node` is.
pub fn put_rows(out: &mut Vec<u8>, rows: &[Row]) -> Result<(), Refusal>
    ensures ok { OnOk result (out.new.items ≡ out.old.items ++ spaced_words (rows_words rows.now)) }
    ensures err { IfErr result (λ e. e ≡ NoMemory) }
    ensures kept { OnErr result (Extends out.old.items out.new.items) }
{
    for row in rows {
        out.push(b' ')?;
        text::put_hex(row.key.as_slice(), out)?;
        out.push(b'=')?;
        put_bytes(out, row.value.as_slice())?;
    }
    Ok(())
}
