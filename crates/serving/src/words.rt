ghost use Rattle.std.specs.Prelude.{◌≡◌, ◌≢◌, ℕ, ◌∷◌, List, Some, IfOk, MatchOption, codes};
ghost use Rattle.xid.specs.Places.{Place};
ghost use Rattle.protocol.specs.declared.nodes.NodeId.{NodeId as NodeIdParts};
ghost use Rattle.net_script.specs.Lines.{words};
ghost use Rattle.serving.specs.Wishes.{BeginsAsRequest, IsWish, SpellsFor};

use net_script::{Command, is_over, last_node, last_tx, next_word, node, read_command};
use protocol::{Event, NodeId, Request};
use std::alloc::Global;
use wire::OwnedTx;
use xid::{Floor, Refusal};

/// What a client's line wishes of a node.
#[derive(Debug, Drop)]
pub enum Wish {
    /// A request of this node.
    Ask(Request),
    /// That its floor rises to a place.
    Raise(Floor),
    /// The rows of its table.
    Table,
    /// The transactions that aren't final here.
    Open,
    /// How it is.
    Info,
    /// Where a transaction stands, once that is final.
    Await(OwnedTx),
    /// A command of another node.
    Elsewhere,
    /// No command of a client.
    Unknown,
}

/// What is wished of this node, if it is the one that was named.
fn of_node(me: NodeId, named: Option<NodeId>, wish: Wish) -> Wish
    ensures { (line : List ℕ) → SpellsFor named line wish → IsWish me line result }
{
    match named {
        Some(who) if who == me => wish,
        Some(_) => Wish::Elsewhere,
        None => Wish::Unknown,
    }
}

/// That the end of a transaction is awaited, by the words after `await`.
fn read_await(alloc: Global, me: NodeId, args: &[u8]) -> Result<Wish, Refusal>
    ensures { IfOk result (λ wish. (line : List ℕ) → words line ≡ codes "await" ∷ words args.now → IsWish me line wish) }
{
    let Some((who, rest)) = node(args) else {
        return Ok(Wish::Unknown);
    };
    match last_tx(alloc, rest)? {
        Some(tx) => Ok(of_node(me, Some(who), Wish::Await(tx))),
        None => Ok(Wish::Unknown),
    }
}

/// How the node is that is asked, where no word is after `info`.
fn read_info(args: &[u8]) -> Wish
    ensures { (me : NodeIdParts) (line : List ℕ) → words line ≡ codes "info" ∷ words args.now → IsWish me line result }
{
    if is_over(args) {
        return Wish::Info;
    }
    Wish::Unknown
}

/// Whose floor is to rise, and to where, if a command says that.
fn raised(command: &Option<Command>) -> Option<(u8, Floor)>
    ensures { MatchOption result ((rm : ℕ) (floor : Place) → command.now ≢ Some (Command.Do (Event.Raise rm floor)))
        (λ found. command.now ≡ Some (Command.Do (Event.Raise found.0 found.1))) }
{
    match command {
        Some(Command::Do(Event::Raise { rm, floor })) => Some((*rm, *floor)),
        _ => None,
    }
}

/// That a floor is to rise, by the words of a script.
fn read_floor(alloc: Global, me: NodeId, line: &[u8]) -> Result<Wish, Refusal>
    ensures { IfOk result (λ wish. (args : List (List ℕ)) → words line.now ≡ codes "floor" ∷ args → IsWish me line.now wish) }
{
    let command = read_command(alloc, line)?;
    match raised(&command) {
        Some(found) => Ok(of_node(me, Some(NodeId::R(found.0)), Wish::Raise(found.1))),
        None => Ok(Wish::Unknown),
    }
}

/// A request, by the words of a script.
fn read_request(alloc: Global, me: NodeId, line: &[u8]) -> Result<Wish, Refusal>
    ensures { IfOk result (λ wish. BeginsAsRequest line.now → IsWish me line.now wish) }
{
    let Some(command) = read_command(alloc, line)? else {
        return Ok(Wish::Unknown);
    };
    let Command::Do(event) = command else {
        return Ok(Wish::Unknown);
    };
    let Event::Ask { node, request } = event else {
        return Ok(Wish::Unknown);
    };
    Ok(of_node(me, Some(node), Wish::Ask(request)))
}

/// What a line wishes of a node. The only refusal is `NoMemory`.
pub fn read_wish(alloc: Global, me: NodeId, line: &[u8]) -> Result<Wish, Refusal>
    ensures { IfOk result (IsWish me line.now) }
{
    let Some((word, rest)) = next_word(line) else {
        return Ok(Wish::Unknown);
    };
    if word == b"table".as_slice() {
        return Ok(of_node(me, last_node(rest), Wish::Table));
    }
    if word == b"open".as_slice() {
        return Ok(of_node(me, last_node(rest), Wish::Open));
    }
    if word == b"await".as_slice() {
        return read_await(alloc, me, rest);
    }
    if word == b"floor".as_slice() {
        return read_floor(alloc, me, line);
    }
    if word == b"info".as_slice() {
        return Ok(read_info(rest));
    }
    read_request(alloc, me, line)
}
