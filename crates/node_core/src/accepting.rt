//! What an acceptor does on a datagram: its message is seen over the bytes, and so is the fact that is stored. No transaction is built.

ghost use Rattle.std.specs.Prelude.{◌≡◌, ◌&&◌, true, List, None};
ghost use Rattle.xid.specs.Transactions.{TxParts};
ghost use Rattle.wire.specs.Said.{said};
ghost use Rattle.stable_record.specs.declared.fact.FactKind.{FactKind};
ghost use Rattle.protocol.specs.Effects.{Config};
ghost use Rattle.protocol.specs.Nodes.{Memory, is_acceptor_inside, is_form_of, is_message_inside, on_message};
ghost use Rattle.node_core.specs.declared.role.Role.TheVariants as roles;
ghost use Rattle.node_core.specs.Nodes.{AreSizes};
ghost use Rattle.node_core.specs.Roles.{RoleStands};
ghost use Rattle.node_core.specs.Storing.{Carries, carried};

use crate::config::Sizes;
use crate::output::Output;
use crate::storing::carry_out;
use acceptor::Acceptor;
use protocol::NodeId;
use stable_record::Record;
use wire::{MessageView, Rest};

/// Whether what a message says beside its transaction names none but nodes of the cluster, and has the form that goes there.
fn has_form(sizes: Sizes, rest: Rest<'_>) -> bool
    ensures { (config : Config) (tx : TxParts) → AreSizes config sizes
        → result ≡ (is_acceptor_inside config (said tx rest.entry) && is_form_of config.bundled (said tx rest.entry)) }
{
    match rest {
        Rest::P1a { .. } => !sizes.bundled,
        Rest::P1b { acceptor, .. } | Rest::P2b { acceptor, .. } => {
            acceptor < sizes.acceptors && !sizes.bundled
        }
        Rest::B1a { .. } => sizes.bundled,
        Rest::B1b { acceptor, .. } | Rest::B2b { acceptor, .. } => {
            acceptor < sizes.acceptors && sizes.bundled
        }
        Rest::Prepare | Rest::Commit | Rest::Abort | Rest::P2a { .. } | Rest::Ask { .. } => true,
    }
}

/// Whether a message is one of the cluster: it names none but its nodes, and has the form that goes there.
pub(crate) fn is_of_cluster(sizes: Sizes, message: &MessageView<'_>) -> bool
    ensures { (config : Config) → AreSizes config sizes → result ≡ is_message_inside config message.now }
{
    if !message.tx().are_below(u16::from(sizes.managers)) {
        return false;
    }
    has_form(sizes, message.rest())
}

/// What an acceptor that is up does on a message of the cluster. False where it goes down.
pub(crate) fn accept<R: Record>(
    frame: &mut Vec<u8>,
    device: &mut R,
    who: NodeId,
    acceptor: &mut Acceptor,
    message: &MessageView<'_>,
    out: &mut Output,
) -> bool
    ensures carries { (config : Config) (facts : List FactKind) (memory : Memory)
        → RoleStands config who (roles.Acceptor acceptor.old) facts memory
        → Carries config who facts memory (on_message config who facts memory message.now)
        (R.held device.old) (R.held device.new) (roles.Acceptor acceptor.new) (carried result out.new) }
    ensures free { (config : Config) (facts : List FactKind) (memory : Memory)
        → RoleStands config who (roles.Acceptor acceptor.old) facts memory
        → (on_message config who facts memory message.now).fact ≡ None → result ≡ true }
{
    let decision = acceptor.on_message(message);
    out.put_reply(&decision.reply);
    carry_out(frame, device, who, acceptor, &decision.fact, out)
}
