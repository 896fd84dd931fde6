//! What a resource manager does on a datagram: its message is seen over the bytes, and so are the fact that is stored and the message that
//! is sent. No transaction is built but for the change of a view.

ghost use Rattle.std.specs.Prelude.{List};
ghost use Rattle.stable_record.specs.declared.fact.FactKind.{FactKind};
ghost use Rattle.protocol.specs.Effects.{Config};
ghost use Rattle.protocol.specs.Nodes.{Memory, on_message};
ghost use Rattle.node_core.specs.declared.role.Role.TheVariants as roles;
ghost use Rattle.node_core.specs.Roles.{RoleStands};
ghost use Rattle.node_core.specs.Storing.{Carries, carried};

use crate::output::Output;
use crate::storing::carry_out;
use protocol::NodeId;
use resource_manager::ResourceManager;
use stable_record::Record;
use wire::MessageView;

/// What a resource manager that is up does on a message of the cluster. False where it goes down.
pub(crate) fn manage<R: Record>(
    frame: &mut Vec<u8>,
    device: &mut R,
    who: NodeId,
    manager: &mut ResourceManager,
    message: &MessageView<'_>,
    out: &mut Output,
) -> bool
    ensures { (config : Config) (facts : List FactKind) (memory : Memory)
        → RoleStands config who (roles.Manager manager.old) facts memory
        → Carries config who facts memory (on_message config who facts memory message.now)
        (R.held device.old) (R.held device.new) (roles.Manager manager.new) (carried result out.new) }
{
    match manager.on_message(message) {
        Ok(decision) => {
            out.put_reply(&decision.reply);
            carry_out(frame, device, who, manager, &decision.fact, out)
        }
        Err(refusal) => {
            out.refuse(refusal);
            false
        }
    }
}
