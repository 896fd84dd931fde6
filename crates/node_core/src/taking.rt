//! What is made ready for a fact that it decided, and plays it once it is stored: a role, or the part of the protocol that it is.

ghost use Rattle.std.specs.Prelude.{◌≡◌, IfErr, OnOk};
ghost use Rattle.xid.specs.declared.refusals.Refusal.TheVariants.{NoMemory};
ghost use Rattle.node_core.specs.declared.role.Role.{Role as RoleParts};
ghost use Rattle.node_core.specs.Roles.{HasRoomFor, IsSame, TakesFact};

use crate::role::Role;
use acceptor::Acceptor;
use leader::Leader;
use resource_manager::ResourceManager;
use stable_record::{FactRest, FactView};
use xid::Refusal;

/// What plays the facts that it decided.
pub(crate) trait Playing {
    /// The role that it is.
    ghost role: { Self → RoleParts };

    /// Makes itself ready for a fact that it decided, so that `take` of it takes no memory. Refused: `NoMemory` alone.
    fn make_ready(&mut self, fact: &FactView<'_>) -> Result<(), Refusal>
        ensures ok { OnOk result (IsSame (role self.old) (role self.new) × HasRoomFor (role self.new) fact.now) }
        ensures err { IfErr result (λ e. e ≡ NoMemory) };

    /// Plays a fact that it decided and for which it is ready, once it is stored; a leader begins its ballot. It takes no memory, and is
    /// refused for no such fact.
    fn take(&mut self, fact: &FactView<'_>) -> Result<(), Refusal>
        ensures { TakesFact (role self.old) (role self.new) fact.now result };
}

impl Playing for Acceptor {
    ghost use Rattle.node_core.specs.declared.role.Role.TheVariants as roles;

    ghost role = { roles.Acceptor };

    fn make_ready(&mut self, fact: &FactView<'_>) -> Result<(), Refusal> {
        self.ready(fact.tx())
    }

    fn take(&mut self, fact: &FactView<'_>) -> Result<(), Refusal> {
        self.play(fact)
    }
}

impl Playing for Leader {
    ghost use Rattle.node_core.specs.declared.role.Role.TheVariants as roles;

    ghost role = { roles.Leader };

    fn make_ready(&mut self, fact: &FactView<'_>) -> Result<(), Refusal> {
        self.ready(fact)
    }

    /// Plays a ballot that is stored, and makes it current.
    fn take(&mut self, fact: &FactView<'_>) -> Result<(), Refusal> {
        let FactRest::Ballot { ballot } = fact.rest() else {
            return Err(Refusal::Damaged);
        };
        match self.play(fact) {
            Ok(()) => {
                self.begin(fact.tx(), *ballot);
                Ok(())
            }
            Err(refusal) => Err(refusal),
        }
    }
}

impl Playing for ResourceManager {
    ghost use Rattle.node_core.specs.declared.role.Role.TheVariants as roles;

    ghost role = { roles.Manager };

    fn make_ready(&mut self, fact: &FactView<'_>) -> Result<(), Refusal> {
        self.ready(fact)
    }

    fn take(&mut self, fact: &FactView<'_>) -> Result<(), Refusal> {
        self.play(fact)
    }
}

impl Playing for Role {
    ghost role = { λ role. role };

    fn make_ready(&mut self, fact: &FactView<'_>) -> Result<(), Refusal> {
        match self {
            Role::Acceptor(acceptor) => acceptor.make_ready(fact),
            Role::Leader(leader) => leader.make_ready(fact),
            Role::Manager(manager) => manager.make_ready(fact),
        }
    }

    fn take(&mut self, fact: &FactView<'_>) -> Result<(), Refusal> {
        match self {
            Role::Acceptor(acceptor) => acceptor.take(fact),
            Role::Leader(leader) => leader.take(fact),
            Role::Manager(manager) => manager.take(fact),
        }
    }
}
