ghost use Rattle.std.specs.Prelude.{◌≡◌, true, not, IfErr, IfOk, IsOk, OnOk};
ghost use Rattle.xid.specs.declared.refusals.Refusal.TheVariants.{NoMemory};
ghost use Rattle.protocol.specs.Nodes.{on_request as on_request_of};
ghost use Rattle.node_core.specs.Raising.{Leaves, TellsClear};
ghost use Rattle.node_core.specs.Roles.{Decides, Replays, decided};
ghost use Rattle.node_core.specs.Sparing.{serves_freely};
ghost use Rattle.node_core.specs.Viewing.{TellsUnused};

use crate::output::Output;
use crate::requests::{at_manager, not_taken};
use acceptor::Acceptor;
use hashing::HashKey;
use leader::Leader;
use protocol::Request;
use resource_manager::ResourceManager;
use stable_record::{Fact, FactView};
use std::alloc::Global;
use xid::{Floor, Refusal};

/// What a node is: one part of the protocol. None of their rules stands here.
#[derive(Debug)]
pub enum Role {
    /// An acceptor.
    Acceptor(Acceptor),
    /// A leader.
    Leader(Leader),
    /// A resource manager.
    Manager(ResourceManager),
}

// in parts, and written once: a derived one would stand in each function that lets a role go
impl Drop for Role {
    fn drop(self) {
        match self {
            Role::Acceptor(acceptor) => let_acceptor_go(acceptor),
            Role::Leader(leader) => let_leader_go(leader),
            Role::Manager(manager) => let_manager_go(manager),
        }
    }
}

fn let_acceptor_go(_: Acceptor) {}

fn let_leader_go(_: Leader) {}

fn let_manager_go(_: ResourceManager) {}

impl Role {
    /// What it does on a request: the answer and what to send are put out, and in the place of `fact` stands the one that is to be stored
    /// before, if there is one. Its caller makes ready for it, stores it and then has it taken. A request that its kind doesn't take is
    /// answered `NoSuch`. Refused: `NoMemory` alone, at a commit at a leader, and at a resource manager at a recover and at calls that
    /// end no branch; then the role is of no use any more.
    pub fn on_request(
        &mut self,
        request: &Request,
        out: &mut Output,
        fact: &mut Option<Fact>,
    ) -> Result<(), Refusal>
        ensures ok { OnOk result (Decides self.old self.new (decided fact.new out.new)
            (λ config who facts memory. on_request_of config who facts memory request.now)) }
        ensures err { IfErr result (λ e. e ≡ NoMemory) }
        ensures free { serves_freely self.old request.now ≡ true → IsOk result }
    {
        match self {
            Role::Acceptor(_) => {
                not_taken(out, fact);
                Ok(())
            }
            Role::Leader(leader) => out.sends.ask(leader, request, &mut out.reply, fact),
            Role::Manager(manager) => at_manager(manager, request, out, fact),
        }
    }

    /// Plays a fact of a record, after those before it. Refused: the fact doesn't play (`Damaged`), or `NoMemory`; then the role is of no
    /// use any more.
    pub fn replay(&mut self, fact: &FactView<'_>) -> Result<(), Refusal>
        ensures { Replays self.old self.new fact.now result }
    {
        match self {
            Role::Acceptor(acceptor) => acceptor.play(fact),
            Role::Leader(leader) => leader.play(fact),
            Role::Manager(manager) => manager.play(fact),
        }
    }

    /// Whether a branch below a floor keeps that floor from standing here: only a resource manager has any. It takes no memory.
    pub fn is_held_back(&self, floor: &Floor) -> bool
        ensures { TellsClear floor.now self.now (not result) }
    {
        match self {
            Role::Manager(manager) => manager.has_branch_below(floor),
            Role::Acceptor(_) | Role::Leader(_) => false,
        }
    }

    /// Whether an acceptor or a leader has stored nothing about a name at or above a floor; of a resource manager it says no. It takes no
    /// memory.
    pub fn is_unused_above(&self, floor: &Floor) -> bool
        ensures { TellsUnused floor.now self.now result }
    {
        match self {
            Role::Acceptor(acceptor) => acceptor.is_unused_above(floor),
            Role::Leader(leader) => leader.is_unused_above(floor),
            Role::Manager(_) => false,
        }
    }

    /// Of how many transactions it keeps something in memory.
    pub fn transaction_count(&self) -> usize {
        match self {
            Role::Acceptor(acceptor) => acceptor.transaction_count(),
            Role::Leader(leader) => leader.transaction_count(),
            Role::Manager(manager) => manager.transaction_count(),
        }
    }

    /// What is left of it where it forgets what is below a floor. Refused: `NoMemory` alone.
    pub fn above(self, alloc: Global, key: HashKey, floor: &Floor) -> Result<Role, Refusal>
        ensures ok { IfOk result (λ left. Leaves floor.now self left) }
        ensures err { IfErr result (λ e. e ≡ NoMemory) }
    {
        match self {
            Role::Acceptor(acceptor) => Ok(Role::Acceptor(acceptor.above(key, floor)?)),
            Role::Leader(leader) => Ok(Role::Leader(leader.above(key, floor)?)),
            Role::Manager(manager) => Ok(Role::Manager(manager.above(alloc, key, floor)?)),
        }
    }
}
