//! The commands of a script.

ghost use Rattle.std.specs.Prelude.{◌≡◌, ◌==◌, ◌++◌, ◌∷◌, [], IfErr, IfOk, OnOk, length};
ghost use Rattle.std.specs.List.{flat_map};
ghost use Rattle.xid.specs.declared.refusals.Refusal.TheVariants.{NoMemory};

use crate::values::Command;
use std::alloc::{AllocError, Global};
use std::marker::Model;
use std::mem;
use xid::{Refusal, Sequence};

/// How many commands a batch has, but for the last.
const BATCH: usize = 1_024;

/// Commands in their order, which a contract sees as the list of them. They stand in batches, so that those that are done can be let go
/// while others are still to come: in a long run they have as much memory as its cluster.
#[derive(Debug, Drop)]
pub struct Commands {
    full: Vec<Sequence<Command>>,
    last: Vec<Command>,
}

impl Model for Commands {
    ghost use Rattle.std.specs.Prelude.{◌≡◌, List, length};
    ghost use Rattle.net_script.specs.Batches.{in_batches};
    ghost use Rattle.net_script.specs.declared.values.Command.{Command};

    ghost Value = { List Command };

    ghost view = { λ c. in_batches c.full.items c.last.items };

    ghost invariant = { λ c. length c.last.items ≡ 0 → length c.full.items ≡ 0 };
}

impl Commands {
    /// None. It takes no memory.
    pub fn new(alloc: Global) -> Commands
        ensures { result ≡ [] }
    {
        Commands {
            full: Vec::new(alloc),
            last: Vec::new(alloc),
        }
    }

    /// Whether there is none.
    pub fn is_empty(&self) -> bool
        ensures { result ≡ (length self.now == 0) }
    {
        self.last.is_empty()
    }

    /// Puts one more at the end. Where memory is refused, the commands are of no use any more.
    pub(crate) fn push(&mut self, alloc: Global, command: Command) -> Result<(), AllocError>
        ensures { OnOk result (self.new ≡ self.old ++ command ∷ []) }
    {
        if self.last.len() < BATCH {
            self.last.push(command)?;
            return Ok(());
        }
        let mut next = Vec::with_capacity(alloc, BATCH)?;
        next.push(command)?;
        let full = mem::replace(&mut self.last, next);
        self.full.push(Sequence::new(full))?;
        Ok(())
    }

    /// Its batches, in order. Refused: `NoMemory` alone; then all commands are let go.
    pub fn into_batches(self) -> Result<Vec<Sequence<Command>>, Refusal>
        ensures ok { IfOk result (λ batches. flat_map (λ batch. batch) batches.items ≡ self) }
        ensures err { IfErr result (λ e. e ≡ NoMemory) }
    {
        let Commands { full, last } = self;
        let mut batches = full;
        batches.push(Sequence::new(last))?;
        Ok(batches)
    }

    /// Its commands in one piece. Refused: `NoMemory` alone; then all are let go.
    pub fn into_vec(self, alloc: Global) -> Result<Vec<Command>, Refusal>
        ensures ok { IfOk result (λ commands. commands.items ≡ self) }
        ensures err { IfErr result (λ e. e ≡ NoMemory) }
    {
        let mut all = Vec::new(alloc);
        for batch in self.into_batches()? {
            all.append(&mut batch.into_vec())?;
        }
        Ok(all)
    }
}
