ghost use Rattle.std.specs.Prelude.{◌≡◌, IfOk, IfErr};
ghost use Rattle.xid.specs.declared.refusals.Refusal.TheVariants.{NoMemory};

use std::alloc::Global;
use std::marker::Model;
use xid::Refusal;

/// A value in a block of its own, which a contract sees as the value: an enum of which one variant would be large stays small, and is
/// moved without it.
#[derive(Debug, Drop)]
pub struct Boxed<T> {
    block: Box<T>,
}

impl<T> Model for Boxed<T> {
    ghost Value = { T };

    ghost view = { λ boxed. boxed.block.value };
}

impl<T: Drop> Boxed<T> {
    /// The value, moved into a block. At `NoMemory`, the only refusal, it is let go.
    pub fn new(alloc: Global, value: T) -> Result<Boxed<T>, Refusal>
        ensures ok { IfOk result (λ boxed. boxed ≡ value) }
        ensures err { IfErr result (λ e. e ≡ NoMemory) }
    {
        match Box::new(alloc, value) {
            Ok(block) => Ok(Boxed { block }),
            Err(_) => Err(Refusal::NoMemory),
        }
    }
}

impl<T> Boxed<T> {
    /// The value.
    pub fn get(&self) -> &T
        ensures { result.now ≡ self.now }
    {
        self.block.as_ref()
    }
}
