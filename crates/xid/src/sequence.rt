ghost use Rattle.std.specs.Prelude.{◌≡◌, IfOk, IfErr};
ghost use Rattle.std.specs.Cmp.Lexicographic.{pointwise};
ghost use Rattle.std.specs.Cmp.Rules.{comparing};
ghost use Rattle.std.proofs.Common.{rules};
ghost use Rattle.xid.specs.declared.refusals.Refusal.TheVariants.{NoMemory};

use crate::refusals::Refusal;
use std::alloc::Global;
use std::marker::Model;

/// Items in their order, which a contract sees as the list of them, wherever they lie in memory. So an enum or a struct that holds
/// a sequence is seen as its plain data.
#[derive(Debug, Drop)]
pub struct Sequence<T> {
    items: Vec<T>,
}

impl<T> Model for Sequence<T> {
    ghost use Rattle.std.specs.Prelude.{List};

    ghost Value = { List T };

    ghost view = { λ sequence. sequence.items.items };
}

impl<T> Sequence<T> {
    /// The items of a vector.
    pub fn new(items: Vec<T>) -> Sequence<T>
        ensures { result ≡ items.items }
    {
        Sequence { items }
    }

    /// Its items.
    pub fn as_slice(&self) -> &[T]
        ensures { result.now ≡ self.now }
    {
        &self.items
    }

    /// Its items, as a vector that may grow.
    pub fn into_vec(self) -> Vec<T>
        ensures { result.items ≡ self }
    {
        self.items
    }
}

/// Bytes of any number.
pub type Bytes = Sequence<u8>;

impl Sequence<u8> {
    /// A copy of bytes. At `NoMemory`, the only refusal, there is no copy, and the bytes stand as they were.
    pub fn copy_of(alloc: Global, bytes: &[u8]) -> Result<Bytes, Refusal>
        ensures ok { IfOk result (λ copy. copy ≡ bytes.now) }
        ensures err { IfErr result (λ e. e ≡ NoMemory) }
    {
        Ok(Sequence::new(Vec::from_slice(alloc, bytes)?))
    }
}

impl<T: PartialEq> PartialEq for Sequence<T> {
    ghost eq = { pointwise T.eq };

    ghost laws = { Prim.search (comparing, rules) };

    fn eq(&self, other: &Sequence<T>) -> bool {
        self.as_slice() == other.as_slice()
    }
}

impl<T: Eq> Eq for Sequence<T> {
    ghost laws = { Prim.search (comparing, rules) };
}
