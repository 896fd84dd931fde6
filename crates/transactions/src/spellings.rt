ghost use Rattle.std.specs.Prelude.{◌≡◌, ◌-◌, [], ◌∷◌, ◌++◌, IfErr, OnOk, get_or, length, slice_get, take};
ghost use Rattle.std.specs.Option.{option_map};
ghost use Rattle.xid.specs.declared.refusals.Refusal.TheVariants.{NoMemory};

use std::alloc::Global;
use std::marker::Model;
use xid::Refusal;

/// Spelled bytes in the order in which they came, one after another in one piece of memory, so that few places of memory are looked at
/// where one is looked up.
#[derive(Debug, Drop)]
pub struct Spellings {
    bytes: Vec<u8>,
    /// Where each ends; the next begins there.
    ends: Vec<usize>,
}

impl Model for Spellings {
    ghost use Rattle.std.specs.Prelude.{ℕ, List, length};
    ghost use Rattle.transactions.specs.Cuts.{cuts, AreEnds};

    ghost Value = { List (List ℕ) };

    ghost view = { λ s. cuts s.bytes.items 0 s.ends.items };

    ghost invariant = { λ s. AreEnds 0 s.ends.items (length s.bytes.items) };
}

/// Where the bytes of a number begin.
fn start_of(ends: &[usize], number: usize) -> usize
    ensures { result ≡ get_or (0 ∷ ends.now) number 0 }
{
    match number.checked_sub(1) {
        Some(before) => match ends.get(before) {
            Some(end) => *end,
            None => 0,
        },
        None => 0,
    }
}

impl Spellings {
    /// None. It takes no memory.
    pub fn new(alloc: Global) -> Spellings
        ensures { result ≡ [] }
    {
        Spellings {
            bytes: Vec::new(alloc),
            ends: Vec::new(alloc),
        }
    }

    /// How many there are.
    pub fn len(&self) -> usize
        ensures { result ≡ length self.now }
    {
        self.ends.len()
    }

    /// The bytes of a number, where there are so many. It takes no memory.
    pub fn get(&self, number: usize) -> Option<&[u8]>
        ensures { option_map (λ spelled. spelled.now) result ≡ slice_get self.now number }
    {
        let end = *self.ends.get(number)?;
        let start = start_of(&self.ends, number);
        self.bytes.get(start..end)
    }

    /// Puts bytes after the others. At `NoMemory`, the only refusal, all is as before.
    pub fn push(&mut self, spelled: &[u8]) -> Result<(), Refusal>
        ensures ok { OnOk result (self.new ≡ self.old ++ spelled.now ∷ []) }
        ensures err { IfErr result (λ e. (e ≡ NoMemory) × (self.new ≡ self.old)) }
    {
        self.ends.reserve(1)?;
        self.bytes.extend_from_slice(spelled)?;
        self.ends.push(self.bytes.len())?;
        Ok(())
    }

    /// Takes the last away, where there is one.
    pub fn pop(&mut self)
        ensures { self.new ≡ take (length self.old - 1) self.old }
    {
        let _ = self.ends.pop();
        let end = start_of(&self.ends, self.ends.len());
        self.bytes.truncate(end);
    }
}
