ghost use Rattle.std.specs.Prelude.{◌≡◌, ◌≤◌, ℕ, List, [], length, take, IfNone, IfSome};
ghost use Rattle.letters.specs.Letters.{HasFirstMessage};

use letters::take_message;
use port::MAX_TAKEN;
use std::marker::Model;

/// What is left of the letter that came last: its messages that weren't taken yet. In contracts it is their bytes, each behind its length.
#[derive(Drop)]
pub(crate) struct Arrived {
    bytes: [u8; MAX_TAKEN],
    at: usize,
    end: usize,
}

impl Model for Arrived {
    ghost use Rattle.std.specs.Prelude.{◌≤◌, ◌-◌, ℕ, List, take, drop};
    ghost use Rattle.port.specs.declared.port.TheConstants.{MAX_TAKEN};

    ghost Value = { List ℕ };

    ghost view = { λ a. take (a.end - a.at) (drop a.at a.bytes) };

    ghost invariant = { λ a. (a.at ≤ a.end) × (a.end ≤ MAX_TAKEN) };
}

impl Arrived {
    /// Nothing came.
    pub(crate) fn nothing() -> Arrived
        ensures { result ≡ [] }
    {
        Arrived {
            bytes: [0; MAX_TAKEN],
            at: 0,
            end: 0,
        }
    }

    /// These are left now.
    pub(crate) fn keep(&mut self, bytes: &[u8])
        requires { length bytes.now ≤ MAX_TAKEN }
        ensures { self.new ≡ bytes.now }
    {
        let len = bytes.len();
        self.bytes[..len].copy_from_slice(bytes);
        self.at = 0;
        self.end = len;
    }

    /// Takes the first message that is left, to the front of a buffer, and answers how many bytes it has. Where none is, nothing is left.
    pub(crate) fn take(&mut self, buffer: &mut [u8; MAX_TAKEN]) -> Option<usize>
        ensures none { IfNone result ((message more : List ℕ) → HasFirstMessage message more self.old → ⊥) }
        ensures over { IfNone result (self.new ≡ []) }
        ensures some { IfSome result (λ len. HasFirstMessage (take len buffer.new) self.new self.old) }
        ensures within { IfSome result (λ len. len ≤ MAX_TAKEN) }
    {
        let (at, end) = (self.at, self.end);
        let Some((message, more)) = take_message(&self.bytes[at..end]) else {
            self.at = end;
            return None;
        };
        let (len, left) = (message.len(), more.len());
        buffer[..len].copy_from_slice(message);
        self.at = end - left;
        Some(len)
    }
}
