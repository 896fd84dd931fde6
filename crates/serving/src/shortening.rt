ghost use Rattle.std.specs.Prelude.{◌≡◌, ◌↔◌, IsTrue};
ghost use Rattle.serving.specs.Shortenings.{IsDue, IsMarked};

/// A record of fewer bytes is left as it is.
pub const LEAST_RECORD: u64 = 1 << 20;

/// When a record is to be made shorter: when it has doubled since it last was.
#[derive(Clone, Copy, Debug, PartialEq, Eq)]
pub struct Shortening {
    /// How many bytes it had when it was last made shorter.
    pub mark: u64,
}

impl Shortening {
    /// Of a record that wasn't yet.
    pub fn new() -> Shortening
        ensures { result.mark ≡ 0 }
    {
        Shortening { mark: 0 }
    }

    /// Whether a record of so many bytes is to be made shorter.
    pub fn is_due(&self, len: u64) -> bool
        ensures { IsTrue result ↔ IsDue self.now.mark len }
    {
        len >= LEAST_RECORD && len / 2 >= self.mark
    }

    /// It was made shorter, from so many bytes to so many. Where that gained less than a fifth, it is left until it has doubled from what
    /// it was before.
    pub fn note(&mut self, before: u64, after: u64)
        ensures { IsMarked before after self.new.mark }
    {
        let is_little = u128::from(before) * 4 < u128::from(after) * 5;
        self.mark = if is_little { before } else { after };
    }
}
