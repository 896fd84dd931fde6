ghost use Rattle.std.specs.Prelude.{◌≡◌, ℕ, ◌<◌, ◌≤◌, ◌^◌, IfOk, IfErr};
ghost use Rattle.ballot.specs.Ballots.{owner_of, next_of, IsOwned, IsNextOwned};
ghost use Rattle.xid.specs.declared.refusals.Refusal.TheVariants.{NoBallot};

use xid::Refusal;

/// The leader that owns a ballot above 0: they take turns, and leader 0 owns ballot 1.
pub fn owner(ballot: u32, leaders: u8) -> u8
    requires above_zero { 0 < ballot }
    requires some { 0 < leaders }
    ensures value { result ≡ owner_of leaders ballot }
    ensures in_range { result < leaders }
{
    ((ballot - 1) % leaders as u32) as u8
}

/// The least ballot that the leader owns and that is greater than `last`. Refused (`NoBallot`) where none up to 2^32-1
/// is left.
pub fn next_owned(leader: u8, leaders: u8, last: u32) -> Result<u32, Refusal>
    requires { leader < leaders }
    ensures ok { IfOk result (λ b. IsNextOwned leaders leader last b × (b ≡ next_of leaders leader last)) }
    ensures err { IfErr result (λ e. (e ≡ NoBallot) × (2 ^ 32 ≤ next_of leaders leader last)
        × ((b : ℕ) → IsOwned leaders leader b → last < b → 2 ^ 32 ≤ b)) }
{
    let turns = leaders as u32;
    let gap = (leader as u32 + turns - last % turns) % turns;
    last.checked_add(gap + 1).ok_or(Refusal::NoBallot)
}
