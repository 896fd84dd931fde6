//! Transactions as text, `1:7431/0=6231,1=6232`.

ghost use Rattle.std.specs.Prelude.{◌≡◌, ◌≢◌, ℕ, List, ◌++◌, ◌≤◌, length, IfErr, OnOk, MatchOption};
ghost use Rattle.std.specs.Option.{IfSome};
ghost use Rattle.xid.specs.Limits.{most_component};
ghost use Rattle.xid.specs.Transactions.{TxParts, BranchParts, IsTx, IsBranch, AreBranches, branch_text, branches_text, tx_text};
ghost use Rattle.xid.specs.Text.{Extends};
ghost use Rattle.xid.specs.declared.refusals.Refusal.TheVariants.{NoMemory};

use crate::branches::{Branch, Branches};
use crate::component::Component;
use crate::limits::{MAX_BRANCHES, MAX_MANAGERS, ManagerNumber};
use crate::refusals::Refusal;
use crate::text;
use crate::transaction::Tx;

/// The resource manager's number and the bqual of the branch whose text this is, as `0=6231`.
fn branch_of(text: &[u8]) -> Option<(ManagerNumber, Component)>
    ensures text { MatchOption result ((b : BranchParts) → IsBranch b → text.now ≢ branch_text b)
        (λ b. (text.now ≡ branch_text (record { rm = b.0; bqual = b.1 })) × (length b.1 ≤ most_component)) }
    ensures same { IfSome result (λ b. (x : BranchParts) → IsBranch x → text.now ≡ branch_text x
        → record { rm = b.0; bqual = b.1 } ≡ x) }
{
    let Some((rm, bqual)) = text::split_once(text, b'=') else {
        return None;
    };
    let Some(rm) = text::number(rm) else {
        return None;
    };
    if rm >= u32::from(MAX_MANAGERS) {
        return None;
    }
    let Some(bqual) = text::component(bqual) else {
        return None;
    };
    Some((rm as ManagerNumber, bqual))
}

/// The branches whose text this is, with commas between.
fn branches_of(text: &[u8]) -> Option<Branches>
    ensures text { MatchOption result ((bs : List BranchParts) → AreBranches bs → text.now ≢ branches_text bs)
        (λ bs. text.now ≡ branches_text bs) }
    ensures same { IfSome result (λ bs. (xs : List BranchParts) → AreBranches xs → text.now ≡ branches_text xs → bs ≡ xs) }
{
    let mut all = Branches::new();
    let mut rest = text;
    for _ in 0..MAX_BRANCHES {
        let Some((first, after)) = text::split_once(rest, b',') else {
            let Some(last) = branch_of(rest) else {
                return None;
            };
            all.push(last.0, last.1.as_bytes());
            return Some(all);
        };
        let Some(branch) = branch_of(first) else {
            return None;
        };
        all.push(branch.0, branch.1.as_bytes());
        rest = after;
    }
    None
}

/// The transaction whose text this is.
pub(crate) fn tx_of(text: &[u8]) -> Option<Tx>
    ensures { MatchOption result ((tx : TxParts) → IsTx tx → text.now ≢ tx_text tx)
        (λ tx. IsTx tx × (text.now ≡ tx_text tx)) }
{
    let Some((format, rest)) = text::split_once(text, b':') else {
        return None;
    };
    let Some((gtrid, branches)) = text::split_once(rest, b'/') else {
        return None;
    };
    let Some(format) = text::number(format) else {
        return None;
    };
    let Some(gtrid) = text::component(gtrid) else {
        return None;
    };
    let Some(branches) = branches_of(branches) else {
        return None;
    };
    let Ok(tx) = Tx::from_branches(format, gtrid.as_bytes(), &branches) else {
        return None;
    };
    Some(tx)
}

/// Writes a branch's text at the end.
fn write_branch(branch: &Branch, text: &mut Vec<u8>) -> Result<(), Refusal>
    ensures ok { OnOk result (text.new.items ≡ text.old.items ++ branch_text branch.now) }
    ensures err { IfErr result (λ e. e ≡ NoMemory) }
    ensures kept { Extends text.old.items text.new.items }
{
    text::put_number(u32::from(branch.rm()), text)?;
    text.push(b'=')?;
    text::put_hex(branch.bqual(), text)
}

/// Writes the text of branches at the end.
pub(crate) fn write_branches(branches: &[Branch], text: &mut Vec<u8>) -> Result<(), Refusal>
    ensures ok { OnOk result (text.new.items ≡ text.old.items ++ branches_text branches.now) }
    ensures err { IfErr result (λ e. e ≡ NoMemory) }
    ensures kept { Extends text.old.items text.new.items }
{
    let Some((first, others)) = branches.split_first() else {
        return Ok(());
    };
    write_branch(first, text)?;
    for branch in others {
        text.push(b',')?;
        write_branch(branch, text)?;
    }
    Ok(())
}
