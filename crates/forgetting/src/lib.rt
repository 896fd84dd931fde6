//! A node that forgets: what it has left of its facts and of its memory where its floor rises says of all that isn't below the floor what
//! all its facts say, and goes on to say it. So it does on each input what the machine's node with that floor does, which has forgotten
//! nothing. The functions have empty bodies; their clauses are the theorems.
#![tactic(auto)]

/// The claim.
pub mod headline;
