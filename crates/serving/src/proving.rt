ghost use Rattle.std.specs.Prelude.{◌≡◌, ◌++◌, ◌↔◌, IfOk, IsTrue, OnOk, codes};
ghost use Rattle.hex.specs.Hex.{encode_lower};
ghost use Rattle.serving.specs.Proving.{IsProof};

use crate::stage::Challenge;
use hmac::{Key, is_same};
use std::alloc::{AllocError, Global};

/// What a client has to prove: that it has this key, to this node, of this cluster.
#[derive(Debug, Drop)]
pub struct Lock {
    /// The clients' key.
    key: [u8; 32],
    /// What stands before the challenge in what is signed: "client", the node's name, and the digest of the cluster.
    head: Vec<u8>,
}

impl Lock {
    /// The lock of a node of this name, in a cluster of this digest.
    pub fn new(alloc: Global, key: [u8; 32], name: &[u8], digest: &[u8]) -> Result<Lock, AllocError>
        ensures key { IfOk result (λ lock. lock.key ≡ key) }
        ensures head { IfOk result (λ lock. lock.head.items ≡ (codes "client" ++ name.now) ++ digest.now) }
    {
        let mut head = Vec::from_slice(alloc, b"client")?;
        head.extend_from_slice(name)?;
        head.extend_from_slice(digest)?;
        Ok(Lock { key, head })
    }
}

/// Puts the line of a challenge.
pub fn put_challenge(out: &mut Vec<u8>, challenge: &Challenge) -> Result<(), AllocError>
    ensures { OnOk result (out.new.items ≡ ((out.old.items ++ codes "challenge ") ++ encode_lower challenge.now) ++ codes "\n") }
{
    let mut digits = [0; 32];
    let _ = hex::encode_to_slice(*challenge, &mut digits);
    out.extend_from_slice(b"challenge ")?;
    out.extend_from_slice(&digits)?;
    out.push(b'\n')?;
    Ok(())
}

/// Whether a line proves that its client has the key, if there is a lock.
pub(crate) fn is_proof(lock: &Option<Lock>, challenge: &Challenge, line: &[u8]) -> bool
    ensures { IsTrue result ↔ IsProof lock.now challenge.now line.now }
{
    let Some(lock) = lock else {
        return false;
    };
    let Some(digits) = line.strip_prefix(b"proof ".as_slice()) else {
        return false;
    };
    let tag = Key::new(&lock.key).tag(&lock.head, challenge, &[]);
    let mut right = [0; 64];
    match hex::encode_to_slice(tag, &mut right) {
        Ok(()) => is_same(digits, &right),
        Err(_) => false,
    }
}
