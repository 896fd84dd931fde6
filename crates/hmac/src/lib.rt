//! HMAC-SHA256 (RFC 2104) over SHA-256: a tag of a message that only holders of a key can make.
#![tactic(auto)]

ghost use Rattle.std.specs.Prelude.{◌≡◌, ⊤, ◌++◌, ◌≤◌, ℕ, List, length, IsTrue, ◌↔◌};
ghost use Rattle.hmac.specs.Hmac.{block_tag, hmac_sha256, in_block, key_block, masked};

use sha2::{Digest, Sha256};
use std::alloc::AllocError;
use std::marker::Model;

/// How many bytes a block has.
const BLOCK: usize = 64;

/// How many bytes a tag has.
pub const TAG: usize = 32;

/// A key. Each tag begins with two blocks that are the same for all messages, which are hashed once.
#[derive(Drop)]
pub struct Key {
    // the key as a block, by which contracts say what a tag is
    block: [u8; BLOCK],
    // what holds the block with the mask of messages
    inner: Sha256,
    // what holds it with that of their digests
    outer: Sha256,
}

impl Model for Key {
    ghost use Rattle.sha2.specs.Hashers.{Holds256};
    ghost use Rattle.hmac.specs.Hmac.{KeyParts, masked};

    ghost Value = { KeyParts };

    ghost view = { λ k. record { block = k.block } };

    ghost invariant = { λ k. Holds256 k.inner (masked 0x36 k.block) × Holds256 k.outer (masked 0x5c k.block) };
}

/// A block that begins with these bytes.
fn in_block(bytes: &[u8]) -> [u8; BLOCK]
    requires { length bytes.now ≤ 64 }
    ensures { result ≡ in_block bytes.now }
{
    let mut block = [0; BLOCK];
    for i in 0..bytes.len() {
        block[i] = bytes[i];
    }
    block
}

/// A block with a mask's bits turned in each byte.
fn masked(block: [u8; BLOCK], mask: u8) -> [u8; BLOCK]
    ensures { result ≡ masked mask block }
{
    let mut out = block;
    for i in 0..BLOCK {
        out[i] = block[i] ^ mask;
    }
    out
}

impl Clone for Key {
    ghost is_clone = { λ x y. y ≡ x };

    ghost is_infallible = { λ _. ⊤ };

    fn clone(&self) -> Result<Key, AllocError> {
        Ok(Key {
            block: self.block,
            inner: again(&self.inner),
            outer: again(&self.outer),
        })
    }
}

/// A hasher that holds what another one holds.
fn again(hasher: &Sha256) -> Sha256
    ensures { result ≡ hasher.now }
{
    hasher.clone().unwrap()
}

impl Key {
    /// The key of these bytes, of which there may be any number.
    pub fn new(bytes: &[u8]) -> Key
        ensures { result.block ≡ key_block bytes.now }
    {
        let block = if bytes.len() <= BLOCK {
            in_block(bytes)
        } else {
            in_block(&Sha256::digest(bytes))
        };
        Key {
            block,
            inner: Sha256::new_with_prefix(masked(block, 0x36)),
            outer: Sha256::new_with_prefix(masked(block, 0x5c)),
        }
    }

    /// The tag of a message that is these three parts, one after the other.
    pub fn tag(&self, first: &[u8], second: &[u8], third: &[u8]) -> [u8; TAG]
        ensures { result ≡ block_tag self.now.block (first.now ++ (second.now ++ third.now)) }
    {
        let mut inner = again(&self.inner);
        inner.update(first);
        inner.update(second);
        inner.update(third);
        let digest = inner.finalize();
        let mut outer = again(&self.outer);
        outer.update(digest);
        outer.finalize()
    }
}

/// The tag of a message under a key.
pub fn hmac(key: &[u8], message: &[u8]) -> [u8; TAG]
    ensures { result ≡ hmac_sha256 key.now message.now }
{
    Key::new(key).tag(message, &[], &[])
}

/// Whether two texts of one length are the same. It looks at each byte, whatever the earlier ones are.
pub fn is_same(a: &[u8], b: &[u8]) -> bool
    ensures { IsTrue result ↔ (a.now ≡ b.now) }
{
    if a.len() != b.len() {
        return false;
    }
    let mut same = true;
    for i in 0..a.len() {
        same = same & (a[i] == b[i]);
    }
    same
}
