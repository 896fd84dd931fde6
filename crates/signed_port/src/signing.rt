ghost use Rattle.std.specs.Prelude.{◌≡◌, ◌≢◌, ◌≤◌, ◌<◌, ◌+◌, ◌↔◌, IsTrue, ℕ, List, length, MatchOption, IfSome, IfNone};
ghost use Rattle.wire.specs.declared.grammar.TheConstants.{MAX_DATAGRAM};
ghost use Rattle.protocol.specs.declared.nodes.NodeId.{NodeId as Coded};
ghost use Rattle.signed_port.specs.Signing.{node_code, tag_of, signed, IsSigned, AreParts};

use crate::carrier::MAX_CARRIED;
use arrayvec::ArrayVec;
use hmac::{Key, TAG, is_same};
use protocol::NodeId;
use wire::MAX_DATAGRAM;

/// How many bytes a cluster's digest has.
pub const DIGEST: usize = 32;

/// How many bytes follow those of a datagram: who sends it, and the tag.
pub const TRAILER: usize = 2 + TAG;

/// What a node signs by: the key, the cluster's digest, and itself.
#[derive(Drop)]
pub(crate) struct Signer {
    pub(crate) key: Key,
    pub(crate) digest: [u8; DIGEST],
    pub(crate) who: NodeId,
}

/// The two bytes of a node.
fn node_code(who: NodeId) -> [u8; 2]
    ensures { result ≡ node_code who }
{
    match who {
        NodeId::A(a) => [0, a],
        NodeId::L(l) => [1, l],
        NodeId::R(rm) => [2, rm],
    }
}

/// The node of two bytes.
fn coded(code: &[u8]) -> Option<NodeId>
    ensures { MatchOption result ((n : Coded) → code.now ≢ node_code n) (λ n. code.now ≡ node_code n) }
{
    match code {
        [0, a] => Some(NodeId::A(*a)),
        [1, l] => Some(NodeId::L(*l)),
        [2, rm] => Some(NodeId::R(*rm)),
        _ => None,
    }
}

/// The bytes of a datagram, the code of who sent it, and its tag. None where it is too short.
fn parts(datagram: &[u8]) -> Option<(&[u8], &[u8], &[u8])>
    ensures none { IfNone result (length datagram.now < TRAILER) }
    ensures some { IfSome result (λ p. AreParts datagram.now p.0.now p.1.now p.2.now) }
{
    if datagram.len() < TRAILER {
        return None;
    }
    let (body, trailer) = datagram.split_at(datagram.len() - TRAILER);
    let (code, tag) = trailer.split_at(2);
    Some((body, code, tag))
}

impl Signer {
    /// The tag of bytes from a node to another.
    fn tag_of(&self, sender: NodeId, receiver: NodeId, body: &[u8]) -> [u8; TAG]
        ensures { result ≡ tag_of self.now.key.block self.now.digest sender receiver body.now }
    {
        let [kind, number] = node_code(sender);
        let [other_kind, other_number] = node_code(receiver);
        self.key.tag(
            &self.digest,
            &[kind, number, other_kind, other_number],
            body,
        )
    }

    /// A signed datagram of these bytes for a node.
    pub(crate) fn sign(&self, receiver: NodeId, body: &[u8]) -> ArrayVec<u8, MAX_CARRIED>
        requires { length body.now ≤ MAX_DATAGRAM }
        ensures { result.items ≡ signed self.now.key.block self.now.digest self.now.who receiver body.now }
    {
        let tag = self.tag_of(self.who, receiver, body);
        let mut datagram = ArrayVec::new();
        datagram.try_extend_from_slice(body).unwrap();
        datagram
            .try_extend_from_slice(&node_code(self.who))
            .unwrap();
        datagram.try_extend_from_slice(&tag).unwrap();
        datagram
    }

    /// Whether a code is this node's.
    fn is_own(&self, code: &[u8]) -> bool
        ensures { IsTrue result ↔ (code.now ≡ node_code self.now.who) }
    {
        is_same(code, &node_code(self.who))
    }

    /// The bytes of a datagram that another node signed for this one. None where it isn't signed so.
    pub(crate) fn body_of<'a>(&self, datagram: &'a [u8]) -> Option<&'a [u8]>
        ensures none { IfNone result ((body : List ℕ) → IsSigned self.now.key.block self.now.digest self.now.who body datagram.now → ⊥) }
        ensures some { IfSome result (λ body. IsSigned self.now.key.block self.now.digest self.now.who body.now datagram.now) }
        ensures length { IfSome result (λ body. length body.now + TRAILER ≡ length datagram.now) }
    {
        let Some((body, code, tag)) = parts(datagram) else {
            return None;
        };
        if self.is_own(code) {
            return None;
        }
        let Some(sender) = coded(code) else {
            return None;
        };
        let right = self.tag_of(sender, self.who, body);
        if is_same(tag, &right) {
            return Some(body);
        }
        None
    }
}
