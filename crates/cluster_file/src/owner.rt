ghost use Rattle.std.specs.Prelude.{◌≡◌, ◌↔◌, IsTrue};
ghost use Rattle.cluster_file.specs.Texts.{owner_text};

use arrayvec::ArrayVec;
use itoa::Buffer;
use protocol::NodeId;

/// How many bytes the text of an owner has at most.
const TEXT: usize = 70;

/// Which node a record is of, and of which cluster: this stands beside the record.
#[derive(Clone, Copy, Debug, PartialEq, Eq)]
pub struct Owner {
    /// The node.
    pub who: NodeId,
    /// The digest of its cluster.
    pub digest: [u8; 32],
}

impl Owner {
    /// Its text: the node's name, a space, the digest in hex, and an LF.
    pub fn text(&self) -> ArrayVec<u8, TEXT>
        ensures { result.items ≡ owner_text self.now.who self.now.digest }
    {
        let (letter, number) = match self.who {
            NodeId::A(a) => (b'a', a),
            NodeId::L(l) => (b'l', l),
            NodeId::R(rm) => (b'r', rm),
        };
        let mut digits = [0; 64];
        let _ = hex::encode_to_slice(self.digest, &mut digits);
        let mut text = ArrayVec::new();
        text.push(letter);
        text.try_extend_from_slice(Buffer::new().format(number).as_bytes())
            .unwrap();
        text.push(b' ');
        text.try_extend_from_slice(&digits).unwrap();
        text.push(b'\n');
        text
    }

    /// Whether a text, as it stands beside a record, names this node and this cluster.
    pub fn is_named_by(&self, text: &[u8]) -> bool
        ensures { IsTrue result ↔ (text.now ≡ owner_text self.now.who self.now.digest) }
    {
        text == self.text().as_slice()
    }
}
