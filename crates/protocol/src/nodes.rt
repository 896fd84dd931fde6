/// The name of a node: its kind, and its number among those.
#[derive(Clone, Copy, Debug, PartialEq, Eq)]
pub enum NodeId {
    /// An acceptor.
    A(u8),
    /// A leader.
    L(u8),
    /// A resource manager.
    R(u8),
}
