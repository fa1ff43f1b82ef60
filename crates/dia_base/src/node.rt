//! What the nodes of the farm are.

/// What a node does.
#[derive(Clone, Copy, PartialEq, Eq)]
pub enum NodeKind {
    Relay,
    Front,
    Client,
}
