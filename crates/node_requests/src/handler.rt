//! A node at which operators ask.

ghost use Rattle.std.specs.Prelude.{◌≡◌};

use pf_node::Node;
use px_records::Records;
use std::alloc::Global;

/// A node at which operators ask. A turn borrows the node; what is asked comes between two turns.
#[derive(Drop)]
pub struct RequestHandler<R: Records> {
    /// The node.
    pub node: Node<R>,
    /// Whether the node is to end after this turn.
    pub is_stopping: bool,
    /// The first and the last number that requests got here.
    pub accepted: Option<(u64, u64)>,
    pub(crate) alloc: Global,
}

impl<R: Records> RequestHandler<R> {
    /// The node, with which the request handler ends.
    pub fn close(self) -> Node<R>
        ensures { result ≡ self.node }
    {
        let RequestHandler {
            node,
            is_stopping: _,
            accepted: _,
            alloc: _,
        } = self;
        node
    }
}
