//! The members of a cluster in one place.

use crate::host::Host;
use px_replica::Datagram;
use std::alloc::Global;

/// The members of a cluster, and every message that they ever sent to each other, in order.
#[derive(Drop)]
pub struct Lab {
    pub(crate) hosts: Vec<Host>,
    pub(crate) sent: Vec<Datagram>,
    pub(crate) alloc: Global,
}
