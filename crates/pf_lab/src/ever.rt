//! What the members ever learned.

use crate::host::Host;

/// All that the members of a lab ever learned, those that are stopped too: which member, at which position, which
/// entry. Nothing learned is lost, so it is lent from their records.
pub struct EverLearned<'a> {
    pub(crate) hosts: &'a [Host],
}
