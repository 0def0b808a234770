//! What is shown of a record.

ghost use Rattle.std.specs.Prelude.{◌≡◌, ◌<◌, [], IfOk, IfErr};
ghost use Rattle.px_model.specs.Node.{Record};
ghost use Rattle.px_model.specs.Spelling.{Bytes};
ghost use Rattle.pf_node.specs.Nodes.{learned_by, applied_of, kept_of, config_of};
ghost use Rattle.cli_nft.specs.Outputs.{config_output};
ghost use Rattle.cli_show.specs.Showing.{Shows, ShowsRecord, IsRefused};

use crate::figures::show_figures;
use crate::logged::show_log;
use crate::pfctl::{show_listing, show_verdicts};
use crate::scripts::show_script;
use crate::shown::{Made, Shown, Wanted};
use crate::texts::show_texts;
use cli_nft::config_output;
use pf_node::Node;
use px_records::Records;
use px_replica::{Membership, NodeFault};
use std::alloc::{AllocError, Global};

/// What is shown of a node's configuration and log. A store knows no addresses of members, so for nft(8) there is no
/// guard.
pub fn show_node<R: Records>(alloc: Global, node: &Node<R>, wanted: Wanted<'_>) -> Made<Shown>
    ensures { IfOk result (λ s. Shows (learned_by node.now) (applied_of node.now) (kept_of node.now)
        (config_of node.now) wanted.entry s) }
{
    match wanted {
        Wanted::Listing(action) => show_listing(alloc, node.config(), action),
        Wanted::Packets(packets) => show_verdicts(alloc, node.config(), packets),
        Wanted::Log { from, count } => show_log(alloc, node, from, count),
        Wanted::Nft { interfaces } => {
            let written = config_output(alloc, interfaces, node.config(), &[], node.applied())?;
            Ok(Shown::new(written.text.into_bytes(), written.refused))
        }
        Wanted::Texts => show_texts(alloc, node.config()),
        Wanted::Script => show_script(alloc, node),
        Wanted::Figures => show_figures(alloc, node.applied()),
    }
}

/// What is shown of the record that is there, as of a node that opens it: of the configuration after the first
/// learned entries, up to the first gap. The record is given back as it was.
///
/// `Store` and `BadStore` are as for [`Node::open`], `Memory` when out of memory; but for `Store` the record is then
/// as it was.
#[tactic(auto, using(crate::proofs::Opened::not_shown, crate::proofs::Opened::was_before, crate::proofs::Opened::leaves_less))]
pub fn show_record<R: Records>(
    alloc: Global,
    m: Membership,
    records: R,
    wanted: Wanted<'_>,
) -> (Result<Shown, NodeFault>, R)
    requires members { R.members records ≡ m.members }
    requires here { m.me < m.members }
    ensures shows { R.is_honest result.1 → IfOk result.0
        (λ s. ShowsRecord R.Records m.members records result.1 wanted.entry s) }
    ensures refused { IfErr result.0 (λ e. IsRefused R.Records m.members records e result.1) }
    ensures was { R.is_honest result.1 → R.is_honest records }
    ensures stop { R.is_honest result.1 → (left : Record Bytes) → R.may_leave result.1 left →
        R.may_leave records left }
{
    let node = match Node::open(alloc, m, records) {
        Ok(node) => node,
        Err((fault, records)) => return (Err(fault), records),
    };
    let _applied = node.applied();
    match show_node(alloc, &node, wanted) {
        Ok(shown) => (Ok(shown), node.close()),
        Err(AllocError) => (Err(NodeFault::Memory), node.close()),
    }
}
