//! Datagrams, a member's record, and a lab.

ghost use Rattle.std.specs.Prelude.{◌≡◌, IfOk, OnOk, Some};
ghost use Rattle.px_model.specs.Bounds.{AnyCommand};
ghost use Rattle.px_model.specs.Fits.{ChangeFits};
ghost use Rattle.px_model.specs.Seen.{change_of};
ghost use Rattle.px_model.specs.Spelling.{Bytes};
ghost use Rattle.px_model.specs.Step.{commit as committed, front as first_gap, top};
ghost use Rattle.px_model.specs.World.{World, run};
ghost use Rattle.px_records.specs.Records.{Rises};
ghost use Rattle.px_wire.specs.Message.{group, DatagramBytes, Group};
ghost use Rattle.px_wire.specs.Seen.{message_of};
ghost use Rattle.px_replica.specs.Calls.{Receives};
ghost use Rattle.px_replica.specs.Made.{same};
ghost use Rattle.px_replica.specs.Replicas.{learned_by};
ghost use Rattle.pf_lab.specs.Coming.{model_events};
ghost use Rattle.pf_lab.specs.Labs.{IsWorld};

use pf_lab::{Lab, LabEvent, LabFault, Outcome};
use px_model::Change;
use px_records::{Records, StoreFault};
use px_replica::{Datagram, NodeFault, Received, Replica};
use px_wire::{Membership, MessageView, WireFault};

/// [`px_wire::decode`]: what is decoded is what the bytes encode.
pub fn decode<'a>(m: &Membership, bytes: &'a [u8]) -> Result<(u8, MessageView<'a>), WireFault>
    ensures { IfOk result (λ x. DatagramBytes (group m.now) x.0 m.now.me (message_of x.1) bytes.now) }
{
    px_wire::decode(m, bytes)
}

/// [`Records::commit`]: after `Ok` the record has the change.
pub fn commit<R: Records>(records: &mut R, change: &Change) -> Result<(), StoreFault>
    requires fits { ChangeFits AnyCommand (R.members records.old) (change_of change.now) }
    requires rises { R.is_honest records.old → Rises (change_of change.now) (R.stored records.old) }
    ensures { R.is_honest records.new →
        OnOk result (R.stored records.new ≡ committed (Some (change_of change.now)) (R.stored records.old)) }
{
    records.commit(change)
}

/// [`Records::read_top`]: one more than the greatest position with an accepted proposal.
pub fn read_top<R: Records>(records: &mut R) -> Result<u32, StoreFault>
    ensures { R.is_honest records.new → IfOk result (λ t. t ≡ top (R.stored records.new).slots) }
{
    records.read_top()
}

/// [`Replica::receive`]: a datagram that encodes a message for this member is taken.
pub fn receive<R: Records>(
    replica: &mut Replica<R>,
    bytes: &[u8],
    out: &mut Vec<Datagram>,
) -> Result<Received, NodeFault>
    ensures { Receives replica.old replica.new bytes.now out.old.items out.new.items result }
{
    replica.receive(bytes, out)
}

/// [`Replica::front`]: the least position that isn't learned.
pub fn front<R: Records>(replica: &Replica<R>) -> u32
    ensures { result ≡ first_gap (learned_by replica.now) }
{
    replica.front()
}

/// [`Lab::step`]: an event happens in the lab as in the model's world.
pub fn step(lab: &mut Lab, event: &LabEvent) -> Result<Outcome, LabFault>
    ensures { (g : Group) (w : World Bytes) → IsWorld lab.old g w →
        OnOk result (IsWorld lab.new g (run same g.members (model_events event.now) w)) }
{
    lab.step(event)
}
