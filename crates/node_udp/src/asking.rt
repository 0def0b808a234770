//! A command asked of a node from outside.

ghost use Rattle.std.specs.Prelude.{◌≡◌, ◌⊎◌, ◌<◌, Err, Some, false, IfOk, IfSome, OnOk, OnErr, IsSome, IsTrue};
ghost use Rattle.std.specs.Prelude.{◌++◌, [], ◌∷◌, ℕ, List};
ghost use Rattle.pf_entry.specs.Entry.{EntryBytes};
ghost use Rattle.pf_entry.specs.Owned.{is_over};
ghost use Rattle.pf_entry.specs.declared.limits.TheConstants.{CLIENT};
ghost use Rattle.px_wire.specs.Message.{group};
ghost use Rattle.px_wire.specs.Seen.{lent_of, message_of};
ghost use Rattle.px_transport.specs.Wires.{Handed, IsQuiet, Moves};
ghost use Rattle.node_udp.specs.Asking.{asked_entry, lent_ask, IsAsk, ask_answer, Answers, Hears, Listens};

use crate::answer::AskAnswer;
use pf_entry::{CLIENT, Command, EncodeFault, encode_asked};
use px_model::EntryView;
use px_replica::NodeFault;
use px_transport::Wire;
use px_wire::{Membership, Message, MessageView, decode, encode};
use std::alloc::Global;

/// By what an answer is known.
const TOKEN: u64 = 1;

/// More than the bytes of an answer and of a tag behind it, so that a longer datagram is never taken for one.
const ANSWER_ROOM: usize = 96;

/// The bytes of the command as it is asked.
fn asked_bytes(alloc: Global, command: &Command) -> Result<Vec<u8>, NodeFault>
    ensures spelled { IfOk result (λ v. EntryBytes (asked_entry command.now) v.items) }
    ensures long { result ≡ Err NodeFault.TooLong → IsTrue (is_over (asked_entry command.now)) }
    ensures short { OnOk result (is_over (asked_entry command.now) ≡ false) }
    ensures why { OnErr result ((result ≡ Err NodeFault.TooLong) ⊎ (result ≡ Err NodeFault.Memory)) }
{
    match encode_asked(alloc, CLIENT, TOKEN, command) {
        Ok(bytes) => Ok(bytes),
        Err(EncodeFault::Memory) => Err(NodeFault::Memory),
        Err(EncodeFault::TooLong) => Err(NodeFault::TooLong),
    }
}

/// The entry that the bytes of a command spell.
fn asked_view<'a>(command: &Command, bytes: &'a [u8]) -> Option<EntryView<'a>>
    requires { EntryBytes (asked_entry command.now) bytes.now }
    ensures some { IsSome result }
    ensures lent { IfSome result (λ e. lent_of e ≡ lent_ask command.now) }
{
    let _command = command;
    EntryView::read(bytes)
}

/// What a message answers to the token.
fn ask_answer(message: &MessageView) -> Option<AskAnswer>
    ensures { result ≡ ask_answer (message_of message.now) }
{
    match message {
        Message::Asked(token, number) if *token == TOKEN => Some(AskAnswer::Asked(*number)),
        Message::AskRefused(token, code) if *token == TOKEN => Some(AskAnswer::Refused(*code)),
        _ => None,
    }
}

/// What a datagram answers, if the node sent it and it answers.
fn answer_in(m: &Membership, node: u8, bytes: &[u8]) -> Option<AskAnswer>
    requires { m.now.me ≡ CLIENT }
    ensures { Answers (group m.now) node (Some bytes.now) result }
{
    match decode(m, bytes) {
        Ok((from, message)) if from == node => ask_answer(&message),
        Ok(_) | Err(_) => None,
    }
}

/// Waits once: the node's answer, if it comes.
fn listen<W: Wire>(m: &Membership, node: u8, wire: &mut W) -> Option<AskAnswer>
    requires { m.now.me ≡ CLIENT }
    ensures heard { Moves (W.traffic wire.old) (W.traffic wire.new) (λ es es'. Hears (group m.now) node es result es') }
    ensures same { W.identity wire.new ≡ W.identity wire.old }
{
    let mut room = [0u8; ANSWER_ROOM];
    let n = wire.recv(&mut room)?;
    answer_in(m, node, &room[..n])
}

/// Waits at most n times: the node's first answer.
fn listen_on<W: Wire>(m: &Membership, node: u8, waits: u32, wire: &mut W) -> AskAnswer
    requires { m.now.me ≡ CLIENT }
    ensures heard { Moves (W.traffic wire.old) (W.traffic wire.new)
        (λ es es'. Listens (group m.now) node waits es result es') }
    ensures same { W.identity wire.new ≡ W.identity wire.old }
{
    for _wait in 0..waits {
        if let Some(answer) = listen(m, node, wire) {
            return answer;
        }
    }
    AskAnswer::NoAnswer
}

/// Asks a node to accept a command: one datagram, and then at most n waits for its answer. What else comes is
/// passed over, and counts as a wait.
///
/// `m` is a client's, of whom 255 is the number. `TooLong` (41) where no entry of the command has a spelling, and
/// `Memory`: then nothing is sent. No other fault comes.
pub fn ask_once<W: Wire>(
    alloc: Global,
    m: &Membership,
    node: u8,
    command: &Command,
    waits: u32,
    wire: &mut W,
) -> Result<AskAnswer, NodeFault>
    requires client { m.now.me ≡ CLIENT }
    requires member { node < m.now.members }
    ensures asked { IfOk result (λ a. (bytes : List ℕ) × IsAsk (group m.now) node command.now bytes ×
        Moves (W.traffic wire.old) (W.traffic wire.new)
        (λ es es'. Listens (group m.now) node waits (es ++ Handed node bytes ∷ []) a es')) }
    ensures silent { OnErr result (IsQuiet (W.traffic wire.old) (W.traffic wire.new)) }
    ensures long { result ≡ Err NodeFault.TooLong → IsTrue (is_over (asked_entry command.now)) }
    ensures short { OnOk result (is_over (asked_entry command.now) ≡ false) }
    ensures why { OnErr result ((result ≡ Err NodeFault.TooLong) ⊎ (result ≡ Err NodeFault.Memory)) }
    ensures same { W.identity wire.new ≡ W.identity wire.old }
{
    let asked = asked_bytes(alloc, command)?;
    let Some(entry) = asked_view(command, asked.as_slice()) else {
        unreachable!()
    };
    let ask = Message::Ask(entry);
    let bytes = encode(alloc, m, node, &ask).map_err(|_| NodeFault::Memory)?;
    let _sent = wire.send(node, bytes.as_slice());
    Ok(listen_on(m, node, waits, wire))
}
