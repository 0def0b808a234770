//! The loop of a running node: turns over a wire, its timer, what is sent again, and a member's run.
//!
//! # Organization
//!
//! - [`turn`]: one datagram is received, or the clock ticks, and what is to be sent is sent.
//! - [`round`]: what has come is received, and the clock ticks when the [`Timer`] returns that; the program's timer is
//!   [`TickTimer`]. [`finish`]: the last rounds before a stop, in which what waits is proposed. node_control has the
//!   loop of such rounds.
//! - [`tick_now`]: the clock ticks.
//! - [`TurnBuffers`]: the buffers that one turn after another uses, and what is sent again. [`RoundCounts`]: what went
//!   over the wire in a round, for counters.
//! - [`Resender`]: keeps what a member sent and may be lost, and hands it to a wire again. It knows heads of messages
//!   alone, and is above the seal: it is shown what was sent, and what was received once it was decoded.
//! - [`Ended`]: how a run ended. [`open_member`]: a run where there is no wire; node_control has the others.
//! - `specs/Turns` defines what a turn does, and what several in a row do; by [`laws`] these are steps of the model.
//!   `specs/Resends` defines what is kept, and what may be handed to a wire again.
//! - `specs/Runs` defines what becomes of the record and what goes over the wire in a run; by [`run_laws`] this is a
//!   trace of the model, and runs which follow one another over one store are one trace.
//!
//! Within: `turning` is a turn, `serving` the turns for what has come, `running` a round and the last ones; `timer` is
//! what the loop asks, `tick_timer` the program's timer, and `pacing` decides by it; `stopwatch` reads the clock,
//! `peer_progress` is how far others are. Of the resender, `latest` has the proposal and the request of the front,
//! `votes` the votes for those who lack them, `state` what both keep, `packet` when a datagram is long.
//!
//! # Rounds, packets, attempts
//!
//! A round is the turns between two waits of the loop; where `# Why` has a round of promises and proposals, it is
//! Paxos's: the first part of a ballot. A packet is what goes over the network at once; with a key it is px_packet's,
//! without one IP's. The front is the least position of which the node hasn't learned the entry. An attempt is its
//! proposal there, under way from the tick that begins it until an entry is learned there or a nack ends it. A member
//! has the lead once a majority has promised its ballot at all positions: until a nack ends that, it proposes without
//! asking for promises.
//!
//! # Why
//!
//! - The loop knows a node and any wire, and neither sockets nor operators; node_control adds requests between two
//!   rounds.
//! - **A round makes turns and nothing else** (`Served`), whatever its timer answers (`Timer`, which `TickTimer` is).
//!   Asks, ticks and receives may come in any order, so what a round does is a matter of time and never of what is
//!   decided.
//! - **A tick is a turn that received no datagram and is followed by no wait**; `round` has no other sign of it.
//! - **`turn` takes a `TurnBuffers`**, so its 33,057 bytes are kept from turn to turn, and none is cleared.
//! - **When the clock ticks** (`TickTimer`). At once where commands wait and no attempt is under way. Again where an
//!   attempt isn't answered within the sum of four round trips, 20 ms, and 5 ms times the member's number; this time
//!   doubles with each loss, up to 64 times and up to 4 s. After a pause where another node took the lead. Where
//!   nothing waits: at the start, once a second, and at once while missing entries arrive.
//! - **Two times are measured.** The first is how long an attempt takes. It is measured over attempts that led to
//!   something and weren't begun anew meanwhile. A longer one counts half, a shorter one an eighth: an attempt that is
//!   begun anew too early makes a new round and loses what was on its way. The second is how long an answer takes: from
//!   a round's request for promises to a majority of them, and from accept requests until the entry is learned, where
//!   nothing was sent again meanwhile and no other member's request came. Each counts half. A 32nd is added whenever
//!   something is sent again, so a time that is too short doesn't stay so. Promises belong to the round that was begun
//!   last, so their time is known however often it was begun anew. Requests for promises aren't sent again; they are
//!   begun anew after four answers and 20 ms. On bad lines the first time contains the pauses that lost packets make,
//!   and the second doesn't; so with the first alone what is lost would be sent again later and later.
//! - **A node that lacks entries listens.** The kind and position of each accepted datagram show how far its sender is
//!   (`PeerProgress`): a member that proposes, votes at or lacks a position has learned all positions below. A node
//!   that is behind asks for what it lacks. It makes no proposal of its own until its front hasn't moved for as long
//!   as an attempt may take. Meanwhile, and for the first 200 ms after its start, a change at its control socket is
//!   answered with 503, and `ask --wait` asks again. So a node that was away and is asked doesn't take the lead from
//!   the node that has it. A command that comes by a datagram is accepted at any time. Commands that were accepted
//!   before are proposed after that time: the protocol has no message by which such a node could ask for what it lacks.
//! - **Lost datagrams are sent again by the loop, above the seal** (`Resender`). A datagram may come twice, so this
//!   changes nothing that is decided. The laws state that what a wire was handed is what the calls sent, and some of
//!   that again; a wire of packets sends packets of its own besides (state, reports, missing pieces). The resender sees
//!   the heads of what the node sends and accepts. It keeps the accept requests and votes of one ballot at one position
//!   that were sent last. The loop has them sent again one and a half answers and 5 ms after they were sent, then in
//!   pauses that grow, 64 times at most, until the front moves. A round begun anew would do it too, but loses the votes
//!   that were on their way: a change of 32 KB is some 22 packets, and one lost packet loses the datagram without a
//!   key.
//! - **A repeated accept request isn't shown to the node** where the vote for it is kept: the vote is sent again to the
//!   member that asks. The request is recognized by its bytes, which are those of the request that the node accepted
//!   last, so only what was decoded and opened before is believed. The node would answer with the same vote to all
//!   members, after a sync, or, if it has promised a later round meanwhile, with a nack. The nack is left out: the vote
//!   is true and on the disk, and the leader of that round has asked the others for promises too. Datagrams that come
//!   again byte for byte are of one ballot, position and entry. They count for no member.
//! - **A datagram longer than a packet is sent again at 131 bytes a millisecond** to each member, by all others
//!   together (`LARGE_RATE`). IP fragments it; where one fragment is lost the others are in the receiver's memory for
//!   30 s (Linux: `net.ipv4.ipfrag_time`), of 4 MiB in all (`net.ipv4.ipfrag_high_thresh`). Sent again faster they fill
//!   it, and then no such datagram arrives any more. A packet has 1,200 bytes here, which with a tag IPv6 carries
//!   everywhere, in tunnels too.
//! - **A member that lacks entries is sent the votes for them again** (`Resender::repeat_to`). A need is answered by
//!   one entry; but a learner keeps the votes of the 64 positions from its front on, and a vote may come at any time
//!   and twice. The resender keeps the votes that were sent: 131,072 and 16 MiB at most. Of the votes to two others
//!   that is 65,536 positions, some 20 MB with what each takes beside its bytes. Where a member shows by a need, or by
//!   a request for promises below the front, that it lacks entries, it is sent those votes of 63 positions that this
//!   member sent to it before. Each of the others does so. With a majority of votes of one ballot the entry is learned,
//!   by the same law as before: no step is new. A member that advances is sent what follows. One that doesn't advance,
//!   goes back, or advances by one three times in a row is sent all of it again, 20 ms apart at least. In 10 ms it is
//!   sent no more than fills this member's part of a socket's buffer as Linux has it. That also limits what somebody
//!   gets who forges a member's address on a need: some 600 kB of small votes a second from a member of three. Votes
//!   sent before the node's last start aren't kept, nor those longer than a packet: such entries are sent one by one.
//! - **A member is handed its own votes again** (`Resender::repeat_own`). A member accepts proposals at any position,
//!   but its learner drops a vote outside its 64 positions, its own vote too, and nobody else sends it that one. So the
//!   resender keeps these votes with the others. While another member is further ahead the loop hands those of 63
//!   positions from the front on to the wire again, for the member itself. Without them a position that only this
//!   member and one other accepted in one ballot would be learned neither by votes nor, while commands wait, by a need.
//!   Votes sent before a restart aren't kept.
//! - **A member that was refused tries again soon** (`TickTimer`). A round begins above what nacks reported. Where a
//!   nack comes before a majority promised, the next attempt begins within the time of an answer, while what the nack
//!   reported is still true. Of two such attempts in a row only the second is followed by a pause, as the loss of the
//!   lead is. It is at most eight answers' time and 16 ms, and nacks double that twice more. Each wait is drawn anew by
//!   each member, from its number, the time and the last draw, so that not always the same members collide.
//! - **Where the front moves a pause ends within four answers' time**, as drawn anew. Without any pause all members
//!   with commands begin a round with each entry that is learned, and of rounds of one number that of the highest
//!   member wins; with the whole pause a member that has the lead once makes the others wait for nothing. Waits are
//!   taken from the time of an answer: that of an attempt grows with the waits of others.
//! - **A gap is filled soon.** A learner keeps the votes of 64 positions from its front on. A node that sees others
//!   advance while its front doesn't move asks for what it lacks an attempt's time and 1 ms later. Where commands wait
//!   at it, it can't ask, and proposes, which takes the lead from the node that has it and brings the votes of 63
//!   positions. It does so after the same time, again whenever 16 entries came, and after a refusal. Of what it didn't
//!   accept a proposal brings one entry; so while it leads it goes on at once.
//! - **The clock rests for a fifth of a round trip** after each tick, unless the front moves. No hold before a proposal
//!   is set more than 4 s ahead, and the definitions state by when the clock ticks at the latest: the clauses of
//!   `TickTimer::action`. Nothing of the protocol depends on these; an operator's figures do.
//! - **A node that is stopped proposes what waits** (`finish`): 3,000 rounds more at most, of which one with a wait
//!   counts for its milliseconds. Meanwhile it accepts no command (`TickTimer::end`), and one with a control socket at
//!   which an operator asked for the stop answers nobody.
//! - **What is counted is what the node accepted.** `Node::receive` decodes a datagram; the loop keeps the heads of
//!   those that it accepted (`TurnBuffers::heads`) and how many datagrams went over the wire (`TurnBuffers::counts`),
//!   and one `Observer` sees both after each round. So `ignored` and `heard` are what the node ignores and hears, and
//!   no datagram is decoded twice.
//! - **No contract states when something is learned**: `Wire`'s contract knows no time. None states that a datagram is
//!   received: under a flood the system discards what its buffer can't hold, members' datagrams too.
#![tactic(auto)]

mod counts;
mod ended;
mod latest;
pub mod laws;
mod member;
mod pacing;
mod packet;
mod peer_progress;
mod resender;
pub mod run_laws;
mod running;
mod serving;
mod state;
mod stopwatch;
mod tick_timer;
mod timer;
mod turn_buffers;
mod turning;
mod votes;

pub use counts::RoundCounts;
pub use ended::Ended;
pub use member::open_member;
pub use pf_node::{Membership, Node};
pub use px_replica::{Datagram, NodeFault};
pub use px_transport::{FaultyWire, MemoryWire, Wire};
pub use resender::Resender;
pub use running::{Progress, finish, round};
pub use serving::tick_now;
pub use stopwatch::{Stopwatch, SystemClock, microseconds};
pub use tick_timer::TickTimer;
pub use timer::{Action, Timer, View};
pub use turn_buffers::TurnBuffers;
pub use turning::turn;
