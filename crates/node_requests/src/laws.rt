//! What holds of requests, and of what the request handler answers.

ghost use Rattle.std.specs.Prelude.{◌≡◌, ◌≤◌, ◌↔◌, ℕ, Bool, true, List, [], length, Some};
ghost use Rattle.pf_config.specs.Map.{Configuration};
ghost use Rattle.pf_entry.specs.Entry.{Command};
ghost use Rattle.pf_eval.specs.Packets.{PacketValue};
ghost use Rattle.pf_eval.specs.Verdicts.{hits};
ghost use Rattle.node_requests.specs.Bounded.{most_met};
ghost use Rattle.node_requests.specs.Routing.{routed, Asked, Changes, Stops};
ghost use Rattle.node_requests.specs.Posting.{PostsChange, PostsStop, refused_with, is_of_clients};

/// The hits of a packet, by which its verdict is reported, are no more than the rules that a verdict may meet, of which
/// the verdicts that one request asks for meet at most [`crate::MET_MAX`].
#[tactic(auto, using(crate::proofs::HitsCounted::hits_met))]
pub fn hits_are_met()
    ensures { (c : Configuration) (k : PacketValue) → length (hits 9 c k []) ≤ most_met 9 c [] }
{}

/// A change is asked for by `POST /v1/changes` or `POST /v1/entry` without parameters, and by nothing else: it is the
/// one that the body's first line asks for as pfctl's arguments, with what follows that line as their text; or the
/// command of the entry whose bytes the body is.
pub fn changes_are_posted()
    ensures { (method path query body : List ℕ) (json : Bool) (command : Command) →
        routed method path query body json ≡ Asked (Changes command) ↔ PostsChange method path query body command }
{}

/// The end of a node is asked for by `POST /v1/stop` without parameters, and by nothing else.
pub fn stops_are_posted()
    ensures { (method path query body : List ℕ) (json : Bool) →
        routed method path query body json ≡ Asked Stops ↔ PostsStop method path query }
{}

/// What is no request is refused as an error of the client: with 400, 404, 405 or 413.
pub fn refusals_are_of_clients()
    ensures { (method path query body : List ℕ) (json : Bool) (status : ℕ) →
        refused_with (routed method path query body json) ≡ Some status → is_of_clients status ≡ true }
{}
