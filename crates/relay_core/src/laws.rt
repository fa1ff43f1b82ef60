//! Laws of what relays pass on: what a server reads in a request, and what it is answered, does not depend
//! on the relays on its way (RFC 6733, section 6.1.9); and of their runs.

ghost use Rattle.std.specs.Prelude.{◌≡◌, ◌↔◌, ◌+◌, ℕ, List, length, false, None, Ok};
ghost use Rattle.dia_base.specs.declared.number.ConnId.{ConnId};
ghost use Rattle.dia_base.specs.declared.number.NodeNo.{NodeNo};
ghost use Rattle.dia_avp.specs.declared.avp.RawAvp.{RawAvp};
ghost use Rattle.dia_avp.specs.AvpList.{HasSpelling};
ghost use Rattle.dia_avp.specs.AvpReading.{split_of};
ghost use Rattle.dia_message.specs.declared.message.Message.{Message};
ghost use Rattle.dia_message.specs.declared.message.Out.{Out};
ghost use Rattle.dia_message.specs.Traffic.{Traffic};
ghost use Rattle.cc_view.specs.Answer.{answer_to, refusal_of};
ghost use Rattle.cc_view.specs.FirstDebit.{debit_message};
ghost use Rattle.cc_view.specs.Forwarding.{with_hop};
ghost use Rattle.cc_view.specs.Refusal.{refusal_with};
ghost use Rattle.dia_grammar.specs.Profile.{RequestProfile};
ghost use Rattle.cc_view.specs.RequestView.{view_under};
ghost use Rattle.cc_view.specs.declared.code.ResultCode.TheVariants.{LoopDetected};
ghost use Rattle.cc_view.specs.declared.refusal.Refusal.{Refusal};
ghost use Rattle.cc_view.specs.declared.reply.CcReply.{CcReply};
ghost use Rattle.cc_view.specs.declared.request.CcRequest.{CcRequest};
ghost use Rattle.relay_routes.specs.Routing.{record_of, loops, IsLoop};
ghost use Rattle.relay_core.specs.Connecting.{relay_at};
ghost use Rattle.relay_core.specs.FirstForwarding.{client_name, forwarded_debit};
ghost use Rattle.relay_core.specs.Forwarding.{with_record, Descends};
ghost use Rattle.relay_core.specs.Giving.{GiveInTurn, GivesRising};
ghost use Rattle.relay_core.specs.MatchedRun.{AnswerOwn, IsMatchedRun, MatchesEnds};
ghost use Rattle.relay_core.specs.PartingRun.{IsPartingRun, PartingEvent};
ghost use Rattle.relay_core.specs.Promise.{KeepsPromise};
ghost use Rattle.relay_core.specs.RelayRun.{IsRun, OnEvent, RelayStep};
ghost use Rattle.relay_core.specs.RelayState.{RelayState};
ghost use Rattle.relay_core.specs.RelayStep.{OnRequest, refusal_to};
ghost use Rattle.relay_core.specs.Staying.{AsksAmong, OnEventAmong, staying_after};
ghost use Rattle.relay_core.specs.Verdict.{decision};
ghost use Rattle.relay_core.specs.declared.matching.Matching.{Matching};
ghost use Rattle.relay_core.specs.declared.matching.Matching.TheVariants.{EndToEnd, HopByHop};
ghost use Rattle.relay_core.specs.declared.node.RelaySite.{RelaySite};
ghost use Rattle.relay_core.specs.declared.run.RelayEvent.{RelayEvent};
ghost use Rattle.relay_core.specs.declared.run.RelayEvent.TheVariants.{Received, Up};
ghost use Rattle.relay_peers.specs.declared.peers.Link.{Link};
ghost use Rattle.relay_peers.specs.PeerTable.{peer_in, without_conn};

use cc_view::{forwarded_requests, profiles_read_no_more};
use dia_avp::one_avp_more;
use relay_routes::{added_record_names, loops_have_a_record_of_the_node, names_with_more};

/// What descends from a message that descends from another one descends from that.
pub fn descending_goes_on()
    ensures { (request passed last : Message) → Descends request passed → Descends passed last → Descends request last }
{}

/// A message that descends from one whose body is a list of AVPs has its End-to-End Identifier and its
/// view, and its answers and refusals are those of the other by the Hop-by-Hop Identifier alone.
pub fn descendants_read_alike()
    ensures end { (request passed : Message) → Descends request passed → passed.header.end ≡ request.header.end }
    ensures view { (profile : RequestProfile) (request passed : Message) (avps : List RawAvp) → split_of request.body ≡ Ok avps → Descends request passed → view_under profile passed ≡ view_under profile request }
    ensures answer { (front realm : List ℕ) (request passed : Message) (content : CcRequest) (reply : CcReply) (avps : List RawAvp) → split_of request.body ≡ Ok avps → Descends request passed →
        answer_to front realm passed content reply ≡ with_hop passed.header.hop (answer_to front realm request content reply) }
    ensures refusal { (node realm : List ℕ) (request passed : Message) (refusal : Refusal) (avps : List RawAvp) → split_of request.body ≡ Ok avps → Descends request passed →
        refusal_of node realm passed refusal ≡ with_hop passed.header.hop (refusal_of node realm request refusal) }
{
    forwarded_requests();
    profiles_read_no_more();
    one_avp_more();
}

/// A relay forwards no request that has its own identity in a Route-Record (RFC 6733, section 6.1.3).
pub fn loops_are_not_forwarded()
    ensures { (relay : RelayState) (sender : List ℕ) (request : Message) (to : ConnId) → decision relay sender request ≡ Ok to → loops relay.node.name request.body ≡ false }
{}

/// A request in which a relay finds itself is answered DIAMETER_LOOP_DETECTED where it came from, and
/// nothing else happens.
pub fn loops_are_refused()
    ensures { (relay : RelayState) (conn : ConnId) (sender : List ℕ) (request : Message) (sent : Traffic) (next : RelayState) →
        IsLoop relay.node.name request.body → OnRequest relay conn sender request sent next →
        (sent ≡ refusal_to relay.node conn request (refusal_with LoopDetected)) × (next ≡ relay) }
{}

/// What a relay has sent and another node has forwarded is a loop wherever it comes to the relay again,
/// however it went: the Route-Record of the relay stays behind the AVPs (RFC 6733, sections 6.1.3 and 6.1.9).
pub fn returning_requests_loop()
    ensures { (node : List ℕ) (request last : Message) (avps : List RawAvp) → HasSpelling (record_of node) → split_of request.body ≡ Ok avps →
        Descends (with_record node request) last → IsLoop node last.body }
{
    one_avp_more();
    added_record_names();
    names_with_more();
    loops_have_a_record_of_the_node();
}

/// Every run of a relay keeps the promise, over any list of events, from any start, and whichever identifiers it
/// gives among those that are not in use.
pub fn relays_keep_their_promise()
    ensures { (site : RelaySite) (start : ℕ) (events : List RelayEvent) (outs : List Out) (past : List RelayStep) (last : RelayState) →
        IsRun (relay_at site start) events outs past last → KeepsPromise site.name site.realm past }
{}

/// Where the identifiers of a run are those that a relay gives at each event, they rise: of two requests that go
/// out new under one identifier at least 2^30 others go out new between them.
pub fn identifiers_come_back_late()
    ensures { (site : RelaySite) (start : ℕ) (events : List RelayEvent) (outs : List Out) (past : List RelayStep) (last : RelayState) →
        IsRun (relay_at site start) events outs past last → GiveInTurn past → GivesRising past }
{}

/// A run of a relay that matches answers so is, but for what it drops, a run of every relay with the same steps.
pub fn matched_runs_are_runs()
    ensures { (matching : Matching) (first : RelayState) (events : List RelayEvent) (outs : List Out) (past : List RelayStep) (last : RelayState) →
        IsMatchedRun matching first events outs past last → (taken : List RelayEvent) × (told : List Out) × IsRun first taken told past last }
{}

/// A relay that does not compare End-to-End Identifiers drops nothing: its runs are those of every relay.
pub fn runs_by_hop_are_runs()
    ensures { (first : RelayState) (events : List RelayEvent) (outs : List Out) (past : List RelayStep) (last : RelayState) →
        IsMatchedRun HopByHop first events outs past last ↔ IsRun first events outs past last }
{}

/// Where End-to-End Identifiers are compared, each answer that goes back has that of the request under whose Hop-by-Hop
/// Identifier it came, and goes to the connection on which that request came (RFC 6733, sections 3 and 6.2).
pub fn answers_have_the_end_of_their_request()
    ensures { (site : RelaySite) (start : ℕ) (events : List RelayEvent) (outs : List Out) (past : List RelayStep) (last : RelayState) →
        IsMatchedRun EndToEnd (relay_at site start) events outs past last → AnswerOwn past }
{}

/// A relay some of whose peers leave keeps the promise of every relay, whatever happens to it, and whoever leaves: what it sends
/// has its cause, each request that it has sent is answered, goes out again or is given up at most once, and none is lost. Its
/// identifiers rise, and where it compares End-to-End Identifiers each answer has that of its request (RFC 6733, section 5.4).
pub fn parting_relays_keep_their_promise()
    ensures promise { (site : RelaySite) (start : ℕ) (matching : Matching) (events : List PartingEvent) (past : List RelayStep) (last : RelayState) (staying : List Link) →
        IsPartingRun matching (relay_at site start) events past last staying → KeepsPromise site.name site.realm past }
    ensures rising { (site : RelaySite) (start : ℕ) (matching : Matching) (events : List PartingEvent) (past : List RelayStep) (last : RelayState) (staying : List Link) →
        IsPartingRun matching (relay_at site start) events past last staying → GiveInTurn past → GivesRising past }
    ensures ends { (site : RelaySite) (start : ℕ) (matching : Matching) (events : List PartingEvent) (past : List RelayStep) (last : RelayState) (staying : List Link) →
        IsPartingRun matching (relay_at site start) events past last staying → MatchesEnds matching past }
{}

/// No request goes to a peer that leaves, be it new or sent again: each that is sent at an event goes to a peer that stays. Who
/// leaves stays no more, and does not again on the same connection.
pub fn requests_go_to_those_that_stay()
    ensures asks { (staying : List Link) (relay : RelayState) (event : RelayEvent) (sent : Traffic) (next : RelayState) →
        OnEventAmong staying relay event sent next → AsksAmong (staying_after relay event staying) sent }
    ensures leaves { (staying : List Link) (conn : ConnId) → peer_in (without_conn staying conn) conn ≡ None }
    ensures away { (staying : List Link) (relay : RelayState) (event : RelayEvent) (conn : ConnId) → peer_in staying conn ≡ None → ((p : NodeNo) → event ≡ Up p conn → ⊥) →
        peer_in (staying_after relay event staying) conn ≡ None }
{}

/// Whoever leaves, with an answer a relay does what every relay does: the answers of those who leave go where they went.
pub fn answers_of_those_who_leave_are_answers()
    ensures { (staying : List Link) (relay : RelayState) (conn : ConnId) (answer : Message) (sent : Traffic) (next : RelayState) → answer.header.request ≡ false →
        OnEventAmong staying relay (Received conn answer) sent next ↔ OnEvent relay (Received conn answer) sent next }
{}

/// Where nobody leaves, what any relay does is what this one does.
pub fn relays_that_nobody_leaves_are_relays()
    ensures { (relay : RelayState) (event : RelayEvent) (sent : Traffic) (next : RelayState) → OnEvent relay event sent next → OnEventAmong relay.node.peers.links relay event sent next }
{}

/// The worked example: the first debit, as a relay forwards it that has it from `c1.example`, has the
/// Route-Record of that client behind its AVPs, and 268 octets.
pub fn first_forwarding()
    ensures forwarded { with_record client_name debit_message ≡ forwarded_debit }
    ensures length { 20 + length forwarded_debit.body ≡ 268 }
{}
