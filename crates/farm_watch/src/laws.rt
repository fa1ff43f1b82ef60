//! Laws and worked examples. Each is the contract of a function without a body.

ghost use Rattle.std.specs.Prelude.{◌≡◌, ◌≢◌, ◌≤◌, ◌<◌, ◌+◌, ◌/◌, ◌^◌, ◌∷◌, ◌++◌, ◌&&◌, not, [], ℕ, List, map, codes, get_or, length, Some, true, false, None};
ghost use Rattle.dia_avp.specs.AvpExample.{from_hex};
ghost use Rattle.dia_dict.specs.Dictionary.{name_of};
ghost use Rattle.dia_message.specs.declared.header.Header.{Header};
ghost use Rattle.dia_message.specs.Spelling.{octets_of};
ghost use Rattle.farm_watch.specs.Capabilities.{avps_in, is_success};
ghost use Rattle.farm_watch.specs.Causes.{cause_in};
ghost use Rattle.dia_base.specs.declared.number.Moment.{Moment};
ghost use Rattle.dia_base.specs.declared.number.NodeNo.{NodeNo};
ghost use Rattle.dia_message.specs.declared.message.Message.{Message};
ghost use Rattle.farm_watch.specs.Parting.{SendsAnswersAlone, has_parted, is_open, is_parting, tells_leaving};
ghost use Rattle.farm_watch.specs.Life.{Event, IsLife, before_up, effect_of, life_of};
ghost use Rattle.farm_watch.specs.declared.site.Side.{Side};
ghost use Rattle.farm_watch.specs.declared.site.WatchSite.{WatchSite};
ghost use Rattle.farm_watch.specs.Numbers.{busy, capabilities_exchange, common_messages, device_watchdog, disconnect_cause, disconnect_peer, do_not_want_to_talk_to_you, host_ip_address, no_common_application, origin_state_id, relay_application, success, supported_vendor_id, vendor_id, vendor_specific_application_id};
ghost use Rattle.farm_watch.specs.Numbering.{Said, ends_by, identifier_at, numbered, numbering_after};
ghost use Rattle.farm_watch.specs.Passing.{brought_by, passed};
ghost use Rattle.farm_watch.specs.PeerMessages.{answer_header, cea, cer, dpr, dwr, kind_of, message_of, own_part, request_header, result_part, success_to};
ghost use Rattle.farm_watch.specs.Table.{Connection, after_close, after_message, after_tick, beginning, drops, identifier_after, stays};
ghost use Rattle.farm_watch.specs.WatchExample.{application_of_vendor_text, asked, at, busy_text, c1, cca_text, cea_of_state_text, cea_of_vendor_text, cea_text, cer_by_clock_text, cer_of_client_text, cer_of_state_text, cer_of_vendors_text, cer_text, dpa_of_relay_text, dpa_text, dpr_of_front_text, dpr_text, dwa_of_state_text, dwa_text, dwr_by_clock_text, dwr_of_front_text, dwr_of_state_text, dwr_text, f1, f1_of_state, f1_of_vendor, greeting_at_front, heard, message, node, other_application_text, parting, r1, r1_leaving, r1_of_state, r1_of_vendors, refusing_cea_text, unknown_cause_text, unwanted_text, waiting};
ghost use Rattle.farm_watch.specs.declared.acts.Act.{Act};
ghost use Rattle.farm_watch.specs.declared.acts.Act.TheVariants as act;
ghost use Rattle.farm_watch.specs.declared.cause.DisconnectCause.TheVariants as cause;
ghost use Rattle.farm_watch.specs.declared.kind.MessageKind.TheVariants as kind;
ghost use Rattle.farm_watch.specs.declared.site.Goodbyes.TheVariants as goodbyes;
ghost use Rattle.farm_watch.specs.declared.numbering.Numbering.TheVariants as numbering;
ghost use Rattle.farm_watch.specs.declared.reading.Greeting.TheVariants as greeted;
ghost use Rattle.farm_watch.specs.declared.site.Side.TheVariants.{Connects};
ghost use Rattle.farm_watch.specs.declared.watch.Waits.TheVariants as waits;

use crate::codes::{
    BUSY, CAPABILITIES_EXCHANGE, COMMON_MESSAGES, DEVICE_WATCHDOG, DISCONNECT_CAUSE,
    DISCONNECT_PEER, DO_NOT_WANT_TO_TALK_TO_YOU, HOST_IP_ADDRESS, NO_COMMON_APPLICATION,
    ORIGIN_STATE_ID, RELAY_APPLICATION, SUCCESS, SUPPORTED_VENDOR_ID, VENDOR_ID,
    VENDOR_SPECIFIC_APPLICATION_ID,
};

/// The constants of [`crate::codes`] are the numbers that definitions name, and those of AVPs are the rows of
/// the dictionary under these names.
pub fn peer_codes_are_defined()
    ensures numbers { (CAPABILITIES_EXCHANGE ∷ DEVICE_WATCHDOG ∷ DISCONNECT_PEER ∷ COMMON_MESSAGES ∷ RELAY_APPLICATION ∷ SUCCESS ∷ NO_COMMON_APPLICATION ∷ []) ≡ capabilities_exchange ∷ device_watchdog ∷ disconnect_peer ∷ common_messages ∷ relay_application ∷ success ∷ no_common_application ∷ [] }
    ensures causes { (BUSY ∷ DO_NOT_WANT_TO_TALK_TO_YOU ∷ []) ≡ busy ∷ do_not_want_to_talk_to_you ∷ [] }
    ensures avps { (HOST_IP_ADDRESS ∷ VENDOR_SPECIFIC_APPLICATION_ID ∷ SUPPORTED_VENDOR_ID ∷ VENDOR_ID ∷ DISCONNECT_CAUSE ∷ ORIGIN_STATE_ID ∷ []) ≡ host_ip_address ∷ vendor_specific_application_id ∷ supported_vendor_id ∷ vendor_id ∷ disconnect_cause ∷ origin_state_id ∷ [] }
    ensures names { map name_of (host_ip_address ∷ vendor_specific_application_id ∷ supported_vendor_id ∷ vendor_id ∷ disconnect_cause ∷ origin_state_id ∷ []) ≡ Some (codes "Host-IP-Address") ∷ Some (codes "Vendor-Specific-Application-Id") ∷ Some (codes "Supported-Vendor-Id") ∷ Some (codes "Vendor-Id") ∷ Some (codes "Disconnect-Cause") ∷ Some (codes "Origin-State-Id") ∷ [] }
{}

/// Of a whole life of a connection: the node at its other end comes up at most once, the node here is passed messages only
/// while that is up, and nothing comes behind the end.
pub fn peers_come_up_once_and_nothing_follows_the_end()
    ensures { (site : WatchSite) (moment : Moment) (side : Side) (events : List Event) → IsLife before_up (life_of site moment side events) }
{}

/// Of a whole life of a connection: what the node here is passed are the messages that come while the other end is up, but those
/// of the connection's own life, each once, and in their order. None is kept back, while it says goodbye neither.
pub fn what_comes_while_up_is_passed()
    ensures { (site : WatchSite) (moment : Moment) (side : Side) (events : List Event) →
        passed (life_of site moment side events) ≡ brought_by site (beginning site moment side).next before_up events }
{}

/// A node that advertises credit control for no vendor, and tells no Origin-State-Id, writes what it can do for whatever vendor, and
/// nothing behind it.
pub fn no_vendor_adds_no_octet()
    ensures cer { (site : WatchSite) (identifier : ℕ) → site.state ≡ None → site.advertised ≡ [] → cer site identifier ≡ message_of (request_header capabilities_exchange identifier) (own_part site) }
    ensures cea { (site : WatchSite) (code : ℕ) (request : Header) → site.state ≡ None → site.advertised ≡ [] → cea site code request ≡ message_of (answer_header request) (result_part code ++ own_part site) }
{}

/// Worked examples: the messages between a relay r1, a front f1 and a client c1 as octets.
pub fn neighbours_write_their_octets()
    ensures cer { octets_of (cer r1 1) ≡ from_hex cer_text }
    // An address of IPv6.
    ensures client { octets_of (cer c1 1) ≡ from_hex cer_of_client_text }
    ensures cea { octets_of (cea f1 2001 (message cer_text).header) ≡ from_hex cea_text }
    // Credit control for two vendors, and for one.
    ensures cer_of_vendors { octets_of (cer r1_of_vendors 1) ≡ from_hex cer_of_vendors_text }
    ensures cea_of_vendor { octets_of (cea f1_of_vendor 2001 (message cer_text).header) ≡ from_hex cea_of_vendor_text }
    ensures refusing { octets_of (cea f1 5010 (message cer_text).header) ≡ from_hex refusing_cea_text }
    // An Origin-State-Id, in front of vendors too, and in no goodbye.
    ensures cea_of_state { octets_of (cea f1_of_state 2001 (message cer_text).header) ≡ from_hex cea_of_state_text }
    ensures cer_of_state { octets_of (cer r1_of_state 1) ≡ from_hex cer_of_state_text }
    ensures dwr_of_state { octets_of (dwr r1_of_state 1) ≡ from_hex dwr_of_state_text }
    ensures dwa_of_state { octets_of (success_to f1_of_state (message dwr_text).header) ≡ from_hex dwa_of_state_text }
    ensures dpr_of_state { octets_of (dpr r1_of_state 1) ≡ from_hex dpr_text }
    ensures dpa_of_state { octets_of (success_to f1_of_state (message dpr_text).header) ≡ from_hex dpa_text }
    ensures dwr { octets_of (dwr r1 1) ≡ from_hex dwr_text }
    ensures dwa { octets_of (success_to r1 (message dwr_of_front_text).header) ≡ from_hex dwa_text }
    ensures dpr { octets_of (dpr r1 1) ≡ from_hex dpr_text }
    ensures dpa { octets_of (success_to f1 (message dpr_text).header) ≡ from_hex dpa_text }
{}

/// Worked examples: whom a front greets, that a relay may connect to.
pub fn only_linked_nodes_are_welcome()
    ensures relay { greeting_at_front [] cer_text ≡ greeted.Welcome (node 0) }
    // Without case, and with its application inside a group.
    ensures vendor { greeting_at_front [] application_of_vendor_text ≡ greeted.Welcome (node 0) }
    ensures vendors { greeting_at_front [] cer_of_vendors_text ≡ greeted.Welcome (node 0) }
    ensures up { greeting_at_front (node 3 ∷ node 0 ∷ []) cer_text ≡ greeted.Unwelcome }
    ensures stranger { greeting_at_front [] cer_of_client_text ≡ greeted.Unwelcome }
    ensures application { greeting_at_front [] other_application_text ≡ greeted.NothingInCommon }
    // A relay speaks all applications.
    ensures success { map (λ text. is_success (avps_in (message text).body)) (cea_text ∷ refusing_cea_text ∷ dwr_text ∷ []) ≡ true ∷ false ∷ false ∷ [] }
{}

/// Worked examples: a connection from its first message on.
pub fn connections_begin_with_capabilities()
    ensures connects { (beginning r1 (at 5) (Connects (node 2))).acts ≡ act.Send (message cer_text) ∷ [] }
    ensures greets { (after_message f1 [] (at 7) (message cer_text) (waiting (waits.ForCer (at 5)))).acts ≡ act.Send (message cea_text) ∷ act.PeerUp (node 0) ∷ [] }
    ensures refuses { (after_message f1 [] (at 7) (message other_application_text) (waiting (waits.ForCer (at 5)))).acts ≡ act.Send (message refusing_cea_text) ∷ act.Drop ∷ [] }
    ensures comes_up { (after_message r1 [] (at 7) (message cea_text) (waiting (waits.ForCea (node 2) (at 5)))).acts ≡ act.PeerUp (node 2) ∷ [] }
    ensures refused { after_message r1 [] (at 7) (message refusing_cea_text) (waiting (waits.ForCea (node 2) (at 5))) ≡ drops (waiting (waits.ForCea (node 2) (at 5))) }
    // Any other first message.
    ensures dwr { after_message f1 [] (at 7) (message dwr_text) (waiting (waits.ForCer (at 5))) ≡ drops (waiting (waits.ForCer (at 5))) }
    ensures late { (after_tick r1 (at 30005) (waiting (waits.ForCer (at 5)))).acts ≡ act.Drop ∷ [] }
{}

/// Worked examples: the watchdog, at an interval of 30000 milliseconds.
pub fn watchdogs_ask_and_then_drop()
    ensures early { after_tick r1 (at 30999) heard ≡ stays heard }
    ensures asks { after_tick r1 (at 31000) heard ≡ record { acts = act.Send (message dwr_text) ∷ []; next = asked } }
    ensures waits { after_tick r1 (at 60999) asked ≡ stays asked }
    ensures gives_up { after_tick r1 (at 61000) asked ≡ drops asked }
    ensures answers { (after_message r1 [] (at 2000) (message dwr_of_front_text) heard).acts ≡ act.Send (message dwa_text) ∷ [] }
    // Any message counts as an answer.
    ensures hears { (after_message r1 [] (at 40000) (message dwa_text) asked).next ≡ record asked { waits = waits.ForMessage (at 40000) } }
    // Identifiers begin again behind the highest one.
    ensures identifiers { map identifier_after (0 ∷ 1 ∷ 2147483646 ∷ 2147483647 ∷ []) ≡ 1 ∷ 2 ∷ 2147483647 ∷ 1 ∷ [] }
{}

/// The identifiers of a connection's own requests, and those that a relay gives to what it forwards, are one space
/// (RFC 6733, section 3), and never meet: a relay's have the highest bit, and a connection's never have it.
pub fn connections_and_relays_number_apart()
    ensures range { (sent : ℕ) → (1 ≤ identifier_after sent) × (identifier_after sent < 2 ^ 31) }
    ensures apart { (sent relayed : ℕ) → 2 ^ 31 ≤ relayed → identifier_after sent ≢ relayed }
{}

/// The requests of its own that a process sends are told apart by their End-to-End Identifiers, where it numbers them by the
/// clock (RFC 6733, section 3): each from the 2^20 - 1 before it, whatever the connections. So are any two of any processes,
/// as of one that has ended and one that was started for it, within four minutes, but in the same second.
pub fn own_requests_are_told_apart()
    ensures process { (count : ℕ) (lives : List Said) (i j : ℕ) → i < j → j < i + 2 ^ 20 → j < length (ends_by count lives) → get_or (ends_by count lives) i 0 ≢ get_or (ends_by count lives) j 0 }
    ensures restart { (one other : Moment) (i j : ℕ) → one.0 / 1000 < other.0 / 1000 → other.0 ≤ one.0 + 240000 → identifier_at one i ≢ identifier_at other j }
    // A process that does not number them by the clock changes no octet.
    ensures hops { (moment : Moment) (acts : List Act) → numbered numbering.HopByHop moment acts ≡ acts }
{}

/// Worked examples: requests at 1764273600123, whose seconds end in the bits of dc0, behind the count of 20 bits that is the
/// last but one.
pub fn own_requests_are_numbered_by_the_clock()
    ensures cer { numbered (numbering.ByClock 1048575) (at 1764273600123) (act.Send (cer r1 1) ∷ []) ≡ act.Send (message cer_by_clock_text) ∷ [] }
    ensures next { numbering_after (numbering.ByClock 1048575) (act.Send (cer r1 1) ∷ []) ≡ numbering.ByClock 0 }
    ensures dwr { numbered (numbering.ByClock 0) (at 1764273600123) (act.Send (dwr r1 1) ∷ []) ≡ act.Send (message dwr_by_clock_text) ∷ [] }
    // An answer has the identifier of its request, and takes none.
    ensures dwa { numbered (numbering.ByClock 7) (at 1764273600123) (act.Send (success_to r1 (message dwr_of_front_text).header) ∷ []) ≡ act.Send (message dwa_text) ∷ [] }
    ensures stands { numbering_after (numbering.ByClock 7) (act.Send (success_to r1 (message dwr_of_front_text).header) ∷ []) ≡ numbering.ByClock 7 }
    // What the node is passed is as it came.
    ensures passed { numbered (numbering.ByClock 7) (at 1764273600123) (act.Pass (message dwr_text) ∷ []) ≡ act.Pass (message dwr_text) ∷ [] }
{}

/// Worked examples: how a connection ends.
pub fn connections_end_with_disconnect_peer()
    ensures closes { (after_close r1 (at 2000) heard).acts ≡ act.Send (message dpr_text) ∷ [] }
    ensures answered { (after_message r1 [] (at 2100) (message dpa_text) (after_close r1 (at 2000) heard).next).acts ≡ act.Drop ∷ [] }
    ensures unanswered { map (λ moment. (after_tick r1 (at moment) (after_close r1 (at 2000) heard).next).acts) (31999 ∷ 32000 ∷ []) ≡ [] ∷ (act.Drop ∷ []) ∷ [] }
    ensures is_closed { (after_message f1 [] (at 2000) (message dpr_text) heard).acts ≡ act.Send (message dpa_text) ∷ act.Drop ∷ [] }
{}

/// Where a goodbye leaves closing to the other end, it drops nothing: the connection waits to be closed, and goes on. From then on
/// it sends no request of its own, whatever happens, until it has ended. The node here is told that the other one leaves, and why.
pub fn nothing_is_lost_at_a_goodbye()
    ensures goes_on { (site : WatchSite) (nodes : List NodeNo) (moment : Moment) (m : Message) (conn : Connection) → site.goodbyes ≡ goodbyes.LeaveClosing → is_open conn.waits ≡ true → kind_of m.header ≡ kind.Dpr
        → ((after_message site nodes moment m conn).acts ≡ act.Send (success_to site m.header) ∷ act.PeerLeaves (cause_in (avps_in m.body)) ∷ []) × ((after_message site nodes moment m conn).next.waits ≡ waits.ForClose moment) }
    ensures answers { (site : WatchSite) (conn : Connection) (event : Event) → has_parted conn.waits ≡ true → SendsAnswersAlone (effect_of site conn event).acts }
    ensures stays { (site : WatchSite) (conn : Connection) (event : Event) → has_parted conn.waits ≡ true → has_parted (effect_of site conn event).next.waits ≡ true }
{}

/// The node here is told that the other one leaves exactly where a connection begins to wait to be closed, whatever happens: never
/// twice, and never where a goodbye ends a connection at once.
pub fn leaving_is_told_where_closing_is_left()
    ensures { (site : WatchSite) (conn : Connection) (event : Event)
        → tells_leaving (effect_of site conn event).acts ≡ (is_parting (effect_of site conn event).next.waits && not (is_parting conn.waits)) }
{}

/// Where a goodbye ends a connection at once, none ever waits for the other end to close it.
pub fn goodbyes_are_kept_where_they_are_asked_for()
    ensures { (site : WatchSite) (conn : Connection) (event : Event) → site.goodbyes ≡ goodbyes.EndAtOnce → is_parting conn.waits ≡ false
        → is_parting (effect_of site conn event).next.waits ≡ false }
{}

/// Worked examples: a front says goodbye to a relay that leaves closing to it, while a request is under way.
pub fn goodbyes_leave_closing_to_the_other_end()
    ensures answered { after_message r1_leaving [] (at 2000) (message dpr_of_front_text) (waiting (waits.ForMessage (at 1000))) ≡ record { acts = act.Send (message dpa_of_relay_text) ∷ act.PeerLeaves cause.Rebooting ∷ []; next = parting } }
    ensures asked { (after_message r1_leaving [] (at 2000) (message dpr_of_front_text) (waiting (waits.ForDwa (at 1000)))).next ≡ parting }
    // Why it leaves: BUSY, DO_NOT_WANT_TO_TALK_TO_YOU, a number that is none, and no Disconnect-Cause at all.
    ensures causes { map (λ text. cause_in (avps_in (message text).body)) (busy_text ∷ unwanted_text ∷ unknown_cause_text ∷ dwr_text ∷ []) ≡ cause.Busy ∷ cause.Unwanted ∷ cause.Rebooting ∷ cause.Rebooting ∷ [] }
    // The answer to that request is passed.
    ensures passes { after_message r1_leaving [] (at 2100) (message cca_text) parting ≡ record { acts = act.Pass (message cca_text) ∷ []; next = parting } }
    // The other end has an interval to close.
    ensures waits { after_tick r1_leaving (at 31999) parting ≡ stays parting }
    ensures gives_up { after_tick r1_leaving (at 32000) parting ≡ drops parting }
    ensures closes { after_close r1_leaving (at 2500) parting ≡ drops parting }
    // Where a goodbye ends it at once, the same front is answered with the same octets.
    ensures at_once { (after_message r1 [] (at 2000) (message dpr_of_front_text) (waiting (waits.ForMessage (at 1000)))).acts ≡ act.Send (message dpa_of_relay_text) ∷ act.Drop ∷ [] }
{}
