//! Laws of views and answers.

ghost use Rattle.std.specs.Prelude.{◌≡◌, ◌≤◌, ℕ, List, Bool, [], ◌∷◌, filter, map, IfSome, None, Some, Result, Ok, Err};
ghost use Rattle.dia_avp.specs.declared.avp.RawAvp.{RawAvp};
ghost use Rattle.dia_grammar.specs.declared.fault.GrammarFault.TheVariants.{Missing, Twice};
ghost use Rattle.dia_grammar.specs.declared.profile.Tolerance.TheVariants.{ApplicationInGroup, OriginTwice};
ghost use Rattle.dia_grammar.specs.Profile.{RequestProfile, strict};
ghost use Rattle.dia_grammar.specs.RequestExample.{host, realm, session};
ghost use Rattle.cc_view.specs.RequestView.Counting.{counted, is_untouched};
ghost use Rattle.cc_view.specs.ToleranceExample.{application, fault_in, host_in_capitals, in_group, other_realm};
ghost use Rattle.dia_base.specs.Identity.{IsIdentity};
ghost use Rattle.dia_avp.specs.AvpList.{AreOctets, length_of};
ghost use Rattle.dia_message.specs.Header.{HasOctets};
ghost use Rattle.dia_message.specs.declared.message.Message.{Message};
ghost use Rattle.cc_view.specs.Answer.{answer_avps, answer_to, refusal_avps, refusal_of, session_part};
ghost use Rattle.dia_base.specs.Codes.{session_id};
ghost use Rattle.cc_view.specs.FirstDebit.{answer_message, debit_message, debit_reply, debit_request, front_name, realm_name};
ghost use Rattle.cc_view.specs.Answer.Fitting.{Fits, IsReadBack};
ghost use Rattle.cc_view.specs.Answer.Typed.{GrantsUnits, SplitTyped};
ghost use Rattle.cc_view.specs.Forwarding.{CarryAlike, IsForwarded, with_hop};
ghost use Rattle.cc_view.specs.Readdressing.{sent_again, with_identifiers};
ghost use Rattle.cc_view.specs.Refusal.{avps_of};
ghost use Rattle.cc_view.specs.Refusal.FaultyAvps.{IsFaultOf};
ghost use Rattle.cc_view.specs.RefusalByCode.{refusal_by_code};
ghost use Rattle.cc_view.specs.Request.Number.{action_number, kind_number};
ghost use Rattle.cc_view.specs.RequestView.{Asks, IsWhole, view_of, view_under};
ghost use Rattle.cc_view.specs.RequestView.Content.{action_by, kind_by};
ghost use Rattle.cc_view.specs.RequestView.Readable.{IsReadable};
ghost use Rattle.cc_view.specs.RequestView.UnreadAvps.{DifferUnread};
ghost use Rattle.cc_view.specs.Answer.Writing.{octets_avp};
ghost use Rattle.cc_view.specs.declared.code.ResultCode.{ResultCode};
ghost use Rattle.cc_view.specs.declared.code.ResultCode.TheVariants.{InvalidAvpLength};
ghost use Rattle.cc_view.specs.declared.refusal.Refusal.{Refusal};
ghost use Rattle.cc_view.specs.declared.reply.CcReply.{CcReply};
ghost use Rattle.cc_view.specs.declared.request.CcRequest.{CcRequest};
ghost use Rattle.cc_view.specs.declared.request.RequestKind.{RequestKind};
ghost use Rattle.cc_view.specs.declared.request.RequestedAction.{RequestedAction};

/// The view reads neither identifier of the header, nor the flag T.
pub fn view_without_identifiers()
    ensures { (vendors : List ℕ) (message : Message) (hop end : ℕ) (resent : Bool) → view_of vendors (sent_again hop end resent message) ≡ view_of vendors message }
{}

/// Nor does it read Route-Record, Proxy-Info, Destination-Host or Event-Timestamp: where one of them is
/// added, dropped or changed, the view is the same, be it a request or a refusal. What it depends on is
/// the AVPs that it reads, in order, whether a Session-Id comes first, and whether Session-Id and
/// Proxy-Info together pass the limit on what is carried.
pub fn view_without_unread_avps()
    ensures { (vendors : List ℕ) (message other : Message) → DifferUnread message other → view_of vendors message ≡ view_of vendors other }
{}

/// A profile that has vendors and nothing more: AVPs are counted as they came, and the view is that of a
/// server which lists these vendors.
pub fn profiles_with_nothing_more()
    ensures counted { (vendors : List ℕ) (avps : List RawAvp) → counted (strict vendors) avps ≡ avps }
    ensures view { (vendors : List ℕ) (message : Message) → view_under (strict vendors) message ≡ view_of vendors message }
{}

/// A profile decides whether a request is refused, and never what it asks: session, number, type, action,
/// subscriptions and services are read in its AVPs as they came. So two requests are read alike under a
/// profile only where they ask the same, and whoever accepts a request reads the same in it.
pub fn profiles_change_no_request()
    ensures asked { (profile : RequestProfile) (message : Message) (request : CcRequest) → view_under profile message ≡ Ok request → Asks message request }
    ensures alike { (profile other : RequestProfile) (message : Message) (request content : CcRequest) →
        view_under profile message ≡ Ok request → view_under other message ≡ Ok content → request ≡ content }
{}

/// What is accepted is a request, as its AVPs are counted: none is missing, none that M makes mandatory is
/// unknown, and each single one stands there once. They are counted as they came but for Origin-Host,
/// Origin-Realm and Auth-Application-Id.
pub fn accepted_requests_are_whole()
    ensures whole { (profile : RequestProfile) (message : Message) (request : CcRequest) → view_under profile message ≡ Ok request → IsWhole profile message }
    ensures others { (profile : RequestProfile) (avps : List RawAvp) → filter is_untouched (counted profile avps) ≡ filter is_untouched avps }
{}

/// Under any profile a view reads neither identifiers nor the flag T, nor Route-Record, Proxy-Info,
/// Destination-Host or Event-Timestamp; and a request that a relay forwarded has the view of the request.
pub fn profiles_read_no_more()
    ensures identifiers { (profile : RequestProfile) (message : Message) (hop end : ℕ) (resent : Bool) → view_under profile (sent_again hop end resent message) ≡ view_under profile message }
    ensures unread { (profile : RequestProfile) (message other : Message) → DifferUnread message other → view_under profile message ≡ view_under profile other }
    ensures forwarded { (profile : RequestProfile) (request forwarded : Message) → IsForwarded request forwarded → view_under profile forwarded ≡ view_under profile request }
{}

/// Under any profile what is accepted is readable, and the AVP that a refusal names is one of the request's,
/// a missing one or the one at which a list is cut off, and short.
pub fn profiles_refuse_what_is_there()
    ensures readable { (profile : RequestProfile) (message : Message) (request : CcRequest) → view_under profile message ≡ Ok request → IsReadable message }
    ensures there { (profile : RequestProfile) (message : Message) (refusal : Refusal) → view_under profile message ≡ Err refusal → IfSome refusal.failed (IsFaultOf message.body) }
    ensures short { (profile : RequestProfile) (message : Message) (refusal : Refusal) → view_under profile message ≡ Err refusal → IfSome refusal.failed (λ avp. length_of avp ≤ 8192) }
{}

/// Worked examples: a further Origin-Host and Origin-Realm are not counted where they are tolerated and
/// have the same octets; one in other letters or of another realm is a second one.
pub fn origins_are_tolerated_twice()
    ensures untolerated { fault_in [] (host ∷ realm ∷ application 4 ∷ host ∷ realm ∷ []) ≡ Some (Twice 8) }
    ensures tolerated { fault_in (OriginTwice ∷ []) (host ∷ realm ∷ application 4 ∷ host ∷ realm ∷ host ∷ []) ≡ None }
    ensures other { map (λ avp. fault_in (OriginTwice ∷ []) (host ∷ realm ∷ application 4 ∷ avp ∷ [])) (host_in_capitals ∷ other_realm ∷ application 4 ∷ session ∷ [])
        ≡ Some (Twice 8) ∷ Some (Twice 8) ∷ Some (Twice 8) ∷ Some (Twice 8) ∷ [] }
{}

/// Worked examples: an Auth-Application-Id in a group stands for one that is missing where that is
/// tolerated and it is of Credit-Control. Beside one of the request it has to be the same.
pub fn applications_are_tolerated_in_groups()
    ensures untolerated { map (fault_in []) ((host ∷ realm ∷ in_group 4 ∷ []) ∷ (host ∷ realm ∷ application 4 ∷ in_group 5 ∷ []) ∷ []) ≡ Some (Missing 258) ∷ None ∷ [] }
    ensures missing { map (λ n. fault_in (ApplicationInGroup ∷ []) (host ∷ realm ∷ in_group n ∷ [])) (4 ∷ 5 ∷ []) ≡ None ∷ Some (Missing 258) ∷ [] }
    ensures beside { map (λ n. fault_in (ApplicationInGroup ∷ []) (host ∷ realm ∷ application 4 ∷ in_group n ∷ [])) (4 ∷ 5 ∷ []) ≡ None ∷ Some (Twice 9) ∷ [] }
    ensures groups { fault_in (ApplicationInGroup ∷ []) (host ∷ realm ∷ in_group 4 ∷ in_group 4 ∷ []) ≡ None }
{}

/// The answer to a message that is sent again differs in its identifiers alone.
pub fn answer_without_identifiers()
    ensures { (front realm : List ℕ) (message : Message) (request : CcRequest) (reply : CcReply) (hop end : ℕ) (resent : Bool) →
        answer_to front realm (sent_again hop end resent message) request reply ≡ with_identifiers hop end (answer_to front realm message request reply) }
{}

/// The same for a refusal.
pub fn refusal_without_identifiers()
    ensures { (node realm : List ℕ) (message : Message) (refusal : Refusal) (hop end : ℕ) (resent : Bool) →
        refusal_of node realm (sent_again hop end resent message) refusal ≡ with_identifiers hop end (refusal_of node realm message refusal) }
{}

/// An answer depends on its request by the header, without the Hop-by-Hop Identifier and the flag T, and by
/// what it carries back, Session-Id and Proxy-Info.
pub fn answer_by_what_is_carried()
    ensures { (front realm : List ℕ) (message other : Message) (request : CcRequest) (reply : CcReply) → CarryAlike message other →
        answer_to front realm other request reply ≡ with_hop other.header.hop (answer_to front realm message request reply) }
{}

/// The same for a refusal.
pub fn refusal_by_what_is_carried()
    ensures { (node realm : List ℕ) (message other : Message) (refusal : Refusal) → CarryAlike message other →
        refusal_of node realm other refusal ≡ with_hop other.header.hop (refusal_of node realm message refusal) }
{}

/// A request that a relay forwarded, with a Route-Record behind it, has the view of the request, and its
/// answer and its refusal are those of the request by the Hop-by-Hop Identifier alone.
pub fn forwarded_requests()
    ensures view { (vendors : List ℕ) (request forwarded : Message) → IsForwarded request forwarded → view_of vendors forwarded ≡ view_of vendors request }
    ensures by_code { (profile : RequestProfile) (code : ResultCode) (request forwarded : Message) → IsForwarded request forwarded → refusal_by_code profile code forwarded ≡ refusal_by_code profile code request }
    ensures answer { (front realm : List ℕ) (request forwarded : Message) (content : CcRequest) (reply : CcReply) → IsForwarded request forwarded →
        answer_to front realm forwarded content reply ≡ with_hop forwarded.header.hop (answer_to front realm request content reply) }
    ensures refusal { (node realm : List ℕ) (request forwarded : Message) (refusal : Refusal) → IsForwarded request forwarded →
        refusal_of node realm forwarded refusal ≡ with_hop forwarded.header.hop (refusal_of node realm request refusal) }
{}

/// A view is a request only where the body and every group that is looked at is a list of AVPs, every value
/// that is looked at is one of its kind, and no two services have one name.
pub fn requests_are_readable()
    ensures { (vendors : List ℕ) (message : Message) (request : CcRequest) → view_of vendors message ≡ Ok request → IsReadable message }
{}

/// The answer to what was viewed begins with its Session-Id, which is never too long to be written.
pub fn session_is_written()
    ensures { (vendors : List ℕ) (message : Message) (request : CcRequest) → view_of vendors message ≡ Ok request → session_part request.session ≡ octets_avp session_id request.session ∷ [] }
{}

/// An answer to what was viewed is a message, and its octets spell the AVPs that are meant. It takes no
/// more than 65,536 octets: 49,160 at most for Session-Id and Proxy-Info, 100 for each of at most 32
/// services, and some hundreds for the names and the rest.
pub fn answers_are_read_back()
    ensures { (vendors : List ℕ) (front realm : List ℕ) (message : Message) (request : CcRequest) (reply : CcReply) →
        IsIdentity front → IsIdentity realm → HasOctets message.header → AreOctets message.body → view_of vendors message ≡ Ok request → Fits reply →
        IsReadBack (answer_to front realm message request reply) (answer_avps front realm message request reply) }
{}

/// A receiver with the dictionary reads that answer: its octets split into AVPs that have a row, and a value of its
/// kind, and so do the members of each of its groups.
pub fn answers_read_as_their_kinds()
    ensures { (vendors : List ℕ) (front realm : List ℕ) (message : Message) (request : CcRequest) (reply : CcReply) →
        IsIdentity front → IsIdentity realm → HasOctets message.header → AreOctets message.body → view_of vendors message ≡ Ok request → Fits reply → GrantsUnits reply →
        SplitTyped (answer_to front realm message request reply).body }
{}

/// A refusal, of whatever message, is read back like an answer. Failed-AVP takes at most 8,200 octets.
pub fn refusals_are_read_back()
    ensures { (node realm : List ℕ) (message : Message) (refusal : Refusal) →
        IsIdentity node → IsIdentity realm → HasOctets message.header → AreOctets message.body →
        IsReadBack (refusal_of node realm message refusal) (refusal_avps node realm message refusal) }
{}

/// The AVP that a view names as the one at fault takes at most 8,192 octets: Failed-AVP always holds it.
pub fn failed_avps_are_short()
    ensures { (vendors : List ℕ) (message : Message) (refusal : Refusal) → view_of vendors message ≡ Err refusal → IfSome refusal.failed (λ avp. length_of avp ≤ 8192) }
{}

/// A refusal is known by its code, under any profile: by the code of its view it is what the view says, and of a
/// body that is no list of AVPs it is the body's, whatever the view says of the header.
pub fn refusals_by_code()
    ensures view { (profile : RequestProfile) (message : Message) (refusal : Refusal) → view_under profile message ≡ Err refusal → refusal_by_code profile refusal.code message ≡ refusal }
    ensures body { (profile : RequestProfile) (message : Message) (refusal : Refusal) → avps_of message.body ≡ Err refusal → refusal_by_code profile InvalidAvpLength message ≡ refusal }
{}

/// The AVP that a view names is one of the request's, at whatever depth, as it was received or in its least
/// form; or one that is missing; or the one at which a list of AVPs is cut off.
pub fn failed_avps_are_of_the_request()
    ensures { (vendors : List ℕ) (message : Message) (refusal : Refusal) → view_of vendors message ≡ Err refusal → IfSome refusal.failed (IsFaultOf message.body) }
{}

/// The worked example: the direct debit of 3200 octets, and its answer.
pub fn first_debit()
    ensures viewed { view_of [] debit_message ≡ Ok debit_request }
    ensures answered { answer_to front_name realm_name debit_message debit_request debit_reply ≡ answer_message }
{}

/// Each CC-Request-Type and each Requested-Action is read by its number, and none as another one.
pub fn kinds_and_actions_are_read_by_their_numbers()
    ensures kind { (kind : RequestKind) → kind_by (kind_number kind) ≡ kind }
    ensures action { (action : RequestedAction) → action_by (action_number action) ≡ action }
{}
