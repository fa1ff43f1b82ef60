//! Laws of the grammar.

ghost use Rattle.std.specs.Prelude.{◌≡◌, ◌≤◌, ◌++◌, ◌∷◌, ◌↔◌, ℕ, List, [], None, Some, false, map, count_by, All};
ghost use Rattle.std.specs.List.{list_any};
ghost use Rattle.dia_avp.specs.declared.avp.RawAvp.{RawAvp};
ghost use Rattle.dia_avp.specs.AvpList.{raw_avp};
ghost use Rattle.dia_grammar.specs.declared.fault.GrammarFault.{GrammarFault};
ghost use Rattle.dia_grammar.specs.declared.fault.GrammarFault.TheVariants.{FirstNotSessionId, Missing, Twice, UnknownM};
ghost use Rattle.dia_grammar.specs.Grammar.{grammar_fault, is_among, is_event_type, is_of, is_unknown_mandatory, missing_of, second_of, single_codes, unknown_of};
ghost use Rattle.dia_grammar.specs.Profile.{RequestProfile, strict};
ghost use Rattle.dia_grammar.specs.Request.{IsFaultOf, IsRequest, IsSecondAt, route_record, shape_of};
ghost use Rattle.dia_grammar.specs.RequestExample.{action, avp, context, destination, event, fault_behind, fault_knowing, group, host, initial, number, realm, session, short_event, vendor_avp, written_group};

/// AVPs have no fault exactly where they begin with a Session-Id, each of them that has the flag M is
/// known, none of the single ones stands there twice, each required one is there, and an event has a
/// Requested-Action.
pub fn faultless_avps_are_a_request()
    ensures { (profile : RequestProfile) (avps : List RawAvp) → (grammar_fault profile avps ≡ None) ↔ IsRequest profile avps }
{}

/// What a fault says is so: what is missing is something that this request has to have and that is
/// not there, and the AVP at its place is what it says, with none such before it.
pub fn told_faults_are_there()
    ensures { (profile : RequestProfile) (avps : List RawAvp) (fault : GrammarFault) → grammar_fault profile avps ≡ Some fault → IsFaultOf profile avps fault }
{}

/// No AVP is a second one of its code exactly where no code stands there twice, and the place of the
/// first that is one is that of a second one, with no second one before it.
pub fn second_ones_are_counted()
    ensures none { (codes : List ℕ) (avps : List RawAvp) → (second_of codes avps ≡ None) ↔ All (λ code. count_by (is_of code) avps ≤ 1) codes }
    ensures some { (codes : List ℕ) (avps : List RawAvp) (at : ℕ) → second_of codes avps ≡ Some at → IsSecondAt codes avps at }
{}

/// An AVP that is known or lacks the flag M, and is none of the single ones, may stand behind the
/// others: the answer stays as it is.
pub fn more_may_follow()
    ensures { (profile : RequestProfile) (avps : List RawAvp) (avp : RawAvp) → is_unknown_mandatory profile avp ≡ false → is_among single_codes avp ≡ false → grammar_fault profile (avps ++ avp ∷ []) ≡ grammar_fault profile avps }
{}

/// A relay may append its Route-Record (RFC 6733, section 6.1.9): the answer stays as it is.
pub fn route_record_may_follow()
    ensures { (profile : RequestProfile) (avps : List RawAvp) (flags : ℕ) (value : List ℕ) → grammar_fault profile (avps ++ route_record flags value ∷ []) ≡ grammar_fault profile avps }
{}

/// Of values only that of CC-Request-Type counts, and of that only whether it is EVENT_REQUEST.
pub fn values_do_not_count()
    ensures { (profile : RequestProfile) (avps others : List RawAvp) → map shape_of avps ≡ map shape_of others → list_any is_event_type avps ≡ list_any is_event_type others → grammar_fault profile avps ≡ grammar_fault profile others }
{}

/// Worked examples: what may stand behind the seven AVPs that a request begins with here. AVPs of a listed vendor and of
/// the codes 1 to 461 are known; those of a vendor are no second ones.
pub fn known_avps_may_stand_behind()
    ensures kinds { map fault_behind ((initial ∷ []) ∷ (event ∷ action ∷ []) ∷ (action ∷ event ∷ []) ∷ (short_event ∷ []) ∷ []) ≡ None ∷ None ∷ None ∷ None ∷ [] }
    ensures others { map fault_behind ((initial ∷ vendor_avp 10415 264 ∷ []) ∷ (initial ∷ avp 2 [] ∷ avp 1 [] ∷ []) ∷ []) ≡ None ∷ None ∷ [] }
{}

/// Worked examples: codes of vendor 0 that a profile knows. Each of them has to be named; those of another
/// vendor are others; and a code of a request that is known so is missed as ever, and stands there once.
pub fn codes_of_a_profile_are_known()
    ensures known { map (λ known. fault_knowing known (initial ∷ avp 480 [] ∷ avp 485 [] ∷ [])) ([] ∷ (480 ∷ []) ∷ (485 ∷ 480 ∷ []) ∷ []) ≡ Some (UnknownM 8) ∷ Some (UnknownM 9) ∷ None ∷ [] }
    ensures vendor { fault_knowing (480 ∷ []) (initial ∷ vendor_avp 10415 480 ∷ []) ≡ Some (UnknownM 8) }
    ensures hidden { map (fault_knowing (416 ∷ 480 ∷ [])) ((avp 480 [] ∷ []) ∷ (initial ∷ initial ∷ []) ∷ []) ≡ Some (Missing 416) ∷ Some (Twice 8) ∷ [] }
{}

/// Worked examples: what is wrong with AVPs behind those seven. Places count from 0.
pub fn faults_are_told_in_their_order()
    ensures missing { map fault_behind ([] ∷ (event ∷ []) ∷ (vendor_avp 10415 416 ∷ []) ∷ []) ≡ Some (Missing 416) ∷ Some (Missing 436) ∷ Some (Missing 416) ∷ [] }
    ensures unknown { map fault_behind ((initial ∷ avp 0 [] ∷ []) ∷ (initial ∷ vendor_avp 10415 900 ∷ avp 462 [] ∷ []) ∷ [])
        ≡ Some (UnknownM 8) ∷ Some (UnknownM 9) ∷ [] }
    // An AVP with every flag but M is not refused; one of a vendor that is not listed is, whatever its code.
    ensures vendor { fault_behind (initial ∷ raw_avp 462 191 0 [] ∷ vendor_avp 10416 263 ∷ []) ≡ Some (UnknownM 9) }
    // A second one is refused before what is missing, and behind what is unknown.
    ensures second { map fault_behind ((realm ∷ host ∷ []) ∷ (host ∷ avp 462 [] ∷ []) ∷ []) ≡ Some (Twice 7) ∷ Some (UnknownM 8) ∷ [] }
    // Subscription-Id may stand there twice, Service-Identifier and Requested-Action may not.
    ensures single { map fault_behind ((initial ∷ avp 443 [] ∷ avp 443 [] ∷ raw_avp 439 0 0 [] ∷ raw_avp 439 0 0 [] ∷ []) ∷ (initial ∷ action ∷ action ∷ []) ∷ [])
        ≡ Some (Twice 11) ∷ Some (Twice 9) ∷ [] }
{}

/// Worked examples: what is wrong with AVPs that do not begin as a request does, where no vendor is listed.
pub fn session_ids_come_first()
    ensures session { map (grammar_fault (strict [])) ([] ∷ (vendor_avp 10415 263 ∷ host ∷ []) ∷ (avp 462 [] ∷ session ∷ []) ∷ (session ∷ session ∷ []) ∷ [])
        ≡ Some (Missing 263) ∷ Some (Missing 263) ∷ Some FirstNotSessionId ∷ Some (Twice 1) ∷ [] }
    ensures required { map (grammar_fault (strict [])) ((session ∷ number ∷ context ∷ host ∷ []) ∷ (session ∷ event ∷ host ∷ realm ∷ destination ∷ []) ∷ [])
        ≡ Some (Missing 296) ∷ Some (Missing 258) ∷ [] }
{}

/// Worked examples: what is asked of a group.
pub fn groups_lack_what_is_missing()
    ensures unknown { map (λ vendors. unknown_of (strict vendors) group) ([] ∷ (10415 ∷ 7 ∷ []) ∷ []) ≡ Some 1 ∷ None ∷ [] }
    ensures second { map (λ codes. second_of codes group) ((444 ∷ 450 ∷ []) ∷ (444 ∷ 999 ∷ []) ∷ []) ≡ Some 2 ∷ None ∷ [] }
    ensures missing { map (λ codes. missing_of codes group) ((450 ∷ 444 ∷ 443 ∷ []) ∷ (450 ∷ []) ∷ []) ≡ Some 444 ∷ None ∷ [] }
    ensures written { (second_of (415 ∷ 432 ∷ []) written_group ≡ Some 2) × (missing_of (415 ∷ 432 ∷ 420 ∷ []) written_group ≡ Some 420) }
{}
