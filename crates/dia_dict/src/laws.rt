//! Laws of the dictionary.

ghost use Rattle.std.specs.Prelude.{◌≡◌, ◌≢◌, ◌↔◌, ◌∷◌, ℕ, List, [], Some, None, Ok, Err, pos, negsuc, map, codes};
ghost use Rattle.dia_base.specs.Codes.{event_timestamp, auth_application_id, session_id, origin_host, result_code, product_name, failed_avp, route_record, destination_realm, proxy_info, destination_host, origin_realm, cc_request_number, cc_request_type, cc_service_specific_units, cc_session_failover, cc_time, cc_total_octets, check_balance_result, cost_information, currency_code, exponent, final_unit_indication, granted_service_unit, rating_group, requested_action, requested_service_unit, service_identifier, subscription_id, subscription_id_data, unit_value, used_service_unit, value_digits, validity_time, final_unit_action, subscription_id_type, multiple_services, service_context_id};
ghost use Rattle.dia_avp.specs.AvpList.{HasSpelling};
ghost use Rattle.dia_dict.specs.declared.value.Typed.{Typed};
ghost use Rattle.dia_dict.specs.declared.value.Typed.TheVariants.{Unsigned32, Unsigned64, Integer32, Integer64, Time, Enumerated, Utf8String, DiameterIdentity, OctetString, Address, Grouped};
ghost use Rattle.dia_dict.specs.declared.fault.DictFault.TheVariants.{BadLength, BadEnumerated, NoRow};
ghost use Rattle.dia_dict.specs.Dictionary.{row_of, name_of, code_of_name};
ghost use Rattle.dia_dict.specs.Values.{InRange};
ghost use Rattle.dia_dict.specs.Reading.{avp_of, reading_of, spelling_fault, spelling_of};

/// Names and codes match one to one.
pub fn names_and_codes()
    ensures { (code : ℕ) (name : List ℕ) → (name_of code ≡ Some name) ↔ (code_of_name name ≡ Some code) }
{}

/// The AVP that is written for a value has a spelling, which is read back as that AVP, and that AVP
/// reads as the value.
pub fn value_is_read()
    ensures spelled { (code : ℕ) (value : Typed) → InRange value → spelling_fault code value ≡ None → HasSpelling (avp_of code value) }
    ensures read { (code : ℕ) (value : Typed) → InRange value → spelling_fault code value ≡ None → reading_of (avp_of code value) ≡ Ok value }
{}

/// The codes that are named are those of the dictionary's rows under these names (RFC 6733, section 4.5;
/// RFC 8506, section 8).
pub fn codes_have_names()
    ensures base { map name_of (event_timestamp ∷ auth_application_id ∷ session_id ∷ origin_host ∷ result_code ∷ product_name ∷ failed_avp ∷ route_record ∷ destination_realm ∷ proxy_info ∷ destination_host ∷ origin_realm ∷ []) ≡
        map (λ name. Some name) (codes "Event-Timestamp" ∷ codes "Auth-Application-Id" ∷ codes "Session-Id" ∷ codes "Origin-Host" ∷ codes "Result-Code" ∷ codes "Product-Name" ∷ codes "Failed-AVP" ∷ codes "Route-Record" ∷ codes "Destination-Realm" ∷ codes "Proxy-Info" ∷ codes "Destination-Host" ∷ codes "Origin-Realm" ∷ []) }
    ensures credit_control { map name_of (cc_request_number ∷ cc_request_type ∷ cc_service_specific_units ∷ cc_session_failover ∷ cc_time ∷ cc_total_octets ∷ check_balance_result ∷ cost_information ∷ currency_code ∷ exponent ∷ final_unit_indication ∷ granted_service_unit ∷ rating_group ∷ []) ≡
        map (λ name. Some name) (codes "CC-Request-Number" ∷ codes "CC-Request-Type" ∷ codes "CC-Service-Specific-Units" ∷ codes "CC-Session-Failover" ∷ codes "CC-Time" ∷ codes "CC-Total-Octets" ∷ codes "Check-Balance-Result" ∷ codes "Cost-Information" ∷ codes "Currency-Code" ∷ codes "Exponent" ∷ codes "Final-Unit-Indication" ∷ codes "Granted-Service-Unit" ∷ codes "Rating-Group" ∷ []) }
    ensures units { map name_of (requested_action ∷ requested_service_unit ∷ service_identifier ∷ subscription_id ∷ subscription_id_data ∷ unit_value ∷ used_service_unit ∷ value_digits ∷ validity_time ∷ final_unit_action ∷ subscription_id_type ∷ multiple_services ∷ service_context_id ∷ []) ≡
        map (λ name. Some name) (codes "Requested-Action" ∷ codes "Requested-Service-Unit" ∷ codes "Service-Identifier" ∷ codes "Subscription-Id" ∷ codes "Subscription-Id-Data" ∷ codes "Unit-Value" ∷ codes "Used-Service-Unit" ∷ codes "Value-Digits" ∷ codes "Validity-Time" ∷ codes "Final-Unit-Action" ∷ codes "Subscription-Id-Type" ∷ codes "Multiple-Services-Credit-Control" ∷ codes "Service-Context-Id" ∷ []) }
{}

/// An AVP of each kind as it is written (RFC 6733, section 4.1). A number stands in network order, padding is zero, and
/// each has the flag M but Product-Name. Numbers are octets.
pub fn each_kind_is_written_in_its_octets()
    ensures unsigned32 { spelling_of 415 (Unsigned32 7) ≡ Ok (0 ∷ 0 ∷ 1 ∷ 159 ∷ 64 ∷ 0 ∷ 0 ∷ 12 ∷ 0 ∷ 0 ∷ 0 ∷ 7 ∷ []) }
    ensures unsigned64 { spelling_of 421 (Unsigned64 3200) ≡ Ok (0 ∷ 0 ∷ 1 ∷ 165 ∷ 64 ∷ 0 ∷ 0 ∷ 16 ∷ 0 ∷ 0 ∷ 0 ∷ 0 ∷ 0 ∷ 0 ∷ 12 ∷ 128 ∷ []) }
    ensures integer32 { spelling_of 429 (Integer32 (negsuc 1)) ≡ Ok (0 ∷ 0 ∷ 1 ∷ 173 ∷ 64 ∷ 0 ∷ 0 ∷ 12 ∷ 255 ∷ 255 ∷ 255 ∷ 254 ∷ []) }
    ensures integer64 { spelling_of 447 (Integer64 (negsuc 0)) ≡ Ok (0 ∷ 0 ∷ 1 ∷ 191 ∷ 64 ∷ 0 ∷ 0 ∷ 16 ∷ 255 ∷ 255 ∷ 255 ∷ 255 ∷ 255 ∷ 255 ∷ 255 ∷ 255 ∷ []) }
    ensures time { spelling_of 55 (Time 3758096384) ≡ Ok (0 ∷ 0 ∷ 0 ∷ 55 ∷ 64 ∷ 0 ∷ 0 ∷ 12 ∷ 224 ∷ 0 ∷ 0 ∷ 0 ∷ []) }
    ensures enumerated { spelling_of 416 (Enumerated (pos 4)) ≡ Ok (0 ∷ 0 ∷ 1 ∷ 160 ∷ 64 ∷ 0 ∷ 0 ∷ 12 ∷ 0 ∷ 0 ∷ 0 ∷ 4 ∷ []) }
    ensures text { spelling_of 269 (Utf8String (codes "relay")) ≡ Ok (0 ∷ 0 ∷ 1 ∷ 13 ∷ 0 ∷ 0 ∷ 0 ∷ 13 ∷ 114 ∷ 101 ∷ 108 ∷ 97 ∷ 121 ∷ 0 ∷ 0 ∷ 0 ∷ []) }
    ensures identity { spelling_of 264 (DiameterIdentity (codes "r1.example")) ≡
        Ok (0 ∷ 0 ∷ 1 ∷ 8 ∷ 64 ∷ 0 ∷ 0 ∷ 18 ∷ 114 ∷ 49 ∷ 46 ∷ 101 ∷ 120 ∷ 97 ∷ 109 ∷ 112 ∷ 108 ∷ 101 ∷ 0 ∷ 0 ∷ []) }
    ensures octets { spelling_of 33 (OctetString (255 ∷ [])) ≡ Ok (0 ∷ 0 ∷ 0 ∷ 33 ∷ 64 ∷ 0 ∷ 0 ∷ 9 ∷ 255 ∷ 0 ∷ 0 ∷ 0 ∷ []) }
    ensures address { spelling_of 257 (Address (0 ∷ 1 ∷ 127 ∷ 0 ∷ 0 ∷ 1 ∷ [])) ≡ Ok (0 ∷ 0 ∷ 1 ∷ 1 ∷ 64 ∷ 0 ∷ 0 ∷ 14 ∷ 0 ∷ 1 ∷ 127 ∷ 0 ∷ 0 ∷ 1 ∷ 0 ∷ 0 ∷ []) }
    ensures group { spelling_of 437 (Grouped (0 ∷ 0 ∷ 1 ∷ 176 ∷ 64 ∷ 0 ∷ 0 ∷ 12 ∷ 0 ∷ 0 ∷ 0 ∷ 10 ∷ [])) ≡
        Ok (0 ∷ 0 ∷ 1 ∷ 181 ∷ 64 ∷ 0 ∷ 0 ∷ 20 ∷ 0 ∷ 0 ∷ 1 ∷ 176 ∷ 64 ∷ 0 ∷ 0 ∷ 12 ∷ 0 ∷ 0 ∷ 0 ∷ 10 ∷ []) }
{}

/// What is not written: a value of another kind, an address of a length that its family has not, a number that is none
/// of its enumeration, and a value for a code that has no row.
pub fn other_kinds_are_not_written()
    ensures kind { spelling_of 415 (Unsigned64 7) ≡ Err (BadLength 415) }
    ensures address { spelling_of 257 (Address (0 ∷ 2 ∷ 127 ∷ 0 ∷ 0 ∷ 1 ∷ [])) ≡ Err (BadLength 257) }
    ensures enumeration { spelling_of 416 (Enumerated (negsuc 0)) ≡ Err (BadEnumerated 416) }
    ensures row { spelling_of 440 (Unsigned32 1) ≡ Err (NoRow 440) }
{}

/// What has no row: the AVPs of vendors, the codes before the first one, between two and behind the last, and a name in
/// another case.
pub fn vendors_have_no_rows()
    ensures vendor { (code vendor : ℕ) → vendor ≢ 0 → row_of code vendor ≡ None }
    ensures code { map name_of (0 ∷ 440 ∷ 462 ∷ []) ≡ None ∷ None ∷ None ∷ [] }
    ensures name { map code_of_name (codes "Rating-Group" ∷ codes "rating-group" ∷ [] ∷ []) ≡ Some 432 ∷ None ∷ None ∷ [] }
{}
