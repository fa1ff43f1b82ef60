//! Laws of identities, codes and limits. Each is the contract of a function without a body.

ghost use Rattle.std.specs.Prelude.{◌≡◌, ◌↔◌, ◌∷◌, ℕ, List, [], Some, None, true, false, IsTrue, is_none, map, filter, replicate, codes};
ghost use Rattle.std.specs.List.{range_with_len};
ghost use Rattle.std.specs.declared.cmp.Ordering.TheVariants.{Less, Equal, Greater};
ghost use Rattle.dia_base.specs.Codes.{credit_control_command, credit_control_application, auth_application_id, session_id, origin_host, result_code, product_name, failed_avp, route_record, destination_realm, proxy_info, destination_host, origin_realm, cc_request_number, cc_request_type, cc_service_specific_units, cc_session_failover, cc_time, cc_total_octets, check_balance_result, cost_information, currency_code, exponent, final_unit_indication, granted_service_unit, rating_group, requested_action, requested_service_unit, service_identifier, subscription_id, subscription_id_data, unit_value, used_service_unit, value_digits, validity_time, final_unit_action, subscription_id_type, multiple_services, service_context_id};
ghost use Rattle.dia_base.specs.Limits.{message_limit, queue_limit, worker_limit, service_limit, history_limit, pending_limit, schedule_limit, step_limit};
ghost use Rattle.dia_base.specs.Folding.{folded_of, same_folded, folded_cmp};
ghost use Rattle.dia_base.specs.Identity.{fault_of, IsIdentity};
ghost use Rattle.dia_base.specs.declared.identity.IdentityFault.TheVariants.{Empty, TooLong, BadOctet};

use crate::codes::{
    AUTH_APPLICATION_ID, CC_REQUEST_NUMBER, CC_REQUEST_TYPE, CC_SERVICE_SPECIFIC_UNITS,
    CC_SESSION_FAILOVER, CC_TIME, CC_TOTAL_OCTETS, CHECK_BALANCE_RESULT, COST_INFORMATION,
    CREDIT_CONTROL_APPLICATION, CREDIT_CONTROL_COMMAND, CURRENCY_CODE, DESTINATION_HOST,
    DESTINATION_REALM, EXPONENT, FAILED_AVP, FINAL_UNIT_ACTION, FINAL_UNIT_INDICATION,
    GRANTED_SERVICE_UNIT, MULTIPLE_SERVICES, ORIGIN_HOST, ORIGIN_REALM, PRODUCT_NAME, PROXY_INFO,
    RATING_GROUP, REQUESTED_ACTION, REQUESTED_SERVICE_UNIT, RESULT_CODE, ROUTE_RECORD,
    SERVICE_CONTEXT_ID, SERVICE_IDENTIFIER, SESSION_ID, SUBSCRIPTION_ID, SUBSCRIPTION_ID_DATA,
    SUBSCRIPTION_ID_TYPE, UNIT_VALUE, USED_SERVICE_UNIT, VALIDITY_TIME, VALUE_DIGITS,
};
use crate::limit::{
    HISTORY_LIMIT, MESSAGE_LIMIT, PENDING_LIMIT, QUEUE_LIMIT, SCHEDULE_LIMIT, SERVICE_LIMIT,
    STEP_LIMIT, WORKER_LIMIT,
};

/// Octets without a fault are an identity, and an identity has no fault.
pub fn identities()
    ensures { (octets : List ℕ) → (fault_of octets ≡ None) ↔ IsIdentity octets }
{}

/// Identities are equal where their octets are, each letter in lower case.
pub fn equal_without_case()
    ensures { (a b : List ℕ) → IsTrue (same_folded a b) ↔ (folded_of a ≡ folded_of b) }
{}

/// Worked examples: which octets are an identity. Of octets that are too long nothing else is told.
pub fn identities_are_visible_octets()
    ensures good { map fault_of (codes "a" ∷ codes "f1.example" ∷ codes "!~" ∷ replicate 255 97 ∷ []) ≡ None ∷ None ∷ None ∷ None ∷ [] }
    ensures size { map fault_of ([] ∷ replicate 256 97 ∷ replicate 256 32 ∷ []) ≡ Some Empty ∷ Some TooLong ∷ Some TooLong ∷ [] }
    ensures visible { filter (λ octet. is_none (fault_of (octet ∷ []))) (range_with_len 0 256) ≡ range_with_len 33 94 }
    ensures octet { map fault_of (codes "a b" ∷ (127 ∷ 32 ∷ []) ∷ codes "c1.example\n" ∷ (195 ∷ 169 ∷ []) ∷ []) ≡ Some (BadOctet 1) ∷ Some (BadOctet 0) ∷ Some (BadOctet 10) ∷ Some (BadOctet 0) ∷ [] }
{}

/// Worked examples: which identities are equal to `C1.Example`, and which come before it or behind it.
pub fn identities_are_equal_without_case()
    ensures equal { map (same_folded (codes "C1.Example")) (codes "c1.example" ∷ codes "c1_example" ∷ codes "c1.example." ∷ codes "c1" ∷ []) ≡ true ∷ false ∷ false ∷ false ∷ [] }
    ensures order { map (folded_cmp (codes "C1.Example")) (codes "c1.example" ∷ codes "c1_example" ∷ codes "c1.example." ∷ codes "c1" ∷ codes "B1.EXAMPLE" ∷ []) ≡ Equal ∷ Less ∷ Less ∷ Greater ∷ Greater ∷ [] }
    // What is hashed: all that are equal have one hash.
    ensures folded { map folded_of (codes "C1.Example" ∷ codes "c1.example" ∷ []) ≡ codes "c1.example" ∷ codes "c1.example" ∷ [] }
    // Only letters have a case, and a letter comes behind `_`.
    ensures letters { map folded_of (codes "@AZ[" ∷ codes "`az{" ∷ []) ≡ codes "@az[" ∷ codes "`az{" ∷ [] }
    ensures behind { map (folded_cmp (codes "_")) (codes "A" ∷ codes "a" ∷ []) ≡ Less ∷ Less ∷ [] }
{}

/// The constants of [`crate::codes`] are the numbers that definitions name.
pub fn codes_are_defined()
    ensures commands { (CREDIT_CONTROL_COMMAND ∷ CREDIT_CONTROL_APPLICATION ∷ []) ≡ (credit_control_command ∷ credit_control_application ∷ []) }
    ensures base { (AUTH_APPLICATION_ID ∷ SESSION_ID ∷ ORIGIN_HOST ∷ RESULT_CODE ∷ PRODUCT_NAME ∷ FAILED_AVP ∷ ROUTE_RECORD ∷ DESTINATION_REALM ∷ PROXY_INFO ∷ DESTINATION_HOST ∷ ORIGIN_REALM ∷ []) ≡ (auth_application_id ∷ session_id ∷ origin_host ∷ result_code ∷ product_name ∷ failed_avp ∷ route_record ∷ destination_realm ∷ proxy_info ∷ destination_host ∷ origin_realm ∷ []) }
    ensures credit_control { (CC_REQUEST_NUMBER ∷ CC_REQUEST_TYPE ∷ CC_SERVICE_SPECIFIC_UNITS ∷ CC_SESSION_FAILOVER ∷ CC_TIME ∷ CC_TOTAL_OCTETS ∷ CHECK_BALANCE_RESULT ∷ COST_INFORMATION ∷ CURRENCY_CODE ∷ EXPONENT ∷ FINAL_UNIT_INDICATION ∷ GRANTED_SERVICE_UNIT ∷ RATING_GROUP ∷ []) ≡ (cc_request_number ∷ cc_request_type ∷ cc_service_specific_units ∷ cc_session_failover ∷ cc_time ∷ cc_total_octets ∷ check_balance_result ∷ cost_information ∷ currency_code ∷ exponent ∷ final_unit_indication ∷ granted_service_unit ∷ rating_group ∷ []) }
    ensures units { (REQUESTED_ACTION ∷ REQUESTED_SERVICE_UNIT ∷ SERVICE_IDENTIFIER ∷ SUBSCRIPTION_ID ∷ SUBSCRIPTION_ID_DATA ∷ UNIT_VALUE ∷ USED_SERVICE_UNIT ∷ VALUE_DIGITS ∷ VALIDITY_TIME ∷ FINAL_UNIT_ACTION ∷ SUBSCRIPTION_ID_TYPE ∷ MULTIPLE_SERVICES ∷ SERVICE_CONTEXT_ID ∷ []) ≡ (requested_action ∷ requested_service_unit ∷ service_identifier ∷ subscription_id ∷ subscription_id_data ∷ unit_value ∷ used_service_unit ∷ value_digits ∷ validity_time ∷ final_unit_action ∷ subscription_id_type ∷ multiple_services ∷ service_context_id ∷ []) }
{}

/// The limits are the numbers that definitions name.
pub fn limits_are_defined()
    ensures { (MESSAGE_LIMIT ∷ QUEUE_LIMIT ∷ WORKER_LIMIT ∷ SERVICE_LIMIT ∷ HISTORY_LIMIT ∷ PENDING_LIMIT ∷ SCHEDULE_LIMIT ∷ STEP_LIMIT ∷ []) ≡ (message_limit ∷ queue_limit ∷ worker_limit ∷ service_limit ∷ history_limit ∷ pending_limit ∷ schedule_limit ∷ step_limit ∷ []) }
{}
