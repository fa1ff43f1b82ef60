//! Names of numbers.

use dia_base::codes::{
    AUTH_APPLICATION_ID, CC_REQUEST_TYPE, CC_SESSION_FAILOVER, CHECK_BALANCE_RESULT,
    CREDIT_CONTROL_APPLICATION, FINAL_UNIT_ACTION, REQUESTED_ACTION, RESULT_CODE,
    SUBSCRIPTION_ID_TYPE,
};
use std::alloc::AllocError;

const ACCT_APPLICATION_ID: u32 = 259;

const DISCONNECT_CAUSE: u32 = 273;

const TERMINATION_CAUSE: u32 = 295;

const CREDIT_CONTROL: u32 = 426;

const CREDIT_CONTROL_FAILURE_HANDLING: u32 = 427;

const DIRECT_DEBITING_FAILURE_HANDLING: u32 = 428;

const MULTIPLE_SERVICES_INDICATOR: u32 = 455;

/// Adds a number, and its name where it has one.
pub fn push_named(out: &mut String, number: i64, name: Option<&str>) -> Result<(), AllocError> {
    match name {
        Some(name) => write!(out, "{number} {name}"),
        None => write!(out, "{number}"),
    }
}

/// The name of a number in an AVP of this code: of a result or of an application.
pub fn unsigned_name(code: u32, number: u32) -> Option<&'static str> {
    match code {
        RESULT_CODE => result_name(number),
        AUTH_APPLICATION_ID | ACCT_APPLICATION_ID => application_name(number),
        _ => None,
    }
}

/// The name of an application (RFC 6733, section 2.4; RFC 8506, section 1.3).
pub fn application_name(application: u32) -> Option<&'static str> {
    match application {
        0 => Some("Diameter common messages"),
        CREDIT_CONTROL_APPLICATION => Some("Credit-Control"),
        _ => None,
    }
}

/// The name of a Result-Code (RFC 6733, section 7.1; RFC 8506, section 9).
fn result_name(number: u32) -> Option<&'static str> {
    match number {
        1001..=2999 => success_name(number),
        3001..=3999 => protocol_error_name(number),
        4001..=4999 => transient_name(number),
        5001..=5999 => permanent_name(number),
        _ => None,
    }
}

/// Of those that inform, and those of success.
fn success_name(number: u32) -> Option<&'static str> {
    match number {
        1001 => Some("DIAMETER_MULTI_ROUND_AUTH"),
        2001 => Some("DIAMETER_SUCCESS"),
        2002 => Some("DIAMETER_LIMITED_SUCCESS"),
        _ => None,
    }
}

fn protocol_error_name(number: u32) -> Option<&'static str> {
    match number {
        3001 => Some("DIAMETER_COMMAND_UNSUPPORTED"),
        3002 => Some("DIAMETER_UNABLE_TO_DELIVER"),
        3003 => Some("DIAMETER_REALM_NOT_SERVED"),
        3004 => Some("DIAMETER_TOO_BUSY"),
        3005 => Some("DIAMETER_LOOP_DETECTED"),
        3006 => Some("DIAMETER_REDIRECT_INDICATION"),
        3007 => Some("DIAMETER_APPLICATION_UNSUPPORTED"),
        3008 => Some("DIAMETER_INVALID_HDR_BITS"),
        3009 => Some("DIAMETER_INVALID_AVP_BITS"),
        3010 => Some("DIAMETER_UNKNOWN_PEER"),
        _ => None,
    }
}

/// Of failures that may pass.
fn transient_name(number: u32) -> Option<&'static str> {
    match number {
        4001 => Some("DIAMETER_AUTHENTICATION_REJECTED"),
        4002 => Some("DIAMETER_OUT_OF_SPACE"),
        4003 => Some("ELECTION_LOST"),
        4010 => Some("DIAMETER_END_USER_SERVICE_DENIED"),
        4011 => Some("DIAMETER_CREDIT_CONTROL_NOT_APPLICABLE"),
        4012 => Some("DIAMETER_CREDIT_LIMIT_REACHED"),
        _ => None,
    }
}

/// Of failures for good.
fn permanent_name(number: u32) -> Option<&'static str> {
    match number {
        5001 => Some("DIAMETER_AVP_UNSUPPORTED"),
        5002 => Some("DIAMETER_UNKNOWN_SESSION_ID"),
        5003 => Some("DIAMETER_AUTHORIZATION_REJECTED"),
        5004 => Some("DIAMETER_INVALID_AVP_VALUE"),
        5005 => Some("DIAMETER_MISSING_AVP"),
        5006 => Some("DIAMETER_RESOURCES_EXCEEDED"),
        5007 => Some("DIAMETER_CONTRADICTING_AVPS"),
        5008 => Some("DIAMETER_AVP_NOT_ALLOWED"),
        5009 => Some("DIAMETER_AVP_OCCURS_TOO_MANY_TIMES"),
        5010 => Some("DIAMETER_NO_COMMON_APPLICATION"),
        5011 => Some("DIAMETER_UNSUPPORTED_VERSION"),
        5012 => Some("DIAMETER_UNABLE_TO_COMPLY"),
        5013 => Some("DIAMETER_INVALID_BIT_IN_HEADER"),
        5014 => Some("DIAMETER_INVALID_AVP_LENGTH"),
        5015 => Some("DIAMETER_INVALID_MESSAGE_LENGTH"),
        5016 => Some("DIAMETER_INVALID_AVP_BIT_COMBO"),
        5017 => Some("DIAMETER_NO_COMMON_SECURITY"),
        5030 => Some("DIAMETER_USER_UNKNOWN"),
        5031 => Some("DIAMETER_RATING_FAILED"),
        _ => None,
    }
}

/// The name of a number in an AVP of this code (RFC 6733, sections 5.4.3 and 8.15; RFC 8506, section 8).
pub fn enumerated_name(code: u32, number: i32) -> Option<&'static str> {
    match code {
        DISCONNECT_CAUSE => disconnect_cause_name(number),
        TERMINATION_CAUSE => termination_cause_name(number),
        CC_REQUEST_TYPE => request_type_name(number),
        CC_SESSION_FAILOVER => session_failover_name(number),
        CHECK_BALANCE_RESULT => balance_name(number),
        CREDIT_CONTROL => credit_control_name(number),
        CREDIT_CONTROL_FAILURE_HANDLING => failure_handling_name(number),
        DIRECT_DEBITING_FAILURE_HANDLING => debiting_failure_name(number),
        REQUESTED_ACTION => action_name(number),
        FINAL_UNIT_ACTION => final_action_name(number),
        SUBSCRIPTION_ID_TYPE => subscription_name(number),
        MULTIPLE_SERVICES_INDICATOR => services_name(number),
        _ => None,
    }
}

fn disconnect_cause_name(number: i32) -> Option<&'static str> {
    match number {
        0 => Some("REBOOTING"),
        1 => Some("BUSY"),
        2 => Some("DO_NOT_WANT_TO_TALK_TO_YOU"),
        _ => None,
    }
}

fn termination_cause_name(number: i32) -> Option<&'static str> {
    match number {
        1 => Some("DIAMETER_LOGOUT"),
        2 => Some("DIAMETER_SERVICE_NOT_PROVIDED"),
        3 => Some("DIAMETER_BAD_ANSWER"),
        4 => Some("DIAMETER_ADMINISTRATIVE"),
        5 => Some("DIAMETER_LINK_BROKEN"),
        6 => Some("DIAMETER_AUTH_EXPIRED"),
        7 => Some("DIAMETER_USER_MOVED"),
        8 => Some("DIAMETER_SESSION_TIMEOUT"),
        _ => None,
    }
}

fn request_type_name(number: i32) -> Option<&'static str> {
    match number {
        1 => Some("INITIAL_REQUEST"),
        2 => Some("UPDATE_REQUEST"),
        3 => Some("TERMINATION_REQUEST"),
        4 => Some("EVENT_REQUEST"),
        _ => None,
    }
}

fn session_failover_name(number: i32) -> Option<&'static str> {
    match number {
        0 => Some("FAILOVER_NOT_SUPPORTED"),
        1 => Some("FAILOVER_SUPPORTED"),
        _ => None,
    }
}

fn balance_name(number: i32) -> Option<&'static str> {
    match number {
        0 => Some("ENOUGH_CREDIT"),
        1 => Some("NO_CREDIT"),
        _ => None,
    }
}

fn credit_control_name(number: i32) -> Option<&'static str> {
    match number {
        0 => Some("CREDIT_AUTHORIZATION"),
        1 => Some("RE_AUTHORIZATION"),
        _ => None,
    }
}

fn failure_handling_name(number: i32) -> Option<&'static str> {
    match number {
        0 => Some("TERMINATE"),
        1 => Some("CONTINUE"),
        2 => Some("RETRY_AND_TERMINATE"),
        _ => None,
    }
}

fn debiting_failure_name(number: i32) -> Option<&'static str> {
    match number {
        0 => Some("TERMINATE_OR_BUFFER"),
        1 => Some("CONTINUE"),
        _ => None,
    }
}

fn action_name(number: i32) -> Option<&'static str> {
    match number {
        0 => Some("DIRECT_DEBITING"),
        1 => Some("REFUND_ACCOUNT"),
        2 => Some("CHECK_BALANCE"),
        3 => Some("PRICE_ENQUIRY"),
        _ => None,
    }
}

fn final_action_name(number: i32) -> Option<&'static str> {
    match number {
        0 => Some("TERMINATE"),
        1 => Some("REDIRECT"),
        2 => Some("RESTRICT_ACCESS"),
        _ => None,
    }
}

fn subscription_name(number: i32) -> Option<&'static str> {
    match number {
        0 => Some("END_USER_E164"),
        1 => Some("END_USER_IMSI"),
        2 => Some("END_USER_SIP_URI"),
        3 => Some("END_USER_NAI"),
        4 => Some("END_USER_PRIVATE"),
        _ => None,
    }
}

fn services_name(number: i32) -> Option<&'static str> {
    match number {
        0 => Some("MULTIPLE_SERVICES_NOT_SUPPORTED"),
        1 => Some("MULTIPLE_SERVICES_SUPPORTED"),
        _ => None,
    }
}
