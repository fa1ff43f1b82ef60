//! The numbers that code names: of commands, of applications and of AVPs of vendor 0 (RFC 6733, sections
//! 3.1, 4.5 and 11; RFC 8506, sections 1.3, 3 and 8). Only those in use stand here: which AVPs there are, with
//! their names and kinds, is the dictionary's to say.

/// The Command Code of Credit-Control (RFC 8506, section 3).
pub const CREDIT_CONTROL_COMMAND: u32 = 272;

/// The Application-ID of Credit-Control (RFC 8506, section 1.3).
pub const CREDIT_CONTROL_APPLICATION: u32 = 4;

pub const AUTH_APPLICATION_ID: u32 = 258;

pub const SESSION_ID: u32 = 263;

pub const ORIGIN_HOST: u32 = 264;

pub const RESULT_CODE: u32 = 268;

pub const PRODUCT_NAME: u32 = 269;

pub const FAILED_AVP: u32 = 279;

pub const ROUTE_RECORD: u32 = 282;

pub const DESTINATION_REALM: u32 = 283;

pub const PROXY_INFO: u32 = 284;

pub const DESTINATION_HOST: u32 = 293;

pub const ORIGIN_REALM: u32 = 296;

pub const CC_REQUEST_NUMBER: u32 = 415;

pub const CC_REQUEST_TYPE: u32 = 416;

pub const CC_SERVICE_SPECIFIC_UNITS: u32 = 417;

pub const CC_SESSION_FAILOVER: u32 = 418;

pub const CC_TIME: u32 = 420;

pub const CC_TOTAL_OCTETS: u32 = 421;

pub const CHECK_BALANCE_RESULT: u32 = 422;

pub const COST_INFORMATION: u32 = 423;

pub const CURRENCY_CODE: u32 = 425;

pub const EXPONENT: u32 = 429;

pub const FINAL_UNIT_INDICATION: u32 = 430;

pub const GRANTED_SERVICE_UNIT: u32 = 431;

pub const RATING_GROUP: u32 = 432;

pub const REQUESTED_ACTION: u32 = 436;

pub const REQUESTED_SERVICE_UNIT: u32 = 437;

pub const SERVICE_IDENTIFIER: u32 = 439;

pub const SUBSCRIPTION_ID: u32 = 443;

pub const SUBSCRIPTION_ID_DATA: u32 = 444;

pub const UNIT_VALUE: u32 = 445;

pub const USED_SERVICE_UNIT: u32 = 446;

pub const VALUE_DIGITS: u32 = 447;

pub const VALIDITY_TIME: u32 = 448;

pub const FINAL_UNIT_ACTION: u32 = 449;

pub const SUBSCRIPTION_ID_TYPE: u32 = 450;

/// The code of Multiple-Services-Credit-Control.
pub const MULTIPLE_SERVICES: u32 = 456;

pub const SERVICE_CONTEXT_ID: u32 = 461;
