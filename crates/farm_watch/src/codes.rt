//! The numbers of the messages between two neighbours, which concern no other node (RFC 6733, sections
//! 3.1, 4.5, 5.3 to 5.5 and 11.2).

/// The Command Code of Capabilities-Exchange.
pub const CAPABILITIES_EXCHANGE: u32 = 257;

/// The Command Code of Device-Watchdog.
pub const DEVICE_WATCHDOG: u32 = 280;

/// The Command Code of Disconnect-Peer.
pub const DISCONNECT_PEER: u32 = 282;

/// The Application-ID of the commands between neighbours.
pub const COMMON_MESSAGES: u32 = 0;

/// The Application-ID that a relay advertises.
pub const RELAY_APPLICATION: u32 = 4_294_967_295;

pub const HOST_IP_ADDRESS: u32 = 257;

pub const VENDOR_SPECIFIC_APPLICATION_ID: u32 = 260;

pub const SUPPORTED_VENDOR_ID: u32 = 265;

pub const VENDOR_ID: u32 = 266;

pub const DISCONNECT_CAUSE: u32 = 273;

pub const ORIGIN_STATE_ID: u32 = 278;

/// A Result-Code.
pub const SUCCESS: u32 = 2001;

/// A Result-Code.
pub const NO_COMMON_APPLICATION: u32 = 5010;

/// A Disconnect-Cause.
pub const BUSY: u32 = 1;

/// A Disconnect-Cause.
pub const DO_NOT_WANT_TO_TALK_TO_YOU: u32 = 2;
