//! The tags of parameters (RFC 4666, 3.2).

/// INFO String.
pub const INFO_STRING: u16 = 0x0004;

/// Routing Context.
pub const ROUTING_CONTEXT: u16 = 0x0006;

/// Diagnostic Information.
pub const DIAGNOSTIC: u16 = 0x0007;

/// Heartbeat Data.
pub const HEARTBEAT: u16 = 0x0009;

/// Traffic Mode Type.
pub const TRAFFIC_MODE: u16 = 0x000b;

/// Error Code.
pub const ERROR_CODE: u16 = 0x000c;

/// Status.
pub const STATUS: u16 = 0x000d;

/// ASP Identifier.
pub const ASP_IDENTIFIER: u16 = 0x0011;

/// Affected Point Code.
pub const AFFECTED: u16 = 0x0012;

/// Correlation Id.
pub const CORRELATION: u16 = 0x0013;

/// Network Appearance.
pub const NETWORK: u16 = 0x0200;

/// User/Cause.
pub const USER_CAUSE: u16 = 0x0204;

/// Congestion Indications.
pub const CONGESTION: u16 = 0x0205;

/// Concerned Destination.
pub const CONCERNED: u16 = 0x0206;

/// Routing Key.
pub const ROUTING_KEY: u16 = 0x0207;

/// Registration Result.
pub const REGISTRATION: u16 = 0x0208;

/// Deregistration Result.
pub const DEREGISTRATION: u16 = 0x0209;

/// Local Routing Key Identifier.
pub const LOCAL_KEY: u16 = 0x020a;

/// Protocol Data.
pub const PROTOCOL_DATA: u16 = 0x0210;

/// The tags whose value is one number of four octets.
pub(crate) const NUMBERS: [u16; 10] = [
    TRAFFIC_MODE,
    ERROR_CODE,
    STATUS,
    ASP_IDENTIFIER,
    CORRELATION,
    NETWORK,
    USER_CAUSE,
    CONGESTION,
    CONCERNED,
    LOCAL_KEY,
];
