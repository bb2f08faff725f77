//! What the octets of a message of the ASP ask.
ghost use Rattle.std.specs.Prelude.{◌≡◌, true, is_some};
ghost use Rattle.m3ua_gateway.specs.Asking.{is_error, is_transfer, is_data, refusal, Asks};
ghost use Rattle.m3ua_gateway.specs.declared.table.Happening.TheVariants.{Error};

use crate::hearing::{Request, hear};
use crate::table::Happening;
use m3ua_frames::decode;

/// Whether octets have the class and the type of ERR.
fn is_error(octets: &[u8]) -> bool
    ensures { result ≡ is_error octets.now }
{
    octets.len() >= 4 && octets[2] == 0 && octets[3] == 0
}

/// Whether octets have the class and the type of DATA.
fn is_transfer(octets: &[u8]) -> bool
    ensures { result ≡ is_transfer octets.now }
{
    octets.len() >= 4 && octets[2] == 1 && octets[3] == 1
}

/// What octets are that are no message.
fn refusal(octets: &[u8]) -> Happening
    ensures { result ≡ refusal octets.now }
{
    if is_error(octets) {
        Happening::Error
    } else if is_transfer(octets) {
        Happening::RefusedData
    } else {
        Happening::Refused
    }
}

/// What octets of the ASP ask of a gateway with this routing context. An ERR, also one that is no message, is `Error`.
pub fn request_of(octets: &[u8], context: u32) -> Request
    ensures asks { Asks context octets.now result.happening result.message result.code }
    ensures quiet { is_error octets.now ≡ true → result.happening ≡ Error }
    ensures carried { is_data result.happening ≡ true → is_some result.message ≡ true }
{
    match decode(octets) {
        Ok(frame) => hear(&frame, context),
        Err(fault) => Request {
            happening: refusal(octets),
            message: None,
            code: fault.code(),
        },
    }
}
