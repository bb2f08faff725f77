//! Answers to registrations of routing keys.
ghost use Rattle.std.specs.Prelude.{◌≡◌, ◌<◌, List, IfSome, length};
ghost use Rattle.std.specs.Option.{option_map};
ghost use Rattle.m3ua_frames.specs.Parameters.{Parameter, AreParameters};
ghost use Rattle.m3ua_gateway.specs.Registering.{IsIdentifier, IsRegistered, result_octets, registration_octets};

use arrayvec::ArrayVec;
use m3ua_frames::{
    Kind, are_parameters, encode, find, find_next, number_4, push_number, push_parameter, tag,
};

/// The tag of Registration Status.
const REGISTRATION_STATUS: u16 = 0x0212;

/// The status Successfully Registered (RFC 4666, 3.6.2).
const REGISTERED: u32 = 0;

/// The status Error - Invalid Routing Key.
const INVALID_KEY: u32 = 4;

/// The identifier in a routing key, if it has one.
fn identifier(value: &[u8]) -> Option<u32>
    ensures { IsIdentifier value.now result }
{
    if !are_parameters(value) {
        return None;
    }
    match find(value, tag::LOCAL_KEY) {
        None => None,
        Some(number) => {
            if number.len() >= 4 {
                Some(number_4(number, 0))
            } else {
                None
            }
        }
    }
}

/// Replaces `octets` by REG RSP with one result.
fn result_of(key: u32, status: u32, context: u32, octets: &mut ArrayVec<u8, 4160>)
    ensures { octets.new.items ≡ result_octets key status context }
{
    let mut result: ArrayVec<u8, 64> = ArrayVec::new();
    push_number(&mut result, tag::LOCAL_KEY, key);
    push_number(&mut result, REGISTRATION_STATUS, status);
    push_number(&mut result, tag::ROUTING_CONTEXT, context);
    let mut body: ArrayVec<u8, 64> = ArrayVec::new();
    push_parameter(&mut body, tag::REGISTRATION, result.as_slice());
    encode(Kind::Registered, body.as_slice(), octets);
}

/// Replaces `octets` by REG RSP for a routing key with this identifier, or without one.
fn respond(context: u32, key: Option<u32>, octets: &mut ArrayVec<u8, 4160>)
    ensures { octets.new.items ≡ registration_octets context key }
{
    match key {
        None => result_of(0, INVALID_KEY, 0, octets),
        Some(key) => result_of(key, REGISTERED, context, octets),
    }
}

/// Replaces `octets` by REG RSP for the first routing key among parameters. Returns the octets of the parameters after
/// it, which may have more keys; `None` if there is no routing key.
pub fn registered<'a>(
    context: u32,
    parameters: &'a [u8],
    octets: &mut ArrayVec<u8, 4160>,
) -> Option<&'a [u8]>
    ensures answer { (ps : List Parameter) → AreParameters parameters.now ps
        → IsRegistered context ps octets.new.items (option_map (λ x. x.now) result) }
    ensures shorter { IfSome result (λ x. length x.now < length parameters.now) }
{
    match find_next(parameters, tag::ROUTING_KEY) {
        None => None,
        Some((value, rest)) => {
            respond(context, identifier(value), octets);
            Some(rest)
        }
    }
}
