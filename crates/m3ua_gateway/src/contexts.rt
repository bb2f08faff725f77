//! Which routing contexts of a message are ours.
ghost use Rattle.std.specs.Prelude.{◌≡◌, ◌≤◌, ◌+◌, ◌++◌, ◌==◌, not, List, length};
ghost use Rattle.std.specs.List.{filter, flat_map, list_any};
ghost use Rattle.arrayvec.specs.ArrayVec.{array_vec_len};
ghost use Rattle.m3ua_frames.specs.Numbers.{numbers_in, octets_4};
ghost use Rattle.m3ua_frames.specs.Parameters.{Parameter, AreParameters, value_of};
ghost use Rattle.m3ua_frames.specs.Tags.{ROUTING_CONTEXT};
ghost use Rattle.m3ua_gateway.specs.Contexts.{has_ours, has_others, other_octets};

use arrayvec::ArrayVec;
use m3ua_frames::{find, next_number, push_4, tag};

/// Whether a routing context is among those in octets.
fn is_in(context: u32, contexts: &[u8]) -> bool
    ensures { result ≡ list_any (λ n. n == context) (numbers_in contexts.now) }
{
    let mut rest = contexts;
    while let Some((number, after)) = next_number(rest) {
        if number == context {
            return true;
        }
        rest = after;
    }
    false
}

/// Whether a routing context among those in octets is another one.
fn is_not_all(context: u32, contexts: &[u8]) -> bool
    ensures { result ≡ list_any (λ n. not (n == context)) (numbers_in contexts.now) }
{
    let mut rest = contexts;
    while let Some((number, after)) = next_number(rest) {
        if number != context {
            return true;
        }
        rest = after;
    }
    false
}

/// Whether our routing context is among those of a message, or the message has none.
pub(crate) fn has_ours(context: u32, parameters: &[u8]) -> bool
    ensures { (ps : List Parameter) → AreParameters parameters.now ps → result ≡ has_ours context (value_of ROUTING_CONTEXT ps) }
{
    match find(parameters, tag::ROUTING_CONTEXT) {
        None => true,
        Some(value) => is_in(context, value),
    }
}

/// Whether a message has a routing context that isn't ours.
pub(crate) fn has_others(context: u32, parameters: &[u8]) -> bool
    ensures { (ps : List Parameter) → AreParameters parameters.now ps → result ≡ has_others context (value_of ROUTING_CONTEXT ps) }
{
    match find(parameters, tag::ROUTING_CONTEXT) {
        None => false,
        Some(value) => is_not_all(context, value),
    }
}

/// Appends a routing context, if it is another one.
fn push_other(octets: &mut ArrayVec<u8, 4096>, context: u32, number: u32)
    requires { array_vec_len octets.old + 4 ≤ 4096 }
    ensures items { octets.new.items ≡ octets.old.items ++ other_octets context number }
    ensures len { array_vec_len octets.new ≤ array_vec_len octets.old + 4 }
{
    if number != context {
        push_4(octets, number);
    }
}

/// Appends the routing contexts in octets that aren't ours.
pub(crate) fn push_others(octets: &mut ArrayVec<u8, 4096>, context: u32, contexts: &[u8])
    requires { array_vec_len octets.old + length contexts.now ≤ 4096 }
    ensures { octets.new.items ≡ octets.old.items ++ flat_map octets_4 (filter (λ n. not (n == context)) (numbers_in contexts.now)) }
{
    let mut rest = contexts;
    while let Some((number, after)) = next_number(rest) {
        push_other(octets, context, number);
        rest = after;
    }
}
