//! Parameters.
ghost use Rattle.std.specs.Prelude.{◌≡◌, ◌≤◌, ◌<◌, ◌+◌, ◌^◌, ◌++◌, ◌==◌, ◌↔◌, List, Some, None, IsTrue, IfSome, length};
ghost use Rattle.std.specs.Option.{option_map};
ghost use Rattle.arrayvec.specs.ArrayVec.{array_vec_len};
ghost use Rattle.m3ua_frames.specs.Numbers.{octets_4};
ghost use Rattle.m3ua_frames.specs.Tags.{is_sized};
ghost use Rattle.m3ua_frames.specs.Parameters.{Parameter, IsParameter, AreParameters, IsNext, padding_after, padded, completed, value_of};
ghost use Rattle.m3ua_frames.specs.Reading.{past_padding, value_at, parameter_at};

use crate::numbers::{number_2, push_2, push_4, push_zeros};
use crate::tag;
use arrayvec::ArrayVec;

/// Whether a value with this tag may have `len` octets.
fn is_sized(tag: u16, len: usize) -> bool
    ensures { result ≡ is_sized tag len }
{
    if tag::NUMBERS.contains(&tag) {
        return len == 4;
    }
    match tag {
        tag::ROUTING_CONTEXT | tag::AFFECTED => len > 0 && len % 4 == 0,
        tag::PROTOCOL_DATA => len >= 12,
        tag::INFO_STRING => len <= 255,
        _ => true,
    }
}

/// The number of octets of padding after a value of `len` octets.
pub(crate) fn padding_after(len: usize) -> usize
    ensures value { result ≡ padding_after len }
    ensures few { result < 4 }
{
    (4 - len % 4) % 4
}

/// The octets after the padding. The padding may be missing at the end.
fn past_padding(padding: usize, octets: &[u8]) -> Option<&[u8]>
    ensures { option_map (λ x. x.now) result ≡ past_padding padding octets.now }
{
    if octets.is_empty() {
        return Some(octets);
    }
    if octets.len() < padding {
        return None;
    }
    Some(&octets[padding..])
}

/// The value of `len` octets, and the octets after its padding.
#[tactic(auto, unfolding(crate::specs::Reading::value_at))]
fn value_at(tag: u16, len: usize, octets: &[u8]) -> Option<(u16, &[u8], &[u8])>
    ensures { option_map (λ x. (record { tag = x.0; value = x.1.now }, x.2.now)) result ≡ value_at tag len octets.now }
{
    if octets.len() < len {
        return None;
    }
    if !is_sized(tag, len) {
        return None;
    }
    let (value, behind) = octets.split_at(len);
    match past_padding(padding_after(len), behind) {
        None => None,
        Some(rest) => Some((tag, value, rest)),
    }
}

/// The tag and the value of the parameter at the start of octets, and the octets after it.
#[tactic(auto, unfolding(crate::specs::Reading::parameter_at))]
fn first_parameter(octets: &[u8]) -> Option<(u16, &[u8], &[u8])>
    ensures { option_map (λ x. (record { tag = x.0; value = x.1.now }, x.2.now)) result ≡ parameter_at octets.now }
{
    if octets.len() < 4 {
        return None;
    }
    let tag = number_2(octets, 0);
    let size = number_2(octets, 2);
    if size < 4 {
        return None;
    }
    value_at(tag, size as usize - 4, &octets[4..])
}

/// Whether octets are parameters (RFC 4666, 3.2), each of a length that its tag allows.
pub fn are_parameters(octets: &[u8]) -> bool
    ensures { IsTrue result ↔ ((ps : List Parameter) × AreParameters octets.now ps) }
{
    let mut rest = octets;
    while !rest.is_empty() {
        match first_parameter(rest) {
            None => return false,
            Some((_, _, after)) => rest = after,
        }
    }
    true
}

/// The value of the first parameter with this tag.
pub fn find(octets: &[u8], tag: u16) -> Option<&[u8]>
    ensures { (ps : List Parameter) → AreParameters octets.now ps → option_map (λ x. x.now) result ≡ value_of tag ps }
{
    let mut rest = octets;
    while !rest.is_empty() {
        match first_parameter(rest) {
            None => return None,
            Some((found, value, after)) => {
                if found == tag {
                    return Some(value);
                }
                rest = after;
            }
        }
    }
    None
}

/// The value of the first parameter with this tag, and the octets of the parameters after it.
pub fn find_next(octets: &[u8], tag: u16) -> Option<(&[u8], &[u8])>
    ensures found { (ps : List Parameter) → AreParameters octets.now ps
        → IsNext tag ps (option_map (λ x. (x.0.now, x.1.now)) result) }
    ensures shorter { IfSome result (λ x. length x.1.now < length octets.now) }
{
    let mut rest = octets;
    while !rest.is_empty() {
        match first_parameter(rest) {
            None => return None,
            Some((found, value, after)) => {
                if found == tag {
                    return Some((value, after));
                }
                rest = after;
            }
        }
    }
    None
}

/// Appends the octets of parameters, and the padding of the last one if it is missing.
pub fn push_parameters<const N: usize>(octets: &mut ArrayVec<u8, N>, parameters: &[u8])
    requires { array_vec_len octets.old + length parameters.now + 3 ≤ N }
    ensures items { octets.new.items ≡ octets.old.items ++ completed parameters.now }
    ensures len { array_vec_len octets.new ≤ array_vec_len octets.old + length parameters.now + 3 }
{
    octets.try_extend_from_slice(parameters).unwrap();
    push_zeros(octets, padding_after(parameters.len()));
}

/// Appends a parameter with its padding of zeros.
pub fn push_parameter<const N: usize>(octets: &mut ArrayVec<u8, N>, tag: u16, value: &[u8])
    requires fits { length value.now + 4 < 2 ^ 16 }
    requires room { array_vec_len octets.old + length value.now + 7 ≤ N }
    ensures { octets.new.items ≡ octets.old.items ++ padded (record { tag = tag; value = value.now }) }
{
    push_2(octets, tag);
    push_2(octets, value.len() as u16 + 4);
    octets.try_extend_from_slice(value).unwrap();
    push_zeros(octets, padding_after(value.len()));
}

/// Appends a parameter whose value is one number.
pub fn push_number<const N: usize>(octets: &mut ArrayVec<u8, N>, tag: u16, number: u32)
    requires { array_vec_len octets.old + 8 ≤ N }
    ensures { octets.new.items ≡ octets.old.items ++ padded (record { tag = tag; value = octets_4 number }) }
{
    push_2(octets, tag);
    push_2(octets, 8);
    push_4(octets, number);
}
