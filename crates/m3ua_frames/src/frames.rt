//! Messages as octets.
ghost use Rattle.std.specs.Prelude.{◌≡◌, ◌≤◌, ◌<◌, ◌+◌, ◌-◌, ◌^◌, ◌++◌, List, Ok, IfOk, IfErr, IfSome, IsTrue, length};
ghost use Rattle.std.specs.Option.{option_map};
ghost use Rattle.arrayvec.specs.ArrayVec.{array_vec_len};
ghost use Rattle.m3ua_frames.specs.Parameters.{Parameter, AreParameters, value_of};
ghost use Rattle.m3ua_frames.specs.Frame.{IsFrame, Refuses, tells, tells_length, body, mandatory, has_all, header};

use crate::faults::Fault;
use crate::kinds::{Kind, kind_of};
use crate::numbers::{number_4, push_4};
use crate::parameters::{are_parameters, find, padding_after};
use crate::tag;
use arrayvec::ArrayVec;

/// A message: its kind, and the octets of its parameters.
#[derive(Clone, Copy, Debug)]
pub struct Frame<'a> {
    /// The class and the type.
    pub kind: Kind,
    /// The octets after the common header: parameters, in which [`find`] finds values.
    pub parameters: &'a [u8],
}

impl Kind {
    /// The tags of the parameters that a message of this kind must have.
    pub fn mandatory(self) -> &'static [u16]
        ensures { result.now ≡ mandatory self }
    {
        match self {
            Kind::Error => &[tag::ERROR_CODE],
            Kind::Notify => &[tag::STATUS],
            Kind::Data => &[tag::PROTOCOL_DATA],
            Kind::Duna | Kind::Dava | Kind::Daud | Kind::Scon | Kind::Drst => &[tag::AFFECTED],
            Kind::Dupu => &[tag::AFFECTED, tag::USER_CAUSE],
            Kind::Register => &[tag::ROUTING_KEY],
            Kind::Registered => &[tag::REGISTRATION],
            Kind::Deregister => &[tag::ROUTING_CONTEXT],
            Kind::Deregistered => &[tag::DEREGISTRATION],
            Kind::Up | Kind::Down | Kind::Beat | Kind::UpAck | Kind::DownAck | Kind::BeatAck => &[],
            Kind::Active | Kind::Inactive | Kind::ActiveAck | Kind::InactiveAck => &[],
        }
    }
}

/// Whether each of these tags is that of a parameter.
fn has_all(tags: &[u16], parameters: &[u8]) -> bool
    ensures { (ps : List Parameter) → AreParameters parameters.now ps → result ≡ has_all tags.now ps }
{
    for tag in tags {
        if find(parameters, *tag).is_none() {
            return false;
        }
    }
    true
}

/// Whether a length in a header is that of so many octets, with or without the last padding.
fn tells(told: usize, len: usize) -> bool
    requires { told < 2 ^ 32 }
    ensures { result ≡ tells told len }
{
    told >= 8 && (told == len || told + padding_after(told) == len)
}

/// Whether the header of octets tells their length.
fn tells_length(octets: &[u8]) -> bool
    ensures { result ≡ tells_length octets.now }
{
    octets.len() >= 8 && tells(number_4(octets, 4) as usize, octets.len())
}

/// The octets after a header that its length counts: those of the parameters, if they are a message.
pub fn parameters_of(octets: &[u8]) -> &[u8]
    ensures value { result.now ≡ body octets.now }
    ensures within { length result.now ≤ length octets.now - 8 }
{
    if octets.len() < 8 {
        return &[];
    }
    let told = number_4(octets, 4) as usize;
    if told < 8 {
        return &[];
    }
    let (_, behind) = octets.split_at(8);
    if told - 8 > behind.len() {
        return behind;
    }
    behind.split_at(told - 8).0
}

/// Decodes the octets of a message.
///
/// # Errors
///
/// The first of these that applies.
///
/// - `Length` if there are fewer than 8 octets, or not as many as the header says (RFC 4666, 3.1.4). The header may
///   leave out the padding of the last parameter, though it is there.
/// - `Version` if the version isn't 1 (3.1.1).
/// - `UnknownClass` and `UnknownType` if there is no such class, or no such type in it (3.1.2).
/// - `Field` if the octets after the header aren't parameters, or the length of one is wrong (3.2).
/// - `Missing` if a mandatory parameter is missing (3.3 to 3.8).
pub fn decode(octets: &[u8]) -> Result<Frame<'_>, Fault>
    ensures found { IfOk result (λ frame. (ps : List Parameter) × AreParameters frame.parameters.now ps
        × IsFrame octets.now (record { kind = frame.kind; parameters = ps })) }
    ensures refused { IfErr result (Refuses octets.now) }
{
    if octets.len() < 8 {
        return Err(Fault::Length);
    }
    if !tells_length(octets) {
        return Err(Fault::Length);
    }
    if octets[0] != 1 {
        return Err(Fault::Version);
    }
    let kind = match kind_of(octets[2], octets[3]) {
        Ok(kind) => kind,
        Err(fault) => return Err(fault),
    };
    let parameters = parameters_of(octets);
    if !are_parameters(parameters) {
        return Err(Fault::Field);
    }
    if !has_all(kind.mandatory(), parameters) {
        return Err(Fault::Missing);
    }
    Ok(Frame { kind, parameters })
}

/// Replaces `octets` by the octets of a message: the common header, and these parameters.
pub fn encode<const N: usize>(kind: Kind, parameters: &[u8], octets: &mut ArrayVec<u8, N>)
    requires room { length parameters.now + 8 ≤ N }
    requires small { N ≤ 65536 }
    ensures { octets.new.items ≡ header kind (length parameters.now) ++ parameters.now }
{
    octets.clear();
    octets.push(1);
    octets.push(0);
    octets.push(kind.class());
    octets.push(kind.number());
    push_4(octets, parameters.len() as u32 + 8);
    octets.try_extend_from_slice(parameters).unwrap();
}
