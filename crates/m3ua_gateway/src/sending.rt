//! The messages that a gateway sends.
ghost use Rattle.std.specs.Prelude.{◌≡◌, ◌≤◌, ◌<◌, ◌+◌, ◌++◌, [], ◌∷◌, true, List, length, take, if◌then◌else◌};
ghost use Rattle.std.specs.Option.{option_map};
ghost use Rattle.arrayvec.specs.ArrayVec.{array_vec_len};
ghost use Rattle.m3ua_frames.specs.Frame.{body};
ghost use Rattle.m3ua_frames.specs.Parameters.{Parameter, AreParameters, value_of, all_padded};
ghost use Rattle.m3ua_frames.specs.Protocol.{protocol_of, view};
ghost use Rattle.m3ua_frames.specs.Tags.{ROUTING_CONTEXT, TRAFFIC_MODE, ERROR_CODE, STATUS, DIAGNOSTIC};
ghost use Rattle.m3ua_frames.specs.declared.kinds.Kind.TheVariants as kind;
ghost use Rattle.m3ua_gateway.specs.Contexts.{others_in};
ghost use Rattle.m3ua_gateway.specs.Sending.{status_of, number, numbers, own_context, same_mode, same_value, has_contexts, of_error, is_diagnosed, diagnostic, octets_of, beat_octets, acknowledgement, answer, AreRead, data_octets, destination_octets, sent};

use crate::contexts::push_others;
use crate::states::Server;
use crate::table::Action;
use arrayvec::ArrayVec;
use m3ua_frames::{
    Kind, ProtocolData, encode, find, number_4, parameters_of, protocol_data_of, push_number,
    push_parameter, push_parameters, push_protocol_data, tag,
};
use resend_store::Msu;

/// The code of Unexpected Message.
const UNEXPECTED: u32 = 0x06;

/// The code of Invalid Routing Context.
const INVALID_CONTEXT: u32 = 0x19;

/// No value is longer in a message of at most 4,096 octets.
const MOST_VALUE: usize = 4088;

/// The number that tells of a state of the AS in NTFY (RFC 4666, 3.8.2).
fn status_of(server: Server) -> u32
    ensures { result ≡ status_of server }
{
    match server {
        Server::Down => 0x0001_0001,
        Server::Inactive => 0x0001_0002,
        Server::Active => 0x0001_0003,
        Server::Pending => 0x0001_0004,
    }
}

/// Appends our routing context, if the message that is answered has one.
fn push_context(body: &mut ArrayVec<u8, 64>, context: u32, parameters: &[u8])
    requires { array_vec_len body.old + 8 ≤ 64 }
    ensures items { (ps : List Parameter) → AreParameters parameters.now ps
        → body.new.items ≡ body.old.items ++ all_padded (own_context context (value_of ROUTING_CONTEXT ps)) }
    ensures len { array_vec_len body.new ≤ array_vec_len body.old + 8 }
{
    match find(parameters, tag::ROUTING_CONTEXT) {
        None => {}
        Some(_) => push_number(body, tag::ROUTING_CONTEXT, context),
    }
}

/// Appends the traffic mode of the message that is answered, if it has one.
fn push_mode(body: &mut ArrayVec<u8, 64>, parameters: &[u8])
    requires { array_vec_len body.old + 8 ≤ 64 }
    ensures items { (ps : List Parameter) → AreParameters parameters.now ps
        → body.new.items ≡ body.old.items ++ all_padded (same_mode (value_of TRAFFIC_MODE ps)) }
    ensures len { array_vec_len body.new ≤ array_vec_len body.old + 8 }
{
    match find(parameters, tag::TRAFFIC_MODE) {
        None => {}
        Some(value) => {
            if value.len() >= 4 {
                push_number(body, tag::TRAFFIC_MODE, number_4(value, 0));
            }
        }
    }
}

/// ASPUP ACK, ASPDN ACK.
fn bare(kind: Kind, octets: &mut ArrayVec<u8, 4160>)
    ensures { octets.new.items ≡ octets_of kind [] }
{
    encode(kind, &[], octets);
}

/// ASPAC ACK.
fn active_ack(context: u32, parameters: &[u8], octets: &mut ArrayVec<u8, 4160>)
    ensures { (ps : List Parameter) → AreParameters parameters.now ps
        → octets.new.items ≡ octets_of kind.ActiveAck (same_mode (value_of TRAFFIC_MODE ps) ++ own_context context (value_of ROUTING_CONTEXT ps)) }
{
    let mut body = ArrayVec::new();
    push_mode(&mut body, parameters);
    push_context(&mut body, context, parameters);
    encode(Kind::ActiveAck, body.as_slice(), octets);
}

/// ASPIA ACK.
fn inactive_ack(context: u32, parameters: &[u8], octets: &mut ArrayVec<u8, 4160>)
    ensures { (ps : List Parameter) → AreParameters parameters.now ps
        → octets.new.items ≡ octets_of kind.InactiveAck (own_context context (value_of ROUTING_CONTEXT ps)) }
{
    let mut body = ArrayVec::new();
    push_context(&mut body, context, parameters);
    encode(Kind::InactiveAck, body.as_slice(), octets);
}

/// A message with two parameters, each one number.
fn two_numbers(
    kind: Kind,
    first: u16,
    one: u32,
    second: u16,
    two: u32,
    octets: &mut ArrayVec<u8, 4160>,
)
    ensures { octets.new.items ≡ octets_of kind (number first one ∷ number second two ∷ []) }
{
    let mut body: ArrayVec<u8, 64> = ArrayVec::new();
    push_number(&mut body, first, one);
    push_number(&mut body, second, two);
    encode(kind, body.as_slice(), octets);
}

/// NTFY of the AS's state.
fn notify(server: Server, context: u32, octets: &mut ArrayVec<u8, 4160>)
    ensures { octets.new.items ≡ octets_of kind.Notify (number STATUS (status_of server) ∷ number ROUTING_CONTEXT context ∷ []) }
{
    two_numbers(
        Kind::Notify,
        tag::STATUS,
        status_of(server),
        tag::ROUTING_CONTEXT,
        context,
        octets,
    );
}

/// ERR with a code only.
fn bare_error(code: u32, octets: &mut ArrayVec<u8, 4160>)
    ensures { octets.new.items ≡ octets_of kind.Error (number ERROR_CODE code ∷ []) }
{
    let mut body: ArrayVec<u8, 64> = ArrayVec::new();
    push_number(&mut body, tag::ERROR_CODE, code);
    encode(Kind::Error, body.as_slice(), octets);
}

/// ERR with a code, and another parameter.
fn error_with(code: u32, tag: u16, value: &[u8], octets: &mut ArrayVec<u8, 4160>)
    requires { length value.now ≤ 4096 }
    ensures { octets.new.items ≡ octets_of kind.Error (number ERROR_CODE code ∷ record { tag = tag; value = value.now } ∷ []) }
{
    let mut body: ArrayVec<u8, 4120> = ArrayVec::new();
    push_number(&mut body, tag::ERROR_CODE, code);
    push_parameter(&mut body, tag, value);
    encode(Kind::Error, body.as_slice(), octets);
}

/// BEAT ACK, with the parameters of the message.
fn beat_ack(heard: &[u8], octets: &mut ArrayVec<u8, 4160>)
    requires { length heard.now ≤ 4096 }
    ensures { octets.new.items ≡ beat_octets heard.now }
{
    let mut body: ArrayVec<u8, 4120> = ArrayVec::new();
    push_parameters(&mut body, parameters_of(heard));
    encode(Kind::BeatAck, body.as_slice(), octets);
}

/// ERR of an invalid routing context, with those that aren't ours among these.
fn invalid_among(context: u32, contexts: &[u8], octets: &mut ArrayVec<u8, 4160>)
    requires { length contexts.now ≤ 4088 }
    ensures { octets.new.items ≡ octets_of kind.Error (number ERROR_CODE 0x19 ∷ numbers ROUTING_CONTEXT (others_in context (Some contexts.now))) }
{
    let mut others: ArrayVec<u8, 4096> = ArrayVec::new();
    push_others(&mut others, context, contexts);
    if others.is_empty() {
        bare_error(INVALID_CONTEXT, octets);
    } else {
        error_with(
            INVALID_CONTEXT,
            tag::ROUTING_CONTEXT,
            others.as_slice(),
            octets,
        );
    }
}

/// ERR of an invalid routing context, with those of the message that aren't ours.
fn invalid_context(context: u32, parameters: &[u8], octets: &mut ArrayVec<u8, 4160>)
    requires { length parameters.now ≤ 4088 }
    ensures { (ps : List Parameter) → AreParameters parameters.now ps
        → octets.new.items ≡ octets_of kind.Error (number ERROR_CODE 0x19 ∷ numbers ROUTING_CONTEXT (others_in context (value_of ROUTING_CONTEXT ps))) }
{
    match find(parameters, tag::ROUTING_CONTEXT) {
        None => bare_error(INVALID_CONTEXT, octets),
        Some(value) => {
            if value.len() <= MOST_VALUE {
                invalid_among(context, value, octets);
            } else {
                bare_error(INVALID_CONTEXT, octets);
            }
        }
    }
}

/// ERR of an unexpected message, with the routing contexts of the message.
fn unexpected(parameters: &[u8], octets: &mut ArrayVec<u8, 4160>)
    requires { length parameters.now ≤ 4088 }
    ensures { (ps : List Parameter) → AreParameters parameters.now ps
        → octets.new.items ≡ octets_of kind.Error (number ERROR_CODE 0x06 ∷ same_value ROUTING_CONTEXT (value_of ROUTING_CONTEXT ps)) }
{
    match find(parameters, tag::ROUTING_CONTEXT) {
        None => bare_error(UNEXPECTED, octets),
        Some(value) => {
            if value.len() <= MOST_VALUE {
                error_with(UNEXPECTED, tag::ROUTING_CONTEXT, value, octets);
            } else {
                bare_error(UNEXPECTED, octets);
            }
        }
    }
}

/// ERR, with the routing contexts of the message that the code speaks of.
fn error(code: u32, context: u32, heard: &[u8], octets: &mut ArrayVec<u8, 4160>)
    requires { length heard.now ≤ 4096 }
    ensures { (ps : List Parameter) → (has_contexts code ≡ true → AreParameters (body heard.now) ps)
        → octets.new.items ≡ octets_of kind.Error (number ERROR_CODE code ∷ of_error context code ps) }
{
    if code == INVALID_CONTEXT {
        invalid_context(context, parameters_of(heard), octets);
    } else if code == UNEXPECTED {
        unexpected(parameters_of(heard), octets);
    } else {
        bare_error(code, octets);
    }
}

/// At most the first 40 octets.
fn beginning(octets: &[u8]) -> &[u8]
    ensures value { result.now ≡ take 40 octets.now }
    ensures within { length result.now ≤ 40 }
{
    if octets.len() <= 40 {
        octets
    } else {
        octets.split_at(40).0
    }
}

/// Whether ERR with this code has the beginning of the message.
fn is_diagnosed(code: u32) -> bool
    ensures { result ≡ is_diagnosed code }
{
    code == 0x03 || code == 0x04
}

/// ERR of octets that are no message.
fn refuse(code: u32, heard: &[u8], octets: &mut ArrayVec<u8, 4160>)
    ensures { octets.new.items ≡ octets_of kind.Error (number ERROR_CODE code ∷ diagnostic code heard.now) }
{
    if is_diagnosed(code) {
        error_with(code, tag::DIAGNOSTIC, beginning(heard), octets);
    } else {
        bare_error(code, octets);
    }
}

/// Replaces `octets` by the acknowledgement that an action sends, if it sends one.
fn acknowledge(action: Action, context: u32, heard: &[u8], octets: &mut ArrayVec<u8, 4160>) -> bool
    requires { length heard.now ≤ 4096 }
    ensures { (ps : List Parameter) → AreRead action heard.now ps → sent result octets.new.items ≡ acknowledgement context heard.now action ps }
{
    match action {
        Action::UpAck => {
            bare(Kind::UpAck, octets);
            true
        }
        Action::DownAck => {
            bare(Kind::DownAck, octets);
            true
        }
        Action::BeatAck => {
            beat_ack(heard, octets);
            true
        }
        Action::ActiveAck => {
            active_ack(context, parameters_of(heard), octets);
            true
        }
        Action::InactiveAck => {
            inactive_ack(context, parameters_of(heard), octets);
            true
        }
        Action::Notify(_) => false,
        Action::Error(_) => false,
        Action::Refuse => false,
        Action::Registered => false,
        Action::Destinations => false,
        Action::Audited => false,
        Action::Take => false,
        Action::Count => false,
        Action::Release => false,
        Action::Lose => false,
    }
}

/// Replaces `octets` by the message that an action sends, if it sends one message. It answers the octets that were
/// heard, or reports `code` where they are no message. Says whether it sends one.
pub fn answer(
    action: Action,
    context: u32,
    code: u32,
    heard: &[u8],
    octets: &mut ArrayVec<u8, 4160>,
) -> bool
    requires { length heard.now ≤ 4096 }
    ensures { (ps : List Parameter) → AreRead action heard.now ps → sent result octets.new.items ≡ answer context code heard.now action ps }
{
    match action {
        Action::Notify(server) => {
            notify(server, context, octets);
            true
        }
        Action::Error(number) => {
            error(number, context, heard, octets);
            true
        }
        Action::Refuse => {
            refuse(code, heard, octets);
            true
        }
        Action::UpAck => acknowledge(action, context, heard, octets),
        Action::DownAck => acknowledge(action, context, heard, octets),
        Action::BeatAck => acknowledge(action, context, heard, octets),
        Action::ActiveAck => acknowledge(action, context, heard, octets),
        Action::InactiveAck => acknowledge(action, context, heard, octets),
        Action::Registered => false,
        Action::Destinations => false,
        Action::Audited => false,
        Action::Take => false,
        Action::Count => false,
        Action::Release => false,
        Action::Lose => false,
    }
}

/// Replaces `octets` by DAVA of a point code if it is available, by DUNA otherwise.
pub fn destination(context: u32, available: bool, affected: u32, octets: &mut ArrayVec<u8, 4160>)
    ensures { octets.new.items ≡ destination_octets context available affected }
{
    if available {
        two_numbers(
            Kind::Dava,
            tag::ROUTING_CONTEXT,
            context,
            tag::AFFECTED,
            affected,
            octets,
        );
    } else {
        two_numbers(
            Kind::Duna,
            tag::ROUTING_CONTEXT,
            context,
            tag::AFFECTED,
            affected,
            octets,
        );
    }
}

/// DATA with this protocol data.
fn data_of(context: u32, p: &ProtocolData<'_>, octets: &mut ArrayVec<u8, 4160>)
    requires { length p.now.user_data.now ≤ 272 }
    ensures { octets.new.items ≡ data_octets context (view p.now) }
{
    let mut body: ArrayVec<u8, 320> = ArrayVec::new();
    push_number(&mut body, tag::ROUTING_CONTEXT, context);
    push_protocol_data(&mut body, p);
    encode(Kind::Data, body.as_slice(), octets);
}

/// Replaces `octets` by DATA that carries a message, if it has a label. Says whether it has.
pub fn data(context: u32, msu: &Msu, octets: &mut ArrayVec<u8, 4160>) -> bool
    ensures { sent result octets.new.items ≡ option_map (data_octets context) (protocol_of msu.now) }
{
    let field = msu.sif.as_slice();
    if field.len() < 4 {
        return false;
    }
    match protocol_data_of(msu) {
        None => false,
        Some(p) => {
            data_of(context, &p, octets);
            true
        }
    }
}
