//! What a message of the ASP is.
ghost use Rattle.std.specs.Prelude.{◌≡◌, ◌&&◌, nat_le, List, Some, if◌then◌else◌};
ghost use Rattle.m3ua_frames.specs.Parameters.{Parameter, AreParameters, value_of};
ghost use Rattle.m3ua_frames.specs.Tags.{TRAFFIC_MODE, PROTOCOL_DATA};
ghost use Rattle.m3ua_gateway.specs.Hearing.{is_mode, is_long, IsCarriedBy, data_by, happening_by};
ghost use Rattle.m3ua_gateway.specs.declared.table.Happening.TheVariants.{Active, ActiveWithOthers, Inactive, InactiveWithOthers, OtherMode, Stray, StrayData};

use crate::contexts::{has_others, has_ours};
use crate::table::Happening;
use m3ua_frames::{Frame, Kind, find, message_of, number_4, protocol_data, tag};
use resend_store::Msu;

/// What the octets of a message ask of a gateway.
#[derive(Drop)]
pub struct Request {
    /// What it is in the table.
    pub happening: Happening,
    /// The MTP message for level 4 that its protocol data carries, if it carries one.
    pub message: Option<Msu>,
    /// The code of what is wrong with octets that are no message, 0 otherwise.
    pub code: u32,
}

/// Whether a traffic mode is override, loadshare or broadcast.
fn is_known(mode: u32) -> bool
    ensures { result ≡ (nat_le 1 mode && nat_le mode 3) }
{
    1 <= mode && mode <= 3
}

/// Whether there is no traffic mode, or one of three (RFC 4666, 3.7.1).
fn is_mode(parameters: &[u8]) -> bool
    ensures { (ps : List Parameter) → AreParameters parameters.now ps → result ≡ is_mode (value_of TRAFFIC_MODE ps) }
{
    match find(parameters, tag::TRAFFIC_MODE) {
        None => true,
        Some(value) => value.len() >= 4 && is_known(number_4(value, 0)),
    }
}

/// The MTP message for level 4 that octets of protocol data carry, if they carry one.
fn carried_by(value: &[u8]) -> Option<Msu>
    ensures { IsCarriedBy (Some value.now) result }
{
    match protocol_data(value) {
        None => None,
        Some(p) => {
            if p.si < 3 {
                return None;
            }
            message_of(&p)
        }
    }
}

/// The MTP message for level 4 that protocol data among parameters carries, if it carries one.
fn carried(parameters: &[u8]) -> Option<Msu>
    ensures { (ps : List Parameter) → AreParameters parameters.now ps → IsCarriedBy (value_of PROTOCOL_DATA ps) result }
{
    match find(parameters, tag::PROTOCOL_DATA) {
        None => None,
        Some(value) => carried_by(value),
    }
}

/// Whether protocol data among parameters has more than 268 octets of user data.
fn is_long(parameters: &[u8]) -> bool
    ensures { (ps : List Parameter) → AreParameters parameters.now ps → result ≡ is_long (value_of PROTOCOL_DATA ps) }
{
    match find(parameters, tag::PROTOCOL_DATA) {
        None => false,
        Some(value) => value.len() > 280,
    }
}

/// What ASPAC is.
fn active_by(ours: bool, mode: bool, others: bool) -> Happening
    ensures { result ≡ (if ours then (if mode then (if others then ActiveWithOthers else Active) else OtherMode) else Stray) }
{
    if !ours {
        Happening::Stray
    } else if !mode {
        Happening::OtherMode
    } else if others {
        Happening::ActiveWithOthers
    } else {
        Happening::Active
    }
}

/// What ASPIA is.
fn inactive_by(ours: bool, others: bool) -> Happening
    ensures { result ≡ (if ours then (if others then InactiveWithOthers else Inactive) else Stray) }
{
    if !ours {
        Happening::Stray
    } else if others {
        Happening::InactiveWithOthers
    } else {
        Happening::Inactive
    }
}

/// What DAUD or SCON is, which is this if all its routing contexts are ours.
fn unless_stray(others: bool, happening: Happening) -> Happening
    ensures { result ≡ (if others then Stray else happening) }
{
    if others { Happening::Stray } else { happening }
}

/// What DATA with our routing context is, with this message.
fn data_by(message: &Option<Msu>, long: bool) -> Happening
    ensures { result ≡ data_by long message.now }
{
    match message {
        Some(_) => Happening::Data,
        None => {
            if long {
                Happening::LongData
            } else {
                Happening::OtherData
            }
        }
    }
}

/// What DATA is, with this message.
fn data_unless_stray(others: bool, message: &Option<Msu>, long: bool) -> Happening
    ensures { result ≡ (if others then StrayData else data_by long message.now) }
{
    if others {
        Happening::StrayData
    } else {
        data_by(message, long)
    }
}

/// What a message of the ASP is to a gateway with this routing context.
pub(crate) fn hear(frame: &Frame<'_>, context: u32) -> Request
    ensures what { (ps : List Parameter) → AreParameters frame.now.parameters.now ps
        → result.happening ≡ happening_by context frame.now.kind ps result.message }
    ensures message { (ps : List Parameter) → AreParameters frame.now.parameters.now ps
        → IsCarriedBy (value_of PROTOCOL_DATA ps) result.message }
{
    let message = carried(frame.parameters);
    let ours = has_ours(context, frame.parameters);
    let others = has_others(context, frame.parameters);
    let mode = is_mode(frame.parameters);
    let long = is_long(frame.parameters);
    let happening = match frame.kind {
        Kind::Error => Happening::Error,
        Kind::Data => data_unless_stray(others, &message, long),
        Kind::Daud => unless_stray(others, Happening::Audit),
        Kind::Scon => unless_stray(others, Happening::Congestion),
        Kind::Up => Happening::Up,
        Kind::Down => Happening::Down,
        Kind::Beat => Happening::Beat,
        Kind::Active => active_by(ours, mode, others),
        Kind::Inactive => inactive_by(ours, others),
        Kind::Register => Happening::Register,
        Kind::Notify | Kind::Duna | Kind::Dava | Kind::Dupu | Kind::Drst => Happening::Other,
        Kind::UpAck | Kind::DownAck | Kind::BeatAck | Kind::ActiveAck => Happening::Other,
        Kind::InactiveAck | Kind::Registered | Kind::Deregister => Happening::Other,
        Kind::Deregistered => Happening::Other,
    };
    Request {
        happening,
        message,
        code: 0,
    }
}
