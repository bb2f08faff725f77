//! The printed form of items.

use m3ua_frames::{Frame, Heard, Kind, ProtocolData, decode, find, message_of, protocol_data, tag};
use m3ua_gateway::{Asp, Gateway, Server};
use resend_store::Msu;
use std::alloc::AllocError;

/// The tags whose values are shown.
const SHOWN: [u16; 19] = [
    tag::INFO_STRING,
    tag::ROUTING_CONTEXT,
    tag::DIAGNOSTIC,
    tag::HEARTBEAT,
    tag::TRAFFIC_MODE,
    tag::ERROR_CODE,
    tag::STATUS,
    tag::ASP_IDENTIFIER,
    tag::AFFECTED,
    tag::CORRELATION,
    tag::NETWORK,
    tag::USER_CAUSE,
    tag::CONGESTION,
    tag::CONCERNED,
    tag::ROUTING_KEY,
    tag::REGISTRATION,
    tag::DEREGISTRATION,
    tag::LOCAL_KEY,
    tag::PROTOCOL_DATA,
];

/// The name of a message in RFC 4666.
fn name_of(kind: Kind) -> &'static str {
    match kind {
        Kind::Error => "ERR",
        Kind::Notify => "NTFY",
        Kind::Data => "DATA",
        Kind::Duna => "DUNA",
        Kind::Dava => "DAVA",
        Kind::Daud => "DAUD",
        Kind::Scon => "SCON",
        Kind::Dupu => "DUPU",
        Kind::Drst => "DRST",
        Kind::Up => "ASPUP",
        Kind::Down => "ASPDN",
        Kind::Beat => "BEAT",
        Kind::UpAck => "ASPUP ACK",
        Kind::DownAck => "ASPDN ACK",
        Kind::BeatAck => "BEAT ACK",
        Kind::Active => "ASPAC",
        Kind::Inactive => "ASPIA",
        Kind::ActiveAck => "ASPAC ACK",
        Kind::InactiveAck => "ASPIA ACK",
        Kind::Register => "REG REQ",
        Kind::Registered => "REG RSP",
        Kind::Deregister => "DEREG REQ",
        Kind::Deregistered => "DEREG RSP",
    }
}

/// Writes octets in hexadecimal digits.
fn write_octets(text: &mut String, octets: &[u8]) -> Result<(), AllocError> {
    for octet in octets {
        write!(text, "{octet:02X}")?;
    }
    Ok(())
}

/// Writes the MTP message of protocol data.
fn write_message(text: &mut String, p: &ProtocolData<'_>) -> Result<(), AllocError> {
    match message_of(p) {
        None => text.push_str(" no message\n"),
        Some(msu) => {
            let sio = msu.sio;
            write!(text, " {sio:02X}")?;
            write_octets(text, msu.sif.as_slice())?;
            text.push_str("\n")
        }
    }
}

/// Writes protocol data.
fn write_protocol(text: &mut String, p: &ProtocolData<'_>) -> Result<(), AllocError> {
    let (opc, dpc, si, ni, mp, sls) = (p.opc, p.dpc, p.si, p.ni, p.mp, p.sls);
    let octets = p.user_data.len();
    write!(
        text,
        "  opc {opc} dpc {dpc} si {si} ni {ni} mp {mp} sls {sls} octets {octets}"
    )?;
    write_message(text, p)
}

/// Writes the value of a parameter, if it is there.
fn write_parameter(text: &mut String, parameters: &[u8], tag: u16) -> Result<(), AllocError> {
    match find(parameters, tag) {
        None => Ok(()),
        Some(value) => {
            write!(text, " {tag:x}=")?;
            write_octets(text, value)
        }
    }
}

/// Writes a message.
fn write_frame(text: &mut String, frame: &Frame<'_>) -> Result<(), AllocError> {
    text.push_str(name_of(frame.kind))?;
    for tag in SHOWN {
        write_parameter(text, frame.parameters, tag)?;
    }
    text.push_str("\n")
}

/// Writes the protocol data of DATA.
fn write_data(text: &mut String, frame: &Frame<'_>) -> Result<(), AllocError> {
    if frame.kind != Kind::Data {
        return Ok(());
    }
    let Some(value) = find(frame.parameters, tag::PROTOCOL_DATA) else {
        return Ok(());
    };
    match protocol_data(value) {
        None => Ok(()),
        Some(p) => write_protocol(text, &p),
    }
}

/// Writes a message, or why octets are no message.
fn write_decoded(text: &mut String, octets: &[u8]) -> Result<(), AllocError> {
    match decode(octets) {
        Ok(frame) => {
            write_frame(text, &frame)?;
            write_data(text, &frame)
        }
        Err(fault) => {
            let code = fault.code();
            writeln!(text, "refused 0x{code:02x}")
        }
    }
}

/// Shows an item.
pub fn show(text: &mut String, heard: Heard, octets: &[u8]) -> Result<(), AllocError> {
    match heard {
        Heard::Nothing => Ok(()),
        Heard::Message => write_decoded(text, octets),
        Heard::TooLong => text.push_str("too long\n"),
        Heard::Broken => text.push_str("broken\n"),
    }
}

/// Shows an item of the ASP.
pub fn show_heard(text: &mut String, heard: Heard, octets: &[u8]) -> Result<(), AllocError> {
    text.push_str("asp ")?;
    show(text, heard, octets)
}

/// Shows a message that the gateway sends, and its octets.
pub fn show_sent(text: &mut String, octets: &[u8]) -> Result<(), AllocError> {
    text.push_str("gateway ")?;
    write_decoded(text, octets)?;
    text.push_str("  ")?;
    write_octets(text, octets)?;
    text.push_str("\n")
}

/// Shows what becomes of a message: a word, and its octets.
pub fn show_message(
    text: &mut String,
    word: &str,
    message: Option<&Msu>,
) -> Result<(), AllocError> {
    match message {
        None => text.push_str("none\n"),
        Some(msu) => {
            let sio = msu.sio;
            text.push_str(word)?;
            write!(text, "{sio:02X}")?;
            write_octets(text, msu.sif.as_slice())?;
            text.push_str("\n")
        }
    }
}

/// The name of a state of the ASP (RFC 4666, 4.3.1).
fn asp_name(asp: Asp) -> &'static str {
    match asp {
        Asp::Down => "ASP-DOWN",
        Asp::Inactive => "ASP-INACTIVE",
        Asp::Active => "ASP-ACTIVE",
    }
}

/// The name of a state of the AS (RFC 4666, 4.3.2).
fn server_name(server: Server) -> &'static str {
    match server {
        Server::Down => "AS-DOWN",
        Server::Inactive => "AS-INACTIVE",
        Server::Active => "AS-ACTIVE",
        Server::Pending => "AS-PENDING",
    }
}

/// Shows the state of a gateway, and how many messages it holds, lost and refused.
pub fn show_state(text: &mut String, gateway: &Gateway) -> Result<(), AllocError> {
    let (asp, server) = (gateway.state().asp(), gateway.state().server());
    let (kept, lost) = (gateway.kept(), gateway.lost());
    let (waiting, refused) = (gateway.waiting(), gateway.refused());
    text.push_str(asp_name(asp))?;
    text.push_str(" ")?;
    text.push_str(server_name(server))?;
    writeln!(
        text,
        " kept {kept} lost {lost} waiting {waiting} refused {refused}"
    )
}
