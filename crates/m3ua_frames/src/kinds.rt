//! The messages of M3UA, by class and type.
ghost use Rattle.std.specs.Prelude.{◌≡◌};
ghost use Rattle.m3ua_frames.specs.Kinds.{class_of, type_of, kind_by, management, transfer, network, state, traffic, keys};

use crate::faults::Fault;

/// The kind of a message: its class and its type (RFC 4666, 3.1.2).
#[derive(Clone, Copy, Debug, PartialEq, Eq)]
pub enum Kind {
    /// ERR, Error.
    Error,
    /// NTFY, Notify.
    Notify,
    /// DATA, Payload Data.
    Data,
    /// DUNA, Destination Unavailable.
    Duna,
    /// DAVA, Destination Available.
    Dava,
    /// DAUD, Destination State Audit.
    Daud,
    /// SCON, Signalling Congestion.
    Scon,
    /// DUPU, Destination User Part Unavailable.
    Dupu,
    /// DRST, Destination Restricted.
    Drst,
    /// ASPUP, ASP Up.
    Up,
    /// ASPDN, ASP Down.
    Down,
    /// BEAT, Heartbeat.
    Beat,
    /// ASPUP ACK.
    UpAck,
    /// ASPDN ACK.
    DownAck,
    /// BEAT ACK.
    BeatAck,
    /// ASPAC, ASP Active.
    Active,
    /// ASPIA, ASP Inactive.
    Inactive,
    /// ASPAC ACK.
    ActiveAck,
    /// ASPIA ACK.
    InactiveAck,
    /// REG REQ, Registration Request.
    Register,
    /// REG RSP, Registration Response.
    Registered,
    /// DEREG REQ, Deregistration Request.
    Deregister,
    /// DEREG RSP, Deregistration Response.
    Deregistered,
}

impl Kind {
    /// The message class.
    pub fn class(self) -> u8
        ensures { result ≡ class_of self }
    {
        match self {
            Kind::Error | Kind::Notify => 0,
            Kind::Data => 1,
            Kind::Duna | Kind::Dava | Kind::Daud | Kind::Scon | Kind::Dupu | Kind::Drst => 2,
            Kind::Up | Kind::Down | Kind::Beat | Kind::UpAck | Kind::DownAck | Kind::BeatAck => 3,
            Kind::Active | Kind::Inactive | Kind::ActiveAck | Kind::InactiveAck => 4,
            Kind::Register | Kind::Registered | Kind::Deregister | Kind::Deregistered => 9,
        }
    }

    /// The message type.
    pub fn number(self) -> u8
        ensures { result ≡ type_of self }
    {
        match self {
            Kind::Error => 0,
            Kind::Notify | Kind::Data | Kind::Duna | Kind::Up | Kind::Active | Kind::Register => 1,
            Kind::Dava | Kind::Down | Kind::Inactive | Kind::Registered => 2,
            Kind::Daud | Kind::Beat | Kind::ActiveAck | Kind::Deregister => 3,
            Kind::Scon | Kind::UpAck | Kind::InactiveAck | Kind::Deregistered => 4,
            Kind::Dupu | Kind::DownAck => 5,
            Kind::Drst | Kind::BeatAck => 6,
        }
    }
}

fn management(number: u8) -> Result<Kind, Fault>
    ensures { result ≡ management number }
{
    match number {
        0 => Ok(Kind::Error),
        1 => Ok(Kind::Notify),
        _ => Err(Fault::UnknownType),
    }
}

fn transfer(number: u8) -> Result<Kind, Fault>
    ensures { result ≡ transfer number }
{
    match number {
        1 => Ok(Kind::Data),
        _ => Err(Fault::UnknownType),
    }
}

fn network(number: u8) -> Result<Kind, Fault>
    ensures { result ≡ network number }
{
    match number {
        1 => Ok(Kind::Duna),
        2 => Ok(Kind::Dava),
        3 => Ok(Kind::Daud),
        4 => Ok(Kind::Scon),
        5 => Ok(Kind::Dupu),
        6 => Ok(Kind::Drst),
        _ => Err(Fault::UnknownType),
    }
}

fn state(number: u8) -> Result<Kind, Fault>
    ensures { result ≡ state number }
{
    match number {
        1 => Ok(Kind::Up),
        2 => Ok(Kind::Down),
        3 => Ok(Kind::Beat),
        4 => Ok(Kind::UpAck),
        5 => Ok(Kind::DownAck),
        6 => Ok(Kind::BeatAck),
        _ => Err(Fault::UnknownType),
    }
}

fn traffic(number: u8) -> Result<Kind, Fault>
    ensures { result ≡ traffic number }
{
    match number {
        1 => Ok(Kind::Active),
        2 => Ok(Kind::Inactive),
        3 => Ok(Kind::ActiveAck),
        4 => Ok(Kind::InactiveAck),
        _ => Err(Fault::UnknownType),
    }
}

fn keys(number: u8) -> Result<Kind, Fault>
    ensures { result ≡ keys number }
{
    match number {
        1 => Ok(Kind::Register),
        2 => Ok(Kind::Registered),
        3 => Ok(Kind::Deregister),
        4 => Ok(Kind::Deregistered),
        _ => Err(Fault::UnknownType),
    }
}

/// The kind of this class and this type.
pub(crate) fn kind_of(class: u8, number: u8) -> Result<Kind, Fault>
    ensures { result ≡ kind_by class number }
{
    match class {
        0 => management(number),
        1 => transfer(number),
        2 => network(number),
        3 => state(number),
        4 => traffic(number),
        9 => keys(number),
        _ => Err(Fault::UnknownClass),
    }
}
