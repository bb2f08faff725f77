//! The three kinds of signal unit.
ghost use Rattle.std.specs.Prelude.{◌≡◌, ◌↔◌, ◌%◌, IsTrue, length, slice_get, Some};
ghost use Rattle.su_octets.specs.Frame.{head_of, body_of, status_code_of};
ghost use Rattle.su_octets.specs.Printed.{head_text, octet_text, unit_text, fault_text};
ghost use Rattle.su_octets.specs.StatusNames.{STATUS_NAMES};
ghost use Rattle.su_octets.specs.Whole.{IsWhole, IsWholeHead};

use arrayvec::ArrayVec;
use std::fmt;
use thiserror::Error;

/// The sequence numbers and indicator bits at the start of every signal unit (Q.703, 2.3).
#[derive(Clone, Copy, Debug, PartialEq, Eq)]
pub struct Head {
    /// The backward sequence number, 0 to 127.
    pub bsn: u8,
    /// The backward indicator bit, 0 or 1.
    pub bib: u8,
    /// The forward sequence number, 0 to 127.
    pub fsn: u8,
    /// The forward indicator bit, 0 or 1.
    pub fib: u8,
}

/// A signal unit without its flags and check octets (Q.703, 2.2).
#[derive(Debug, Drop, PartialEq, Eq)]
pub enum Unit {
    /// A fill-in signal unit.
    Fisu(Head),
    /// A link status signal unit: the first octet of the status field, whose low three bits are the
    /// status code, and the second octet if the field has two.
    Lssu(Head, u8, Option<u8>),
    /// A message signal unit: the service information octet and the signalling information field,
    /// of 2 to 272 octets.
    Msu(Head, u8, ArrayVec<u8, 272>),
}

/// Why octets are no signal unit.
#[derive(Clone, Copy, Debug, Drop, Error, PartialEq, Eq)]
pub enum UnitFault {
    /// There are fewer than 5 octets.
    TooShort,
    /// There are more than 278 octets.
    TooLong,
    /// The check octets aren't those of the content.
    BadCheck,
    /// The length indicator isn't the number of octets between it and the check octets, or 63 if
    /// there are 63 or more.
    BadLength,
}

impl Head {
    /// Whether the sequence numbers have seven bits and the indicator bits one.
    pub fn whole(&self) -> bool
        ensures { IsTrue result ↔ IsWholeHead self.now }
    {
        self.bsn < 128 && self.bib < 2 && self.fsn < 128 && self.fib < 2
    }
}

impl Unit {
    /// Whether the unit is in the ranges that `encode` needs: those of its head, and 2 octets or more
    /// in the signalling information field of a message signal unit.
    pub fn whole(&self) -> bool
        ensures { IsTrue result ↔ IsWhole self.now }
    {
        match self {
            Unit::Fisu(head) => head.whole(),
            Unit::Lssu(head, _, _) => head.whole(),
            Unit::Msu(head, _, sif) => head.whole() && sif.len() >= 2,
        }
    }

    /// The sequence numbers and indicator bits.
    pub fn head(&self) -> Head
        ensures { result ≡ head_of self.now }
    {
        match self {
            Unit::Fisu(head) => *head,
            Unit::Lssu(head, _, _) => *head,
            Unit::Msu(head, _, _) => *head,
        }
    }

    /// The status code of a link status signal unit, the low three bits of its status field
    /// (Q.703, 11.1.3): 0 SIO, 1 SIN, 2 SIE, 3 SIOS, 4 SIPO, 5 SIB, 6 and 7 without a name.
    pub fn status_code(&self) -> Option<u8>
        ensures { result ≡ status_code_of self.now }
    {
        match self {
            Unit::Lssu(_, status, _) => Some(*status % 8),
            _ => None,
        }
    }

    /// The number of octets between the length indicator and the check octets.
    pub fn body_len(&self) -> usize
        ensures { result ≡ length (body_of self.now) }
    {
        match self {
            Unit::Fisu(_) => 0,
            Unit::Lssu(_, _, None) => 1,
            Unit::Lssu(_, _, Some(_)) => 2,
            Unit::Msu(_, _, sif) => sif.len() + 1,
        }
    }
}

/// The name of a status indication by its code, the low three bits of `status` (Q.703, 11.1.3). Codes 6
/// and 7 have no name: for them it is the digit.
pub fn status_name(status: u8) -> &'static str
    ensures { slice_get STATUS_NAMES (status % 8) ≡ Some result.now }
{
    match status % 8 {
        0 => "SIO",
        1 => "SIN",
        2 => "SIE",
        3 => "SIOS",
        4 => "SIPO",
        5 => "SIB",
        6 => "6",
        _ => "7",
    }
}

impl fmt::Display for Head {
    ghost output = { λ head. Some (head_text head) };

    fn fmt<W: fmt::Write>(&self, f: &mut fmt::Formatter<W>) -> fmt::Result {
        let Head { bsn, bib, fsn, fib } = *self;
        write!(f, "bsn {bsn} bib {bib} fsn {fsn} fib {fib}")
    }
}

/// An octet as two hexadecimal digits in capitals.
#[derive(Clone, Copy)]
struct Octet(u8);

impl fmt::Display for Octet {
    ghost output = { λ octet. Some (octet_text octet.0) };

    fn fmt<W: fmt::Write>(&self, f: &mut fmt::Formatter<W>) -> fmt::Result {
        let octet = self.0;
        write!(f, "{octet:02X}")
    }
}

/// One line: the kind, the head, and then an LSSU's status or an MSU's service information octet and
/// the number of octets of its signalling information field.
impl fmt::Display for Unit {
    ghost output = { λ unit. Some (unit_text unit) };

    fn fmt<W: fmt::Write>(&self, f: &mut fmt::Formatter<W>) -> fmt::Result {
        match self {
            Unit::Fisu(head) => write!(f, "FISU {head}"),
            Unit::Lssu(head, status, _) => {
                let name = status_name(*status);
                write!(f, "LSSU {head} status {name}")
            }
            Unit::Msu(head, sio, sif) => {
                let sio = Octet(*sio);
                let octets = sif.len();
                write!(f, "MSU {head} sio {sio} octets {octets}")
            }
        }
    }
}

impl fmt::Display for UnitFault {
    ghost output = { λ fault. Some (fault_text fault) };

    fn fmt<W: fmt::Write>(&self, f: &mut fmt::Formatter<W>) -> fmt::Result {
        f.write_str(match self {
            UnitFault::TooShort => "U1 TooShort",
            UnitFault::TooLong => "U2 TooLong",
            UnitFault::BadCheck => "U3 BadCheck",
            UnitFault::BadLength => "U4 BadLength",
        })
    }
}
