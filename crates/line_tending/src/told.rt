//! The reports of a set.
ghost use Rattle.std.specs.Prelude.{Some};
ghost use Rattle.std.specs.List.{flat_map};
ghost use Rattle.line_tending.specs.Texts.{kind_text, octet_text, message_text, link_text, table_text, told_text};

use group_changeover::Kind;
use resend_store::Msu;
use std::fmt;

/// The link of each selection.
pub type SharedOut = [Option<usize>; 16];

/// The links of selections, in the answer to a question.
#[derive(Clone, Copy, Debug, PartialEq, Eq)]
pub struct Table(pub SharedOut);

/// A report of a set.
#[derive(Debug, Drop, PartialEq, Eq)]
pub enum Told {
    /// A link came into service.
    InService(usize),
    /// A link went down, with its process's number for the reason.
    Down(usize, i32),
    /// The processor at the link's far end is out.
    FarOut(usize),
    /// The processor at the link's far end is back.
    FarBack(usize),
    /// A message for level 3 came by a link.
    Message(usize, Msu),
    /// A link was started.
    Started(usize),
    /// A link's changeover began.
    Changeover(usize),
    /// A changeover message about the first link was sent by the last one.
    Says(usize, Kind, usize),
    /// A changeover message about the first link was received on the last one.
    Hears(usize, Kind, usize),
    /// Messages of a link, so many, may or may not have arrived.
    Unsure(usize, usize),
    /// Messages of a link, so many, were diverted to other links, or back to it.
    Diverted(usize, usize),
    /// A link was tested, and is admitted.
    Tested(usize),
    /// A message that this end sent by a link was received on it.
    Looped(usize),
    /// Selections have new links.
    Shared(SharedOut),
    /// The reader of messages is away.
    ReaderAway,
    /// The reader of messages is back.
    ReaderBack,
}

/// A kind of changeover message, as it is printed.
#[derive(Clone, Copy)]
struct Named(Kind);

impl fmt::Display for Named {
    ghost output = { λ named. Some (kind_text named.0) };

    fn fmt<W: fmt::Write>(&self, f: &mut fmt::Formatter<W>) -> fmt::Result {
        match self.0 {
            Kind::Order(accepted) => write!(f, "COO {accepted}"),
            Kind::Acknowledgement(accepted) => write!(f, "COA {accepted}"),
            Kind::EmergencyOrder => f.write_str("ECO"),
            Kind::EmergencyAcknowledgement => f.write_str("ECA"),
        }
    }
}

/// An octet as two hexadecimal digits in capitals.
#[derive(Clone, Copy)]
struct Octet(u8);

impl fmt::Display for Octet {
    ghost output = { λ octet. Some (octet_text octet.0) };

    fn fmt<W: fmt::Write>(&self, f: &mut fmt::Formatter<W>) -> fmt::Result {
        let octet = self.0;
        write!(f, "{octet:02X}")
    }
}

/// Octets in hexadecimal, one after another.
#[derive(Clone, Copy)]
struct Octets<'a>(&'a [u8]);

impl fmt::Display for Octets<'_> {
    ghost output = { λ octets. Some (flat_map octet_text octets.0.now) };

    fn fmt<W: fmt::Write>(&self, f: &mut fmt::Formatter<W>) -> fmt::Result {
        for octet in self.0 {
            let octet = Octet(*octet);
            write!(f, "{octet}")?;
        }
        Ok(())
    }
}

/// A message in hexadecimal digits, its service information octet first.
#[derive(Clone, Copy)]
struct Digits<'a>(&'a Msu);

impl fmt::Display for Digits<'_> {
    ghost output = { λ digits. Some (message_text digits.0.now) };

    fn fmt<W: fmt::Write>(&self, f: &mut fmt::Formatter<W>) -> fmt::Result {
        let sio = Octet(self.0.sio);
        let octets = Octets(self.0.sif.as_slice());
        write!(f, "{sio}{octets}")
    }
}

/// The link of a selection, as it is printed.
#[derive(Clone, Copy)]
struct LinkOf(Option<usize>);

impl fmt::Display for LinkOf {
    ghost output = { λ of. Some (link_text of.0) };

    fn fmt<W: fmt::Write>(&self, f: &mut fmt::Formatter<W>) -> fmt::Result {
        match self.0 {
            Some(link) => write!(f, " {link}"),
            None => f.write_str(" -"),
        }
    }
}

/// The links of selections, from selection 0 on.
#[derive(Clone, Copy)]
struct Links<'a>(&'a [Option<usize>]);

impl fmt::Display for Links<'_> {
    ghost output = { λ links. Some (flat_map link_text links.0.now) };

    fn fmt<W: fmt::Write>(&self, f: &mut fmt::Formatter<W>) -> fmt::Result {
        for link in self.0 {
            let link = LinkOf(*link);
            write!(f, "{link}")?;
        }
        Ok(())
    }
}

impl fmt::Display for Table {
    ghost output = { λ table. Some (table_text table.0) };

    fn fmt<W: fmt::Write>(&self, f: &mut fmt::Formatter<W>) -> fmt::Result {
        let links = Links(self.0.as_slice());
        write!(f, "table{links}")
    }
}

impl fmt::Display for Told {
    ghost output = { λ told. Some (told_text told) };

    fn fmt<W: fmt::Write>(&self, f: &mut fmt::Formatter<W>) -> fmt::Result {
        match self {
            Told::InService(link) => write!(f, "{link} in service"),
            Told::Down(link, reason) => write!(f, "{link} down {reason}"),
            Told::FarOut(link) => write!(f, "{link} far out"),
            Told::FarBack(link) => write!(f, "{link} far back"),
            Told::Message(link, msu) => {
                let digits = Digits(msu);
                write!(f, "{link} message {digits}")
            }
            Told::Started(link) => write!(f, "{link} started"),
            Told::Changeover(link) => write!(f, "{link} changeover"),
            Told::Says(link, kind, by) => {
                let named = Named(*kind);
                write!(f, "{link} says {named} by {by}")
            }
            Told::Hears(link, kind, by) => {
                let named = Named(*kind);
                write!(f, "{link} hears {named} by {by}")
            }
            Told::Unsure(link, count) => write!(f, "{link} unsure {count}"),
            Told::Diverted(link, count) => write!(f, "{link} diverted {count}"),
            Told::Tested(link) => write!(f, "{link} tested"),
            Told::Looped(link) => write!(f, "{link} looped"),
            Told::Shared(shared) => {
                let links = Links(shared.as_slice());
                write!(f, "shared{links}")
            }
            Told::ReaderAway => f.write_str("reader away"),
            Told::ReaderBack => f.write_str("reader back"),
        }
    }
}
