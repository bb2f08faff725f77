//! The life of a gateway, as the words of a line tell it.
ghost use Rattle.std.specs.Prelude.{◌≡◌, false};
ghost use Rattle.m3ua_gateway.specs.Asking.{is_data};

use crate::desk::{Desk, happens, hears};
use crate::reading::{number_of, octets_of};
use crate::shown::{show_message, show_state};
use arrayvec::ArrayVec;
use m3ua_frames::{Deframer, Heard};
use m3ua_gateway::{Delivery, Gateway, Happening, Request};
use resend_store::Msu;
use std::alloc::{AllocError, Global};

/// A gateway with the stream of its ASP.
#[derive(Drop)]
pub struct Life {
    gateway: Gateway,
    deframer: Deframer,
    desk: Desk,
}

/// What a word of a life says, with its argument.
#[derive(Clone, Copy)]
pub enum Verb {
    /// No word.
    Nothing,
    /// The routing context.
    Context,
    /// A destination.
    Destination,
    /// The destinations are reached (`on`) or not.
    Reach,
    /// A piece of the stream.
    Stream,
    /// A message as SCTP delivers it.
    Message,
    /// The set delivers a message.
    Deliver,
    /// The first message of a selection that waits.
    First,
    /// The set takes a message of a selection.
    Take,
    /// The set refuses a message of a selection.
    Refuse,
    /// The stream ends (`end`), or T(r) runs out.
    Happens,
    /// The state is shown.
    Show,
}

/// What a word says.
pub fn verb_of(word: &str) -> Verb {
    match word {
        "context" => Verb::Context,
        "destination" => Verb::Destination,
        "reach" => Verb::Reach,
        "m3ua" => Verb::Stream,
        "sctp" => Verb::Message,
        "set" => Verb::Deliver,
        "first" => Verb::First,
        "take" => Verb::Take,
        "drop" => Verb::Refuse,
        "happens" => Verb::Happens,
        "show" => Verb::Show,
        _ => Verb::Nothing,
    }
}

/// A request without a message of the ASP.
fn event(happening: Happening) -> Request
    requires { is_data happening ≡ false }
    ensures { is_data result.happening ≡ false }
{
    Request {
        happening,
        message: None,
        code: 0,
    }
}

/// The message of octets: its SIO, and its SIF.
fn message_in(octets: &[u8]) -> Option<Msu> {
    match octets {
        [sio, field @ ..] => {
            let mut sif = ArrayVec::new();
            if field.len() > 272 {
                return None;
            }
            sif.try_extend_from_slice(field).unwrap();
            Some(Msu { sio: *sio, sif })
        }
        _ => None,
    }
}

impl Life {
    /// A gateway whose ASP is down.
    pub fn new(alloc: Global) -> Result<Life, AllocError> {
        let gateway = Gateway::new(alloc)?;
        let desk = Desk::new(alloc);
        Ok(Life {
            gateway,
            deframer: Deframer::new(),
            desk,
        })
    }

    /// Something happens that is no message of the ASP.
    fn event(
        &mut self,
        alloc: Global,
        text: &mut String,
        happening: Happening,
    ) -> Result<(), AllocError>
        requires { is_data happening ≡ false }
    {
        happens(
            alloc,
            text,
            &mut self.gateway,
            &mut self.desk,
            event(happening),
            &[],
        )
    }

    /// The stream ends.
    fn end(&mut self, alloc: Global, text: &mut String) -> Result<(), AllocError> {
        self.deframer = Deframer::new();
        self.event(alloc, text, Happening::Ended)
    }

    /// A message came, or the header of one that is too long.
    fn message(
        &mut self,
        alloc: Global,
        text: &mut String,
        heard: Heard,
    ) -> Result<(), AllocError> {
        let octets = self.deframer.octets();
        let (gateway, desk) = (&mut self.gateway, &mut self.desk);
        hears(alloc, text, gateway, desk, heard, octets)
    }

    /// SCTP delivers a message.
    fn delivered(
        &mut self,
        alloc: Global,
        text: &mut String,
        octets: &[u8],
    ) -> Result<(), AllocError> {
        if octets.len() > 4096 {
            return text.push_str("too long\n");
        }
        let (gateway, desk) = (&mut self.gateway, &mut self.desk);
        hears(alloc, text, gateway, desk, Heard::Message, octets)
    }

    /// A piece of the stream comes.
    fn piece(&mut self, alloc: Global, text: &mut String, piece: &[u8]) -> Result<(), AllocError> {
        let mut rest = piece;
        while !rest.is_empty() {
            let (used, heard) = self.deframer.take(rest);
            match heard {
                Heard::Nothing => {}
                Heard::Message | Heard::TooLong => self.message(alloc, text, heard)?,
                Heard::Broken => {
                    text.push_str("asp broken\n")?;
                    return self.end(alloc, text);
                }
            }
            rest = &rest[used..];
        }
        Ok(())
    }

    /// The set delivers a message.
    fn deliver(&mut self, text: &mut String, octets: &[u8]) -> Result<(), AllocError> {
        match message_in(octets) {
            None => text.push_str("lost 1\n"),
            Some(msu) => match self.gateway.delivers(msu) {
                Delivery::Send(msu) => self.desk.send(text, &msu),
                Delivery::Kept => text.push_str("kept\n"),
                Delivery::Lost => text.push_str("lost 1\n"),
            },
        }
    }

    /// The destinations are reached, or not.
    fn reach(&mut self, alloc: Global, text: &mut String, reached: bool) -> Result<(), AllocError> {
        self.desk.reached = reached;
        self.event(alloc, text, Happening::Reach)
    }

    /// The stream ends, or T(r) runs out.
    fn other(&mut self, alloc: Global, text: &mut String, word: &str) -> Result<(), AllocError> {
        match word {
            "end" => self.end(alloc, text),
            _ => self.event(alloc, text, Happening::Expired),
        }
    }

    /// Shows the first message of a selection that waits, which the set takes or refuses, if it does.
    fn select(&mut self, text: &mut String, verb: Verb, word: &str) -> Result<(), AllocError> {
        let selection = (number_of(word) % 16) as u8;
        match verb {
            Verb::Take => {
                let message = self.gateway.take_first(selection);
                show_message(text, "took ", message.as_ref())
            }
            Verb::Refuse => {
                let message = self.gateway.drop_first(selection);
                show_message(text, "dropped ", message.as_ref())
            }
            _ => show_message(text, "first ", self.gateway.first(selection)),
        }
    }

    /// A word with its argument.
    pub fn word(
        &mut self,
        alloc: Global,
        text: &mut String,
        verb: Verb,
        word: &str,
    ) -> Result<(), AllocError> {
        match verb {
            Verb::Nothing => Ok(()),
            Verb::Context => {
                self.desk.context = number_of(word);
                Ok(())
            }
            Verb::Destination => {
                self.desk.destinations.push(number_of(word))?;
                Ok(())
            }
            Verb::Reach => self.reach(alloc, text, word == "on"),
            Verb::Stream => {
                let octets = octets_of(alloc, word)?;
                self.piece(alloc, text, octets.as_slice())
            }
            Verb::Message => {
                let octets = octets_of(alloc, word)?;
                self.delivered(alloc, text, octets.as_slice())
            }
            Verb::Deliver => {
                let octets = octets_of(alloc, word)?;
                self.deliver(text, octets.as_slice())
            }
            Verb::First | Verb::Take | Verb::Refuse => self.select(text, verb, word),
            Verb::Happens => self.other(alloc, text, word),
            Verb::Show => show_state(text, &self.gateway),
        }
    }
}
