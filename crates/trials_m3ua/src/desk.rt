//! What a gateway does in answer to what happens.
ghost use Rattle.std.specs.Prelude.{◌≡◌, ◌≤◌, true, is_some, length};
ghost use Rattle.m3ua_gateway.specs.Asking.{is_data};

use crate::shown::{show_heard, show_message, show_sent};
use arrayvec::ArrayVec;
use m3ua_frames::{Heard, parameters_of};
use m3ua_gateway::{
    Action, Gateway, Request, Status, answer, data, destination, registered, request_of, statuses,
};
use resend_store::Msu;
use std::alloc::{AllocError, Global};

/// What a gateway needs to answer, and octets to write to.
#[derive(Drop)]
pub struct Desk {
    /// The routing context.
    pub context: u32,
    /// The destinations.
    pub destinations: Vec<u32>,
    /// Whether the destinations are reached.
    pub reached: bool,
    octets: ArrayVec<u8, 4160>,
}

impl Desk {
    /// A desk without destinations.
    pub fn new(alloc: Global) -> Self {
        Desk {
            context: 0,
            destinations: Vec::new(alloc),
            reached: false,
            octets: ArrayVec::new(),
        }
    }

    /// Sends what an action tells of destinations.
    fn tell(
        &mut self,
        alloc: Global,
        text: &mut String,
        action: Action,
        heard: &[u8],
    ) -> Result<(), AllocError>
        requires { length heard.now ≤ 4096 }
    {
        let destinations = self.destinations.as_slice();
        let told = statuses(alloc, action, destinations, self.reached, heard)?;
        for status in told.as_slice() {
            let Status {
                available,
                affected,
            } = *status;
            destination(self.context, available, affected, &mut self.octets);
            show_sent(text, self.octets.as_slice())?;
        }
        Ok(())
    }

    /// Sends REG RSP for each routing key.
    fn register(&mut self, text: &mut String, heard: &[u8]) -> Result<(), AllocError> {
        let mut rest = parameters_of(heard);
        while let Some(after) = registered(self.context, rest, &mut self.octets) {
            show_sent(text, self.octets.as_slice())?;
            rest = after;
        }
        Ok(())
    }

    /// Sends a message as DATA.
    pub fn send(&mut self, text: &mut String, msu: &Msu) -> Result<(), AllocError> {
        if data(self.context, msu, &mut self.octets) {
            show_sent(text, self.octets.as_slice())
        } else {
            text.push_str("no label\n")
        }
    }

    /// Sends messages as DATA.
    fn send_all(&mut self, text: &mut String, messages: &[Msu]) -> Result<(), AllocError> {
        for msu in messages {
            self.send(text, msu)?;
        }
        Ok(())
    }

    /// Does what an action says.
    fn act(
        &mut self,
        alloc: Global,
        text: &mut String,
        gateway: &Gateway,
        action: Action,
        request: &Request,
        heard: &[u8],
    ) -> Result<(), AllocError>
        requires { length heard.now ≤ 4096 }
    {
        match action {
            Action::Destinations | Action::Audited => self.tell(alloc, text, action, heard),
            Action::Registered => self.register(text, heard),
            Action::Release => self.send_all(text, gateway.released(request.happening)),
            Action::Lose => {
                let kept = gateway.kept();
                writeln!(text, "lost {kept}")
            }
            Action::Count => text.push_str("refused\n"),
            Action::Take => show_message(text, "waits ", request.message.as_ref()),
            _ => self.reply(text, action, request.code, heard),
        }
    }

    /// Sends the message of an action that sends one.
    fn reply(
        &mut self,
        text: &mut String,
        action: Action,
        code: u32,
        heard: &[u8],
    ) -> Result<(), AllocError>
        requires { length heard.now ≤ 4096 }
    {
        if answer(action, self.context, code, heard, &mut self.octets) {
            show_sent(text, self.octets.as_slice())
        } else {
            Ok(())
        }
    }
}

/// Does all that a request asks for. DATA waits outside while 1,024 messages wait for the set.
pub fn happens(
    alloc: Global,
    text: &mut String,
    gateway: &mut Gateway,
    desk: &mut Desk,
    request: Request,
    heard: &[u8],
) -> Result<(), AllocError>
    requires within { length heard.now ≤ 4096 }
    requires carried { is_data request.happening ≡ true → is_some request.message ≡ true }
{
    if !gateway.has_room(request.happening) {
        return text.push_str("full\n");
    }
    for action in gateway.actions(request.happening) {
        desk.act(alloc, text, gateway, *action, &request, heard)?;
    }
    let Request {
        happening,
        message,
        ..
    } = request;
    gateway.hears(happening, message);
    Ok(())
}

/// Octets of the ASP come.
pub fn hears(
    alloc: Global,
    text: &mut String,
    gateway: &mut Gateway,
    desk: &mut Desk,
    heard: Heard,
    octets: &[u8],
) -> Result<(), AllocError>
    requires { length octets.now ≤ 4096 }
{
    show_heard(text, heard, octets)?;
    let request = request_of(octets, desk.context);
    happens(alloc, text, gateway, desk, request, octets)
}
