//! What an actor's signal to the environment does to the transceiver.
ghost use Rattle.std.specs.Prelude.{◌≡◌, ◌∷◌, ◌++◌, []};
ghost use Rattle.link_transceiver.specs.Effects.{effect, backward_of, renewed, directed, kind_named, kind_by, is_busy_named, withheld_by, told, latest};
ghost use Rattle.link_transceiver.specs.TransceiverState.{IsBackward};

use crate::faults::LastThree;
use crate::kept::KeptQueue;
use crate::signals::{BUSY, Backward, EnvSignal, LineKind, LinkStatus, STATUSES};
use crate::transceiver::Transceiver;

impl Transceiver {
    /// Does what an actor's signal to the environment requests.
    #[tactic(auto, unfolding(crate::specs::Effects::effect))]
    pub fn on_signal(&mut self, signal: EnvSignal)
        ensures { self.new ≡ effect signal self.old }
    {
        match signal {
            EnvSignal::Fresh => self.renew(),
            EnvSignal::Take(on) => self.take = on,
            EnvSignal::Deliver(on) => self.deliver = on,
            EnvSignal::Line(number) => self.direct(number),
            EnvSignal::Withhold(on) => self.withhold(on),
            EnvSignal::InServiceNow => {
                self.in_service = true;
                self.came = true;
                self.tell(LinkStatus::InService);
            }
            EnvSignal::Down(reason) => {
                self.in_service = false;
                self.far_out = false;
                self.tell(LinkStatus::Down(reason));
            }
            EnvSignal::RemoteOut => {
                self.far_out = true;
                self.tell(LinkStatus::RemoteOut);
            }
            EnvSignal::RemoteBack => {
                self.far_out = false;
                self.tell(LinkStatus::RemoteBack);
            }
            EnvSignal::Clear => self.clearing = true,
            EnvSignal::Cleared => self.tell(LinkStatus::Cleared),
        }
    }

    /// Restarts both stores.
    #[tactic(auto, unfolding(crate::specs::Effects::renewed))]
    fn renew(&mut self)
        ensures { self.new ≡ renewed self.old }
    {
        self.sender.fresh();
        self.receiver.fresh();
        self.faults = LastThree::new();
        self.hold = self.hold.renewed();
        self.began = true;
        self.deliver = true;
        self.behind_odd = false;
        self.spare = 0;
        if self.withheld.is_some() {
            self.withheld = Some(self.backward());
        }
    }

    /// Sets what is sent from now on.
    #[tactic(auto, unfolding(crate::specs::Effects::directed))]
    fn direct(&mut self, number: i32)
        ensures { self.new ≡ directed number self.old }
    {
        if is_busy(number) {
            self.busy = true;
        } else if let Some(kind) = kind_named(number) {
            self.line = Some(kind);
            self.busy = false;
        }
    }

    /// Freezes the backward number and bit, or lets them follow the receiver's again.
    fn withhold(&mut self, on: bool)
        ensures { self.new ≡ withheld_by on self.old }
    {
        self.withheld = if on { Some(self.backward()) } else { None };
    }

    /// The receiver's backward number and bit.
    pub(crate) fn backward(&self) -> Backward
        ensures value { result ≡ backward_of self.now.receiver }
        ensures whole { IsBackward result }
    {
        Backward {
            bsn: self.receiver.bsn(),
            bib: self.receiver.bib(),
        }
    }

    /// Queues a status for level 3. If the queue is full, the oldest is dropped.
    #[tactic(auto, unfolding(crate::specs::Effects::told))]
    fn tell(&mut self, status: LinkStatus)
        ensures { self.new ≡ told status self.old }
    {
        keep_latest(&mut self.statuses, status);
    }
}

/// Puts a status last, and drops the oldest if there is no room.
#[tactic(auto, unfolding(crate::specs::Effects::latest), using(crate::proofs::Latest::latest_full, crate::proofs::Latest::latest_with_room))]
fn keep_latest(statuses: &mut KeptQueue<LinkStatus, STATUSES>, status: LinkStatus)
    ensures { statuses.new ≡ latest (statuses.old ++ status ∷ []) }
{
    if statuses.len() == STATUSES {
        let _oldest = statuses.pop();
    }
    statuses.push(status);
}

/// Whether the number is that of the status 'busy'.
#[tactic(auto, unfolding(crate::specs::Effects::is_busy_named))]
fn is_busy(number: i32) -> bool
    ensures { result ≡ is_busy_named number }
{
    number == i32::from(BUSY)
}

/// The kind of unit to send that a number names, if it names one.
#[tactic(auto, unfolding(crate::specs::Effects::kind_named))]
pub(crate) fn kind_named(number: i32) -> Option<LineKind>
    ensures { result ≡ kind_named number }
{
    match u8::try_from(number) {
        Ok(number) => kind_by(number),
        Err(_) => None,
    }
}

/// As `kind_named`, for a number that isn't negative.
fn kind_by(number: u8) -> Option<LineKind>
    ensures { result ≡ kind_by number }
{
    match number {
        0..=4 => Some(LineKind::Status(number)),
        8 => Some(LineKind::FillIn),
        9 => Some(LineKind::Messages),
        _ => None,
    }
}
