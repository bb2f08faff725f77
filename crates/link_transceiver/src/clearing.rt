//! Clearing the buffers, and whether abnormal units are reported.
ghost use Rattle.std.specs.Prelude.{◌≡◌};
ghost use Rattle.link_transceiver.specs.Effects.{clears};

use crate::transceiver::Transceiver;

impl Transceiver {
    /// Clears the buffers (Q.703, figure 13): all waiting and unacknowledged messages go, and are counted. Numbers
    /// continue after the last acknowledged message's.
    #[tactic(auto, unfolding(crate::specs::Effects::clears))]
    pub fn clear(&mut self)
        ensures { self.new ≡ clears self.old }
    {
        let kept = self.sender.held();
        let sent = self.sender.sent();
        if sent > 0 {
            self.spare = sent as u8;
        }
        self.cleared = self.cleared.saturating_add(kept as u64);
        self.clearing = false;
        self.sender.clear();
    }

    /// Whether an actor requested clearing that hasn't been done yet.
    pub fn is_to_clear(&self) -> bool
        ensures { result ≡ self.now.clearing }
    {
        self.clearing
    }

    /// How many messages were cleared. The count stops at 2^64 - 1.
    pub fn cleared(&self) -> u64
        ensures { result ≡ self.now.cleared }
    {
        self.cleared
    }

    /// Sets whether `Notice::Odd` reports abnormal units and the unit after one is discarded.
    pub fn tell_odd(&mut self, odd: bool)
        ensures { self.new ≡ record self.old { odd = odd } }
    {
        self.odd = odd;
    }
}
