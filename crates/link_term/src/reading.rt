//! The line in: received octets.
ghost use Rattle.std.specs.Prelude.{◌≡◌, ◌⊎◌, ◌+◌, ◌<◌, ◌≤◌, ◌∷◌, [], true, false, length, take};
ghost use Rattle.bit_line.specs.Events.{closings};
ghost use Rattle.link_processes.specs.Machine.{tidied, is_low, hears_counting};
ghost use Rattle.link_processes.specs.declared.processes.Processes.{Processes as PlainProcesses};
ghost use Rattle.link_transceiver.specs.Limits.{KEPT_MESSAGES};
ghost use Rattle.link_term.specs.Hearing.{Reads, AreTaken, Heard};
ghost use Rattle.link_term.specs.Kept.{Took};
ghost use Rattle.link_term.specs.Term.{transceiver_of};

use crate::laws::unacknowledged_messages_stay;
use crate::terminal::Terminal;
use bit_line::LineEvent;
use link_processes::Processes;
use su_octets::decode;

/// Takes the octets of a unit from the line.
fn take_octets(processes: &mut Processes, octets: &[u8])
    requires { length processes.old.transceiver.messages < KEPT_MESSAGES }
    ensures reads { Reads octets.now processes.old processes.new }
    ensures few { length processes.new.transceiver.messages ≤ length processes.old.transceiver.messages + 1 }
{
    match decode(octets) {
        Ok(unit) => processes.take_unit(unit),
        Err(_) => processes.take_error(),
    }
}

/// Takes an event of the line. A unit ends octet counting first.
fn take_event(processes: &mut Processes, event: &LineEvent)
    requires { length processes.old.transceiver.messages + closings (event.now ∷ []) ≤ KEPT_MESSAGES }
    ensures taken { (v : PlainProcesses) (left : _) → AreTaken left processes.new v → AreTaken (event.now ∷ left) processes.old v }
    ensures few { length processes.new.transceiver.messages ≤ length processes.old.transceiver.messages + closings (event.now ∷ []) }
{
    match event {
        LineEvent::Unit(octets) => {
            processes.tell_counting(false);
            take_octets(processes, octets.as_slice());
        }
        LineEvent::Errored => processes.take_error(),
        LineEvent::SixteenOctets => processes.take_sixteen(),
    }
}

/// Takes events of the line in order.
fn take_events(processes: &mut Processes, events: &[LineEvent])
    requires { length processes.old.transceiver.messages + closings events.now ≤ KEPT_MESSAGES }
    ensures { AreTaken events.now processes.old processes.new }
{
    for event in events {
        take_event(processes, event);
    }
}

/// Makes room in the journal if needed, provided that a further message can be accepted. Returns whether an octet can
/// be taken then. If not, nothing changes.
fn make_room(processes: &mut Processes) -> bool
    ensures room { result ≡ true → length processes.old.transceiver.messages < KEPT_MESSAGES }
    ensures tidied { result ≡ true → processes.new ≡ tidied processes.old }
    ensures left { result ≡ false → processes.new ≡ processes.old }
    ensures stops { result ≡ false → (KEPT_MESSAGES ≤ length processes.old.transceiver.messages) ⊎ (is_low processes.old ≡ true) }
{
    if !processes.transceiver.has_room() {
        return false;
    }
    match processes.tidy() {
        Ok(()) => true,
        Err(_) => false,
    }
}

/// The octets to take before octet counting is checked again: one if the set has Counting, otherwise all.
fn next_part<'octets>(processes: &Processes, octets: &'octets [u8]) -> &'octets [u8]
    requires { 0 < length octets.now }
    ensures some { 0 < length result.now }
    ensures part { result.now ≡ take (length result.now) octets.now }
    ensures one { hears_counting processes.now ≡ true → length result.now ≡ 1 }
{
    if processes.hears_counting() {
        &octets[..1]
    } else {
        octets
    }
}

impl Terminal {
    /// Takes octets up to the first one that causes an event. Takes none if 256 messages wait, or if making room in the
    /// journal runs out of memory. Returns how many it took; if none, nothing changes.
    ///
    /// Room is made once, since octets without events leave it. If the set has Counting, it takes one octet.
    fn take_part(&mut self, octets: &[u8]) -> usize
        requires { 0 < length octets.now }
        ensures most { result ≤ length octets.now }
        ensures heard { Heard self.old (take result octets.now) self.new }
        ensures took { Took self.old self.new }
        ensures left { result ≡ 0 → self.new ≡ self.old }
        ensures stops { result ≡ 0 → (KEPT_MESSAGES ≤ length (transceiver_of self.old).messages) ⊎ (is_low self.old.processes ≡ true) }
    {
        unacknowledged_messages_stay();
        if !make_room(&mut self.processes) {
            return 0;
        }
        let (taken, events) = self.line.feed_until(next_part(&self.processes, octets));
        take_events(&mut self.processes, events.as_slice());
        self.processes.tell_counting(self.line.is_counting());
        taken
    }

    /// Takes line octets, the low bit of each first, and returns how many it took. It takes all, unless 256 messages
    /// wait to be handed out, or making room in the journal runs out of memory. The others can be passed again, as if
    /// they had never been passed.
    ///
    /// Units without errors go through the stores while the actors have requested that, and each unit is reported to
    /// the actors (Q.703, 4 to 6 and 10). If the set has Counting, both error rate monitors are told that octet
    /// counting ends before the unit that ends it, and that it begins after the octet at which it does.
    pub fn line_in(&mut self, octets: &[u8]) -> usize
        ensures few { result ≤ length octets.now }
        ensures heard { Heard self.old (take result octets.now) self.new }
        ensures took { Took self.old self.new }
        ensures stops { result < length octets.now
            → (KEPT_MESSAGES ≤ length (transceiver_of self.new).messages) ⊎ (is_low self.new.processes ≡ true) }
    {
        let mut taken = 0;
        while taken < octets.len() {
            let part = self.take_part(&octets[taken..]);
            if part == 0 {
                return taken;
            }
            taken += part;
        }
        taken
    }
}
