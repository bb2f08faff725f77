//! The stores of a link: units sent, units received and messages kept, step by step.
ghost use Rattle.std.specs.Prelude.{◌≡◌, length};

use arrayvec::ArrayVec;
use resend_store::{AckError, Mode, Msu, Receiver, RetrieveError, Sender, Verdict};
use std::alloc::Global;
use std::collections::VecDeque;

/// A call of a sender, and its result. SIOs and FSNs run from the first number up to the second, exclusive.
#[derive(Clone, Copy)]
enum Step {
    /// It takes messages of 3 octets with these SIOs.
    Takes(u8, u8),
    /// It takes messages of 273 octets with these SIOs that were meant for another link.
    TakesLong(u8, u8),
    /// It has no room for a message (E1),
    Full,
    /// nor for one that was meant for another link.
    FullForOthers,
    /// Messages go out with these FSNs and this FIB.
    Sends(u8, u8, u8),
    /// The message with this SIO goes out with this FSN.
    SendsOne(u8, u8),
    /// A unit without a message goes out with this FSN and this FIB.
    Idles(u8, u8),
    /// It takes messages with these FSNs, each goes out and is acknowledged at once.
    Passes(u8, u8),
    /// A BSN and a BIB arrive that acknowledge so many messages.
    Hears(u8, u8, usize),
    /// A BSN and a BIB arrive that acknowledge unsent messages (E2).
    HearsBad(u8, u8),
    /// It keeps so many messages, so many of which were sent.
    Keeps(usize, usize),
    /// At this place it keeps the message with this SIO.
    KeepsAt(usize, u8),
    /// It hands out the messages after this FSN, or those never sent: the messages with these SIOs.
    HandsOut(Option<u8>, u8, u8),
    /// It hands out nothing, since this FSN wasn't sent (E2).
    HandsOutNone(u8),
    /// It starts over.
    Fresh,
}

/// A message with 3 octets of SIO and SIF.
fn short(sio: u8) -> Msu
    ensures { length result.sif.items ≡ 2 }
{
    let mut sif = ArrayVec::new();
    sif.push(1);
    sif.push(2);
    Msu { sio, sif }
}

/// A message with 273 octets of SIO and SIF.
fn long(sio: u8) -> Msu
    ensures { length result.sif.items ≡ 272 }
{
    Msu {
        sio,
        sif: ArrayVec::from([7; 272]),
    }
}

/// Whether all these messages are taken.
fn takes(sender: &mut Sender, first: u8, end: u8) -> bool {
    for sio in first..end {
        if sender.put(short(sio)).is_err() {
            return false;
        }
    }
    true
}

/// Whether all these messages of another link are taken.
fn takes_long(sender: &mut Sender, first: u8, end: u8) -> bool {
    for sio in first..end {
        if sender.put_diverted(long(sio)).is_err() {
            return false;
        }
    }
    true
}

/// Whether the next unit has this number and bit, and a message if it should.
fn gives(sender: &mut Sender, fsn: u8, fib: u8, has_msu: bool) -> bool {
    let unit = sender.next_unit();
    unit.fsn == fsn && unit.fib == fib && unit.msu.is_some() == has_msu
}

/// Whether messages go out with these numbers.
fn sends(sender: &mut Sender, first: u8, end: u8, fib: u8) -> bool {
    for fsn in first..end {
        if !gives(sender, fsn, fib, true) {
            return false;
        }
    }
    true
}

/// Whether this message goes out with this number.
fn sends_one(sender: &mut Sender, fsn: u8, sio: u8) -> bool {
    let unit = sender.next_unit();
    unit.fsn == fsn && unit.msu == Some(short(sio))
}

/// The number of messages that a BSN and a BIB acknowledge.
fn hears(sender: &mut Sender, bsn: u8, bib: u8) -> Result<usize, AckError> {
    sender.on_back(bsn % 128, bib % 2)
}

/// The messages handed out after this FSN, or those never sent.
fn retrieved(sender: &mut Sender, behind: Option<u8>) -> Result<VecDeque<Msu>, RetrieveError> {
    match behind {
        Some(fsn) => sender.retrieve(Some(fsn % 128)),
        None => sender.retrieve(None),
    }
}

/// Whether a message with each of these numbers is taken, goes out and is acknowledged.
fn passes(sender: &mut Sender, first: u8, end: u8) -> bool {
    for fsn in first..end {
        if sender.put(short(0)).is_err()
            || !gives(sender, fsn, 1, true)
            || hears(sender, fsn, 1) != Ok(1)
        {
            return false;
        }
    }
    true
}

/// Whether these are the messages with these SIOs.
fn are_short(messages: &mut VecDeque<Msu>, first: u8, end: u8) -> bool {
    for sio in first..end {
        if messages.pop_front() != Some(short(sio)) {
            return false;
        }
    }
    messages.len() == 0
}

/// Whether the messages with these SIOs are handed out.
fn hands_out(sender: &mut Sender, behind: Option<u8>, first: u8, end: u8) -> bool {
    match retrieved(sender, behind) {
        Ok(mut messages) => are_short(&mut messages, first, end),
        Err(_) => false,
    }
}

/// Whether the sender does what a step says.
fn does(sender: &mut Sender, step: Step) -> bool {
    match step {
        Step::Takes(first, end) => takes(sender, first, end),
        Step::TakesLong(first, end) => takes_long(sender, first, end),
        Step::Full => sender.put(short(128)).is_err(),
        Step::FullForOthers => sender.put_diverted(short(128)).is_err(),
        Step::Sends(first, end, fib) => sends(sender, first, end, fib),
        Step::SendsOne(fsn, sio) => sends_one(sender, fsn, sio),
        Step::Idles(fsn, fib) => gives(sender, fsn, fib, false),
        Step::Passes(first, end) => passes(sender, first, end),
        Step::Hears(bsn, bib, count) => hears(sender, bsn, bib) == Ok(count),
        Step::HearsBad(bsn, bib) => hears(sender, bsn, bib).is_err(),
        Step::Keeps(held, sent) => sender.held() == held && sender.sent() == sent,
        Step::KeepsAt(place, sio) => sender.held_at(place) == Some(&short(sio)),
        Step::HandsOut(behind, first, end) => hands_out(sender, behind, first, end),
        Step::HandsOutNone(behind) => {
            retrieved(sender, Some(behind)).err() == Some(RetrieveError::BadAck)
        }
        Step::Fresh => {
            sender.fresh();
            true
        }
    }
}

/// A message is requested again, and then acknowledged.
const BY_REQUEST: [Step; 10] = [
    Step::Idles(127, 1),
    Step::HearsBad(5, 0),
    Step::Idles(127, 1),
    Step::Takes(0x80, 0x81),
    Step::Sends(0, 1, 1),
    Step::Idles(0, 1),
    Step::Hears(127, 0, 0),
    Step::Sends(0, 1, 0),
    Step::Hears(0, 0, 1),
    Step::Idles(0, 0),
];

/// 127 messages are sent and 1,024 wait; after a restart 1,151 wait.
const FULL: [Step; 15] = [
    Step::Takes(0, 127),
    Step::Sends(0, 127, 1),
    Step::Takes(0, 255),
    Step::Takes(0, 255),
    Step::Takes(0, 255),
    Step::Takes(0, 255),
    Step::Takes(0, 4),
    Step::Full,
    Step::Idles(126, 1),
    Step::Keeps(1151, 127),
    Step::Fresh,
    Step::Keeps(1151, 0),
    Step::Full,
    Step::FullForOthers,
    Step::SendsOne(0, 0),
];

/// The numbers 126, 127, 0 and 1 are unacknowledged, two messages wait, and the far side has the messages before 0.
const LACKS_FOUR: [Step; 10] = [
    Step::Passes(0, 126),
    Step::Takes(0, 6),
    Step::Sends(126, 128, 1),
    Step::Sends(0, 2, 1),
    Step::HandsOutNone(2),
    Step::KeepsAt(5, 5),
    Step::HandsOut(Some(127), 2, 6),
    Step::Keeps(0, 0),
    Step::Takes(6, 7),
    Step::Sends(0, 1, 1),
];

/// As `LACKS_FOUR`, but it isn't known what the far side has.
const LACKS_NOBODY_KNOWS: [Step; 7] = [
    Step::Passes(0, 126),
    Step::Takes(0, 6),
    Step::Sends(126, 128, 1),
    Step::Sends(0, 2, 1),
    Step::HandsOut(None, 4, 6),
    Step::Takes(6, 7),
    Step::Sends(126, 127, 1),
];

/// The far side has none of a hundred messages sent, and more wait.
const LACKS_MANY: [Step; 4] = [
    Step::Takes(0, 255),
    Step::Sends(0, 100, 1),
    Step::HandsOut(Some(127), 0, 255),
    Step::Keeps(0, 0),
];

/// Unacknowledged messages go out in turn while no new one waits.
const IN_TURN: [Step; 14] = [
    Step::Takes(0, 3),
    Step::Sends(0, 3, 1),
    Step::Sends(0, 1, 1),
    Step::Hears(0, 1, 1),
    Step::Sends(1, 3, 1),
    Step::Sends(1, 2, 1),
    Step::Hears(2, 1, 2),
    Step::Idles(2, 1),
    Step::Fresh,
    Step::Takes(0, 3),
    Step::Sends(0, 3, 1),
    Step::Sends(0, 3, 1),
    Step::Takes(3, 4),
    Step::Sends(3, 4, 1),
];

/// With 31 messages of 273 octets no new one goes out before all went out once more, again and again.
const BY_FORCE: [Step; 8] = [
    Step::TakesLong(0, 32),
    Step::Sends(0, 31, 1),
    Step::Sends(0, 31, 1),
    Step::Sends(0, 31, 1),
    Step::Hears(0, 1, 1),
    Step::Sends(31, 32, 1),
    Step::Sends(1, 32, 1),
    Step::Sends(1, 32, 1),
];

/// The index of the first step with another result for a new sender; the number of steps if it can't be made.
fn first_other(alloc: Global, mode: Mode, steps: &[Step]) -> Option<usize> {
    let Ok(mut sender) = Sender::new(alloc, mode) else {
        return Some(steps.len());
    };
    for (number, step) in steps.iter().enumerate() {
        if !does(&mut sender, *step) {
            return Some(number);
        }
    }
    None
}

#[test]
fn senders_exchange_units(rt: HostRuntime) {
    assert_eq!(rt; first_other(rt.alloc(), Mode::Basic, &BY_REQUEST), None);
    assert_eq!(rt; first_other(rt.alloc(), Mode::Basic, &FULL), None);
    assert_eq!(rt; first_other(rt.alloc(), Mode::Basic, &LACKS_FOUR), None);
    assert_eq!(rt; first_other(rt.alloc(), Mode::Basic, &LACKS_MANY), None);
    assert_eq!(rt;
        first_other(rt.alloc(), Mode::Basic, &LACKS_NOBODY_KNOWS),
        None
    );
    assert_eq!(rt; first_other(rt.alloc(), Mode::Cyclic, &IN_TURN), None);
    assert_eq!(rt; first_other(rt.alloc(), Mode::Cyclic, &BY_FORCE), None);
}

/// A unit: its FSN, its FIB, and whether it has a message. Then the verdict (`None`: E3), and the BSN and BIB after it.
#[derive(Clone, Copy)]
struct Heard(u8, u8, bool, Option<Verdict>, u8, u8);

/// Messages 1 and 2 arrive before 0; 0 arrives on request, and again. A unit shows that 1 is missing; it arrives.
const ASKED_FOR: [Heard; 8] = [
    Heard(127, 1, false, Some(Verdict::Discard), 127, 1),
    Heard(1, 1, true, Some(Verdict::Nack), 127, 0),
    Heard(2, 1, true, Some(Verdict::Discard), 127, 0),
    Heard(0, 0, true, Some(Verdict::Accept), 0, 0),
    Heard(0, 0, true, Some(Verdict::Discard), 0, 0),
    Heard(1, 0, false, Some(Verdict::Nack), 0, 1),
    Heard(1, 1, true, Some(Verdict::Accept), 1, 1),
    Heard(2, 0, true, None, 1, 1),
];

/// Indicators have no meaning in cyclic mode.
const REPEATED: [Heard; 4] = [
    Heard(1, 0, true, Some(Verdict::Discard), 127, 1),
    Heard(0, 0, true, Some(Verdict::Accept), 0, 1),
    Heard(0, 1, true, Some(Verdict::Discard), 0, 1),
    Heard(1, 0, true, Some(Verdict::Accept), 1, 1),
];

/// The index of the first unit with another result.
fn first_heard_otherwise(receiver: &mut Receiver, units: &[Heard]) -> Option<usize> {
    for (number, heard) in units.iter().enumerate() {
        let Heard(fsn, fib, has_msu, verdict, bsn, bib) = *heard;
        let given = receiver.on_unit(fsn, fib, has_msu).ok();
        if given != verdict || receiver.bsn() != bsn || receiver.bib() != bib {
            return Some(number);
        }
    }
    None
}

#[test]
fn receivers_hear_units(rt: HostRuntime) {
    let mut basic = Receiver::new(Mode::Basic);
    assert_eq!(rt; first_heard_otherwise(&mut basic, &ASKED_FOR), None);
    basic.fresh();
    assert_eq!(rt; (basic.bsn(), basic.bib()), (127, 1));
    let mut cyclic = Receiver::new(Mode::Cyclic);
    assert_eq!(rt; first_heard_otherwise(&mut cyclic, &REPEATED), None);
}

/// A sender; if memory runs out once, a second try.
fn made(alloc: Global) -> Option<Sender> {
    match Sender::new(alloc, Mode::Basic) {
        Ok(sender) => Some(sender),
        Err(_) => Sender::new(alloc, Mode::Basic).ok(),
    }
}

/// Whether two messages, one of them sent, are handed out; if memory runs out once, they are kept until then.
fn hands_out_at_last(alloc: Global) -> bool {
    let Some(mut sender) = made(alloc) else {
        return false;
    };
    if !takes(&mut sender, 0, 2) || !sends(&mut sender, 0, 1, 1) {
        return false;
    }
    hands_out(&mut sender, Some(127), 0, 2)
        || sender.held() == 2 && sender.sent() == 1 && hands_out(&mut sender, Some(127), 0, 2)
}

/// With ample memory each call succeeds at once. If memory runs out, nothing changes, and the next call succeeds.
#[test]
fn senders_keep_all_where_memory_is_refused(rt: HostRuntime) {
    assert!(rt; hands_out_at_last(rt.alloc()));
}
