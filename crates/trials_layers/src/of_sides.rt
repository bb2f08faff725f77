//! Exchanges of a link by the procedures of the recommendation.
ghost use Rattle.std.specs.Prelude.{◌≡◌, length};

use arrayvec::ArrayVec;
use link_transceiver::*;
use resend_store::{Mode, Msu, RetrieveError};
use std::alloc::Global;
use su_octets::{Head, Unit};

/// One step of an exchange.
#[derive(Clone, Copy)]
pub(crate) enum Step {
    /// An actor sends this signal.
    Tell(EnvSignal),
    /// Level 3 holds the link in this way.
    Hold(Hold),
    /// A message with this service information octet is to be sent.
    Put(u8),
    /// A unit with these first two octets arrives, with a message if the third value says so. The fourth says whether
    /// messages were acknowledged and some are left, the fifth whether two units were at fault.
    Hear(u8, u8, bool, Option<bool>, bool),
    /// Odd reports faulty units from now on.
    Odd,
    /// Such a unit arrives and is discarded. Odd reports it with this number, after Bad if that is set, or not at all.
    Discard(u8, u8, bool, Option<u8>, bool),
    /// The buffers are emptied.
    Clear,
    /// A unit with this printed text goes out.
    Out(&'static str),
    /// This status is reported.
    Report(LinkStatus),
    /// A message with this service information octet is delivered.
    Deliver(u8),
    /// Nothing is reported.
    Rest,
}

/// A message of 4 octets.
fn message(sio: u8) -> Msu
    ensures { length result.sif.items ≡ 3 }
{
    let mut sif = ArrayVec::new();
    sif.push(1);
    sif.push(2);
    sif.push(3);
    Msu { sio, sif }
}

/// The unit with these first two octets.
fn unit(first: u8, second: u8, has_msu: bool) -> Unit {
    let head = Head {
        bsn: first % 128,
        bib: first / 128,
        fsn: second % 128,
        fib: second / 128,
    };
    if has_msu {
        let Msu { sio, sif } = message(0x80);
        Unit::Msu(head, sio, sif)
    } else {
        Unit::Fisu(head)
    }
}

fn told(to: Party, notice: Notice) -> Offer {
    Offer { to, notice }
}

/// The notices for a unit.
fn offered(seen: Option<bool>, bad: bool) -> Offers {
    let mut offers = Offers::new();
    offers.push(told(Party::Aerm, Notice::Good));
    offers.push(told(Party::Suerm, Notice::Good));
    if let Some(some_left) = seen {
        offers.push(told(Party::Txc, Notice::AckSeen(some_left)));
    }
    if bad {
        offers.push(told(Party::Rc, Notice::Bad));
    }
    offers.push(told(Party::Rc, Notice::Unit(8)));
    offers
}

/// The notices for a unit that is discarded.
fn discarded(code: Option<u8>, bad: bool) -> Offers {
    let mut offers = Offers::new();
    offers.push(told(Party::Aerm, Notice::Good));
    offers.push(told(Party::Suerm, Notice::Good));
    if bad {
        offers.push(told(Party::Rc, Notice::Bad));
    }
    if let Some(code) = code {
        offers.push(told(Party::Rc, Notice::Odd(code)));
    }
    offers
}

/// Whether these notices result from a unit, which is whole and for which there is room.
fn hears(transceiver: &mut Transceiver, unit: Unit, offers: &[Offer]) -> bool {
    unit.whole() && transceiver.has_room() && transceiver.on_unit(unit).as_slice() == offers
}

/// The printed text of the next unit, and whether there is a notice with it.
fn given(alloc: Global, transceiver: &mut Transceiver) -> Option<String> {
    match transceiver.unit_out() {
        Some(UnitOut { unit, offer }) => format!(in alloc; "{unit} {}", offer.is_some()).ok(),
        None => format!(in alloc; "silent").ok(),
    }
}

/// Whether this is the printed text of the next unit.
fn gives(alloc: Global, transceiver: &mut Transceiver, text: &str) -> bool {
    match given(alloc, transceiver) {
        Some(printed) => printed.as_str() == text,
        None => false,
    }
}

/// Whether a side does what a step says.
fn does(alloc: Global, transceiver: &mut Transceiver, step: Step) -> bool {
    match step {
        Step::Tell(signal) => {
            transceiver.on_signal(signal);
            true
        }
        Step::Hold(hold) => {
            transceiver.hold(hold);
            true
        }
        Step::Put(sio) => transceiver.put(message(sio)).is_ok(),
        Step::Hear(first, second, has_msu, seen, bad) => {
            let unit = unit(first, second, has_msu);
            hears(transceiver, unit, offered(seen, bad).as_slice())
        }
        Step::Discard(first, second, has_msu, code, bad) => {
            let unit = unit(first, second, has_msu);
            hears(transceiver, unit, discarded(code, bad).as_slice())
        }
        Step::Odd => {
            transceiver.tell_odd(true);
            true
        }
        Step::Clear => {
            transceiver.clear();
            true
        }
        Step::Out(text) => gives(alloc, transceiver, text),
        Step::Report(status) => transceiver.report() == Some(Report::Status(status)),
        Step::Deliver(sio) => transceiver.report() == Some(Report::Message(message(sio))),
        Step::Rest => transceiver.report().is_none(),
    }
}

/// The index of the first step with another result.
fn first_other(alloc: Global, transceiver: &mut Transceiver, steps: &[Step]) -> Option<usize> {
    for (number, step) in steps.iter().enumerate() {
        if !does(alloc, transceiver, *step) {
            return Some(number);
        }
    }
    None
}

/// The signals of the actors until the link is in service.
const COMES_UP: [Step; 11] = [
    Step::Out("silent"),
    Step::Tell(EnvSignal::Line(3)),
    Step::Out("LSSU bsn 127 bib 1 fsn 127 fib 1 status SIOS false"),
    Step::Tell(EnvSignal::Fresh),
    Step::Tell(EnvSignal::Line(1)),
    Step::Out("LSSU bsn 127 bib 1 fsn 127 fib 1 status SIN false"),
    Step::Tell(EnvSignal::Take(true)),
    Step::Tell(EnvSignal::Line(8)),
    Step::Out("FISU bsn 127 bib 1 fsn 127 fib 1 false"),
    Step::Tell(EnvSignal::InServiceNow),
    Step::Tell(EnvSignal::Line(9)),
];

const LOSES_ONE_EACH_WAY: [Step; 15] = [
    Step::Put(0x80),
    Step::Out("MSU bsn 127 bib 1 fsn 0 fib 1 sio 80 octets 3 true"),
    Step::Out("FISU bsn 127 bib 1 fsn 0 fib 1 false"),
    Step::Hear(0x7f, 0xff, false, None, false),
    Step::Out("MSU bsn 127 bib 1 fsn 0 fib 0 sio 80 octets 3 true"),
    Step::Hear(0x00, 0xff, false, Some(false), false),
    Step::Out("FISU bsn 127 bib 1 fsn 0 fib 0 false"),
    Step::Hear(0x00, 0x80, true, None, false),
    Step::Out("FISU bsn 0 bib 1 fsn 0 fib 0 false"),
    Step::Hear(0x00, 0x82, true, None, false),
    Step::Out("FISU bsn 0 bib 0 fsn 0 fib 0 false"),
    Step::Tell(EnvSignal::Down(2)),
    Step::Deliver(0x80),
    Step::Report(LinkStatus::InService),
    Step::Report(LinkStatus::Down(2)),
];

/// One fault of each kind isn't reported, two of one kind are; a restart forgets them.
const HAS_FAULTS: [Step; 10] = [
    Step::Hear(0x85, 0xff, false, None, false),
    Step::Hear(0xff, 0x7f, false, None, false),
    Step::Put(1),
    Step::Put(2),
    Step::Out("MSU bsn 127 bib 1 fsn 0 fib 1 sio 01 octets 3 true"),
    Step::Out("MSU bsn 127 bib 1 fsn 1 fib 1 sio 02 octets 3 true"),
    Step::Hear(0x80, 0x7f, false, Some(true), true),
    Step::Tell(EnvSignal::Fresh),
    Step::Hear(0xff, 0x7f, false, None, false),
    Step::Hear(0x85, 0x7f, false, None, false),
];

/// Lost messages are requested at the end. Withheld again, number and bit are read anew; a restart resets them.
const IS_CONGESTED: [Step; 22] = [
    Step::Tell(EnvSignal::Line(5)),
    Step::Tell(EnvSignal::Withhold(true)),
    Step::Out("LSSU bsn 127 bib 1 fsn 127 fib 1 status SIB false"),
    Step::Hear(0xff, 0x80, true, None, false),
    Step::Hear(0xff, 0x82, true, None, false),
    Step::Out("FISU bsn 127 bib 1 fsn 127 fib 1 false"),
    Step::Tell(EnvSignal::Withhold(true)),
    Step::Out("FISU bsn 0 bib 0 fsn 127 fib 1 false"),
    Step::Tell(EnvSignal::Fresh),
    Step::Out("FISU bsn 127 bib 1 fsn 127 fib 1 false"),
    Step::Hear(0xff, 0x80, true, None, false),
    Step::Hear(0xff, 0x82, true, None, false),
    Step::Out("FISU bsn 127 bib 1 fsn 127 fib 1 false"),
    Step::Tell(EnvSignal::Withhold(false)),
    Step::Out("FISU bsn 0 bib 0 fsn 127 fib 1 false"),
    Step::Tell(EnvSignal::Line(5)),
    Step::Tell(EnvSignal::Line(-1)),
    Step::Tell(EnvSignal::Line(264)),
    Step::Out("LSSU bsn 0 bib 0 fsn 127 fib 1 status SIB false"),
    Step::Deliver(0x80),
    Step::Deliver(0x80),
    Step::Report(LinkStatus::InService),
];

/// No message is sent or accepted until both sides start over. Acknowledgements, negative ones too, and faults count.
const IS_HELD: [Step; 19] = [
    Step::Put(0x80),
    Step::Out("MSU bsn 127 bib 1 fsn 0 fib 1 sio 80 octets 3 true"),
    Step::Put(0x81),
    Step::Hold(Hold::UntilAnew),
    Step::Out("FISU bsn 127 bib 1 fsn 0 fib 1 false"),
    Step::Hear(0xff, 0x80, true, None, false),
    Step::Hear(0xff, 0x82, true, None, false),
    Step::Out("FISU bsn 127 bib 1 fsn 0 fib 1 false"),
    Step::Hear(0x7f, 0xff, false, None, false),
    Step::Out("FISU bsn 127 bib 1 fsn 0 fib 0 false"),
    Step::Hear(0x00, 0x80, true, Some(false), false),
    Step::Out("FISU bsn 127 bib 1 fsn 0 fib 0 false"),
    Step::Hear(0x00, 0x7f, false, None, false),
    Step::Hear(0x00, 0x7f, false, None, true),
    Step::Tell(EnvSignal::Fresh),
    Step::Out("MSU bsn 127 bib 1 fsn 0 fib 1 sio 81 octets 3 true"),
    Step::Hear(0xff, 0x80, true, None, false),
    Step::Deliver(0x80),
    Step::Report(LinkStatus::InService),
];

/// A request stays, and so does a hold that level 3 must end; other units go out as always.
const IS_KEPT: [Step; 19] = [
    Step::Hear(0xff, 0x82, true, None, false),
    Step::Out("FISU bsn 127 bib 0 fsn 127 fib 1 false"),
    Step::Hold(Hold::Kept),
    Step::Hear(0xff, 0x80, true, None, false),
    Step::Hear(0xff, 0x00, true, None, false),
    Step::Hear(0xff, 0x81, true, None, false),
    Step::Put(0x80),
    Step::Out("FISU bsn 127 bib 0 fsn 127 fib 1 false"),
    Step::Tell(EnvSignal::Fresh),
    Step::Out("FISU bsn 127 bib 1 fsn 127 fib 1 false"),
    Step::Tell(EnvSignal::Line(5)),
    Step::Out("LSSU bsn 127 bib 1 fsn 127 fib 1 status SIB false"),
    Step::Tell(EnvSignal::Line(4)),
    Step::Out("LSSU bsn 127 bib 1 fsn 127 fib 1 status SIPO false"),
    Step::Tell(EnvSignal::Line(9)),
    Step::Hold(Hold::Free),
    Step::Out("MSU bsn 127 bib 1 fsn 0 fib 1 sio 80 octets 3 true"),
    Step::Report(LinkStatus::InService),
    Step::Rest,
];

/// Messages to be repeated wait, and go out when the hold ends.
const WAITS_TO_REPEAT: [Step; 10] = [
    Step::Put(1),
    Step::Put(2),
    Step::Out("MSU bsn 127 bib 1 fsn 0 fib 1 sio 01 octets 3 true"),
    Step::Out("MSU bsn 127 bib 1 fsn 1 fib 1 sio 02 octets 3 true"),
    Step::Hold(Hold::UntilAnew),
    Step::Hear(0x7f, 0xff, false, None, false),
    Step::Out("FISU bsn 127 bib 1 fsn 1 fib 0 false"),
    Step::Hold(Hold::Free),
    Step::Out("MSU bsn 127 bib 1 fsn 0 fib 0 sio 01 octets 3 true"),
    Step::Out("MSU bsn 127 bib 1 fsn 1 fib 0 sio 02 octets 3 true"),
];

/// The first steps with another result, while a new side comes up and after that; `None` if it can't be made.
pub(crate) fn first_others(alloc: Global, steps: &[Step]) -> Option<[Option<usize>; 2]> {
    let mut transceiver = Transceiver::new(alloc, Mode::Basic).ok()?;
    let coming = first_other(alloc, &mut transceiver, &COMES_UP);
    Some([coming, first_other(alloc, &mut transceiver, steps)])
}

#[test]
fn exchanges_units(rt: HostRuntime) {
    let well = Some([None; 2]);
    assert_eq!(rt; first_others(rt.alloc(), &LOSES_ONE_EACH_WAY), well);
    assert_eq!(rt; first_others(rt.alloc(), &HAS_FAULTS), well);
    assert_eq!(rt; first_others(rt.alloc(), &IS_CONGESTED), well);
}

#[test]
fn holds_messages_back(rt: HostRuntime) {
    let well = Some([None; 2]);
    assert_eq!(rt; first_others(rt.alloc(), &IS_HELD), well);
    assert_eq!(rt; first_others(rt.alloc(), &IS_KEPT), well);
    assert_eq!(rt; first_others(rt.alloc(), &WAITS_TO_REPEAT), well);
}

/// Whether the next reports are that the link went down for each of these reasons, and whether no other follows.
fn reports_down(transceiver: &mut Transceiver, first: i32, end: i32) -> bool {
    for reason in first..end {
        if transceiver.report() != Some(Report::Status(LinkStatus::Down(reason))) {
            return false;
        }
    }
    transceiver.report().is_none()
}

/// Whether the latest 64 of seventy statuses are kept; `None` if there is no side.
fn keeps_latest(alloc: Global) -> Option<bool> {
    let mut transceiver = Transceiver::new(alloc, Mode::Cyclic).ok()?;
    for reason in 0..70 {
        transceiver.on_signal(EnvSignal::Down(reason));
    }
    Some(reports_down(&mut transceiver, 6, 70))
}

#[test]
fn keeps_the_latest_statuses(rt: HostRuntime) {
    assert_eq!(rt; keeps_latest(rt.alloc()), Some(true));
}

/// A side; if memory runs out once, a second try.
fn made(alloc: Global) -> Option<Transceiver> {
    match Transceiver::new(alloc, Mode::Basic) {
        Ok(transceiver) => Some(transceiver),
        Err(_) => Transceiver::new(alloc, Mode::Basic).ok(),
    }
}

/// The number of messages handed out.
fn handed(transceiver: &mut Transceiver) -> Result<usize, RetrieveError> {
    match transceiver.retrieve(Some(127)) {
        Ok(messages) => Ok(messages.len()),
        Err(error) => Err(error),
    }
}

/// As `handed`; if memory runs out once and one message is kept, a second try.
fn handed_at_last(transceiver: &mut Transceiver) -> Option<usize> {
    match handed(transceiver) {
        Ok(count) => Some(count),
        Err(RetrieveError::NoMemory) if transceiver.held() == 1 => handed(transceiver).ok(),
        Err(_) => None,
    }
}

/// The number of messages that a side with one message hands out, and the number that it keeps.
fn hands_out(alloc: Global) -> Option<(usize, usize)> {
    let mut transceiver = made(alloc)?;
    transceiver.put_diverted(message(7)).ok()?;
    let count = handed_at_last(&mut transceiver)?;
    Some((count, transceiver.held()))
}

/// If memory runs out nothing changes, and the next call succeeds.
#[test]
fn keeps_all_where_memory_is_refused(rt: HostRuntime) {
    assert_eq!(rt; hands_out(rt.alloc()), Some((1, 0)));
}
