//! Lines written by hand: the stuffing of a unit, and the events for the octets of a line, however they are cut.
use bit_line::{Deframer, LineEvent, NoMemory, Stuffer};
use std::alloc::Global;
use su_octets::{Head, Unit};

/// The FISU of a link that was just switched on.
fn first_fisu() -> Unit {
    Unit::Fisu(Head {
        bsn: 127,
        bib: 1,
        fsn: 127,
        fib: 1,
    })
}

/// The octets of that FISU.
const FISU: [u8; 5] = [0xff, 0xff, 0x00, 0xff, 0xff];

/// A flag and that FISU, stuffed.
const STUFFED: [u8; 7] = [0x7e, 0xdf, 0xf7, 0x05, 0xf8, 0xbe, 0xaf];

/// A flag, the FISU, a flag and a bit, then another flag.
const LINE: [u8; 9] = [0x7e, 0xdf, 0xf7, 0x05, 0xf8, 0xbe, 0xaf, 0x1f, 0x7e];

/// How many bits are left before the FISU, whether it becomes these octets, and how many bits are left after it.
fn stuffed() -> Option<(u8, bool, u8)> {
    let mut stuffer = Stuffer::new();
    let before = stuffer.rest().1;
    let unit = first_fisu();
    if !unit.whole() {
        return None;
    }
    let is_stuffed = stuffer.put(&unit).as_slice() == STUFFED.as_slice();
    Some((before, is_stuffed, stuffer.rest().1))
}

#[test]
fn known_stuffing(rt: HostRuntime) {
    assert_eq!(rt; stuffed(), Some((0, true, 6)));
}

/// The index of the first octet of a fresh stuffer that isn't as wanted, and the bits that stay with it.
fn first_other_stuffed() -> Option<(Option<usize>, (u8, u8))> {
    let mut stuffer = Stuffer::new();
    let unit = first_fisu();
    if !unit.whole() {
        return None;
    }
    let line = stuffer.put(&unit);
    for (place, octet) in STUFFED.iter().enumerate() {
        if line.as_slice().get(place) != Some(octet) {
            return Some((Some(place), stuffer.rest()));
        }
    }
    Some((None, stuffer.rest()))
}

/// The six bits that stay are the last ones of the closing flag: five 1s and a 0.
#[test]
fn a_fresh_stuffer_octet_by_octet(rt: HostRuntime) {
    assert_eq!(rt; first_other_stuffed(), Some((None, (0x1f, 6))));
}

/// An event: the FISU, an errored unit, or 16 octets in counting mode.
#[derive(Clone, Copy, PartialEq, Eq, Debug)]
enum Told {
    Fisu,
    Errored,
    SixteenOctets,
    Other,
}

fn seen_as(event: &LineEvent) -> Told {
    match event {
        LineEvent::Unit(octets) if octets.as_slice() == FISU.as_slice() => Told::Fisu,
        LineEvent::Errored => Told::Errored,
        LineEvent::SixteenOctets => Told::SixteenOctets,
        _ => Told::Other,
    }
}

fn told_at(events: &[LineEvent], place: usize) -> Option<Told> {
    match events.get(place) {
        Some(event) => Some(seen_as(event)),
        None => None,
    }
}

/// The first three of these events.
fn three(events: &[LineEvent]) -> [Option<Told>; 3] {
    [told_at(events, 0), told_at(events, 1), told_at(events, 2)]
}

const NONE: [Option<Told>; 3] = [None, None, None];

const ONE: [Option<Told>; 3] = [Some(Told::Fisu), None, None];

const OTHER: [Option<Told>; 3] = [Some(Told::Errored), None, None];

const BOTH: [Option<Told>; 3] = [Some(Told::Fisu), Some(Told::Errored), None];

/// The events for the octets before an index, and for those from there on.
fn cut(alloc: Global, place: usize) -> Option<[[Option<Told>; 3]; 2]> {
    let mut deframer = Deframer::new();
    let (front, back) = LINE.as_slice().split_at_checked(place)?;
    let early = deframer.feed(alloc, front).ok()?;
    let late = deframer.feed(alloc, back).ok()?;
    Some([three(&early), three(&late)])
}

/// The first index at which cutting the line changes the events.
fn first_other_cut(alloc: Global) -> Option<usize> {
    for place in 0..=LINE.len() {
        let wanted = match place {
            0..=7 => [NONE, BOTH],
            8 => [ONE, OTHER],
            _ => [BOTH, NONE],
        };
        if cut(alloc, place) != Some(wanted) {
            return Some(place);
        }
    }
    None
}

/// The unit is reported at the eighth octet and an errored one at the ninth, however the line is cut.
#[test]
fn known_events(rt: HostRuntime) {
    assert_eq!(rt; first_other_cut(rt.alloc()), None);
}

/// The index of the first octet with other events if the octets are fed one by one.
fn first_other_octet() -> Option<usize> {
    let mut deframer = Deframer::new();
    for (place, octet) in LINE.iter().enumerate() {
        let wanted = match place {
            7 => ONE,
            8 => OTHER,
            _ => NONE,
        };
        if three(deframer.feed_byte(*octet).as_slice()) != wanted {
            return Some(place);
        }
    }
    None
}

#[test]
fn a_fresh_deframer_octet_by_octet(rt: HostRuntime) {
    assert_eq!(rt; first_other_octet(), None);
}

/// The index of the first octet before which a fresh deframer doesn't count octets though no unit came, or does though
/// one came.
fn first_other_mode() -> Option<usize> {
    let mut deframer = Deframer::new();
    for (place, octet) in LINE.iter().enumerate() {
        if deframer.is_counting() != (place < 8) {
            return Some(place);
        }
        let _events = deframer.feed_byte(*octet);
    }
    None
}

#[test]
fn a_fresh_deframer_counts_octets_until_its_first_unit(rt: HostRuntime) {
    assert_eq!(rt; first_other_mode(), None);
}

/// The events for these octets at the start of a line.
fn fed(alloc: Global, octets: &[u8]) -> Option<[Option<Told>; 3]> {
    let events = Deframer::new().feed(alloc, octets).ok()?;
    Some(three(&events))
}

/// 128 bits in counting mode, which is on at first.
#[test]
fn sixteen_octets(rt: HostRuntime) {
    let wanted = [Some(Told::SixteenOctets), None, None];
    assert_eq!(rt; fed(rt.alloc(), &[0xff; 16]), Some(wanted));
}

/// The events for the line; if memory runs out once, those for the same octets fed again.
fn fed_at_last(alloc: Global) -> Option<[Option<Told>; 3]> {
    let mut deframer = Deframer::new();
    let events = match deframer.feed(alloc, &LINE) {
        Ok(events) => events,
        Err(NoMemory) => deframer.feed(alloc, &LINE).ok()?,
    };
    Some(three(&events))
}

/// With ample memory the call succeeds at once. If memory runs out, no bit is taken: the same octets fed again return
/// all their events.
#[test]
fn refused_memory_takes_no_bit(rt: HostRuntime) {
    assert_eq!(rt; fed_at_last(rt.alloc()), Some(BOTH));
}
