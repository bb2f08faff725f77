//! Units after faulty ones, and buffers that are emptied.
use crate::of_sides::{Step, first_others};

/// The unit after a faulty one doesn't acknowledge and isn't accepted. If faulty itself, it and the next are reported.
const DISCARDS_BEHIND_ODD: [Step; 10] = [
    Step::Odd,
    Step::Put(0x80),
    Step::Out("MSU bsn 127 bib 1 fsn 0 fib 1 sio 80 octets 3 true"),
    Step::Discard(0x85, 0xff, false, Some(1), false),
    Step::Discard(0x80, 0xff, false, None, false),
    Step::Hear(0x80, 0xff, false, Some(false), false),
    Step::Discard(0x80, 0x7f, false, Some(2), false),
    Step::Discard(0x80, 0x7f, false, Some(2), true),
    Step::Discard(0x80, 0x80, true, None, false),
    Step::Hear(0x80, 0x80, true, None, false),
];

/// The numbers of cleared messages aren't abnormal until a message goes out, and acknowledge nothing; numbers continue.
const CLEARS: [Step; 10] = [
    Step::Put(1),
    Step::Put(2),
    Step::Out("MSU bsn 127 bib 1 fsn 0 fib 1 sio 01 octets 3 true"),
    Step::Clear,
    Step::Out("FISU bsn 127 bib 1 fsn 127 fib 1 false"),
    Step::Hear(0x80, 0xff, false, None, false),
    Step::Hear(0x81, 0xff, false, None, false),
    Step::Put(3),
    Step::Out("MSU bsn 127 bib 1 fsn 0 fib 1 sio 03 octets 3 true"),
    Step::Hear(0x80, 0xff, false, Some(false), false),
];

#[test]
fn discards_units_behind_odd_ones(rt: HostRuntime) {
    let well = Some([None; 2]);
    assert_eq!(rt; first_others(rt.alloc(), &DISCARDS_BEHIND_ODD), well);
    assert_eq!(rt; first_others(rt.alloc(), &CLEARS), well);
}
