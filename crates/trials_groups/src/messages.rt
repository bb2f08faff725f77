//! Messages that identify themselves: between which points, of which selection, and their number in it.

use arrayvec::ArrayVec;
use group_changeover::label_of;
use resend_store::Msu;

/// The octets after a message's number; a message has the first few.
const FILLER: [u8; 24] = [
    0xFF, 0x7E, 0x00, 0xFE, 0x3F, 0x5A, 0xFF, 0xFF, 0x11, 0x7E, 0x7E, 0xC3, 0x80, 0x01, 0xF8, 0x1F,
    0xAA, 0xFF, 0x3E, 0x99, 0x00, 0x00, 0xF7, 0xEF,
];

/// The origin and the destination of a message.
#[derive(Clone, Copy)]
pub struct Way {
    pub from: u16,
    pub to: u16,
}

/// A label as a number: 14 bits of the destination, 14 of the origin, 4 of the selection.
fn label(way: Way, selection: u8) -> u32 {
    u32::from(way.to)
        .wrapping_add(u32::from(way.from).wrapping_mul(1 << 14))
        .wrapping_add(u32::from(selection).wrapping_mul(1 << 28))
}

/// The message with this number of this selection.
pub fn message(way: Way, selection: u8, number: u32) -> Msu {
    let [a, b, c, d] = label(way, selection).to_le_bytes();
    let [e, f, g, h] = number.to_le_bytes();
    let mut sif = ArrayVec::new();
    for octet in [a, b, c, d, e, f, g, h] {
        let _fits = sif.try_push(octet).is_ok();
    }
    let more = (number % 24) as usize;
    let _fits = sif.try_extend_from_slice(&FILLER[..more]).is_ok();
    Msu { sio: 0x83, sif }
}

/// The selection and the number of a message sent this way, if it is exactly the original.
pub fn place_of(way: Way, msu: &Msu) -> Option<(u8, u32)> {
    let selection = label_of(msu)?.sls;
    match msu.sif.as_slice() {
        [_, _, _, _, e, f, g, h, ..] => {
            let number = u32::from_le_bytes([*e, *f, *g, *h]);
            if msu.sif.as_slice() == message(way, selection, number).sif.as_slice() {
                Some((selection, number))
            } else {
                None
            }
        }
        _ => None,
    }
}
