//! Protocol data and MTP messages.
ghost use Rattle.std.specs.Prelude.{◌≡◌, ◌≤◌, ◌<◌, ◌+◌, ◌^◌, ◌++◌, Some, IfSome, IfNone, IsTrue, ◌↔◌, length};
ghost use Rattle.std.specs.Option.{option_map};
ghost use Rattle.arrayvec.specs.ArrayVec.{array_vec_len};
ghost use Rattle.m3ua_frames.specs.Parameters.{padded};
ghost use Rattle.m3ua_frames.specs.Protocol.{Protocol, view, protocol_octets, protocol_of, IsCarried};
ghost use Rattle.m3ua_frames.specs.Tags.{PROTOCOL_DATA};

use crate::numbers::{number_4, push_2, push_4, push_zeros};
use crate::parameters::padding_after;
use crate::tag;
use arrayvec::ArrayVec;
use resend_store::Msu;

/// The value of a Protocol Data parameter (RFC 4666, 3.3.1).
#[derive(Clone, Copy, Debug)]
pub struct ProtocolData<'a> {
    /// Originating point code.
    pub opc: u32,
    /// Destination point code.
    pub dpc: u32,
    /// Service indicator.
    pub si: u8,
    /// Network indicator.
    pub ni: u8,
    /// Message priority.
    pub mp: u8,
    /// Signalling link selection.
    pub sls: u8,
    /// User protocol data.
    pub user_data: &'a [u8],
}

/// Reads octets as protocol data; `None` if there are fewer than 12.
pub fn protocol_data(octets: &[u8]) -> Option<ProtocolData<'_>>
    ensures found { IfSome result (λ p. octets.now ≡ protocol_octets (view p)) }
    ensures none { IfNone result (length octets.now < 12) }
{
    if octets.len() < 12 {
        return None;
    }
    Some(ProtocolData {
        opc: number_4(octets, 0),
        dpc: number_4(octets, 4),
        si: octets[8],
        ni: octets[9],
        mp: octets[10],
        sls: octets[11],
        user_data: &octets[12..],
    })
}

/// An MTP message as protocol data; `None` if it has no routing label (Q.704, 2.2).
pub fn protocol_data_of(msu: &Msu) -> Option<ProtocolData<'_>>
    ensures { option_map view result ≡ protocol_of msu.now }
{
    match msu.sif.as_slice() {
        [a, b, c, d, user_data @ ..] => {
            let low = *a as u32 + *b as u32 * 0x0100;
            let label = low + *c as u32 * 0x0001_0000 + *d as u32 * 0x0100_0000;
            Some(ProtocolData {
                opc: label / 0x4000 % 0x4000,
                dpc: label % 0x4000,
                si: msu.sio % 16,
                ni: msu.sio / 64,
                mp: msu.sio / 16 % 4,
                sls: (label / 0x1000_0000) as u8,
                user_data,
            })
        }
        _ => None,
    }
}

/// Whether an MTP message can carry this protocol data.
fn is_carried(p: &ProtocolData<'_>) -> bool
    ensures { IsTrue result ↔ IsCarried (view p.now) }
{
    let label = p.opc < 0x4000 && p.dpc < 0x4000 && p.sls < 16;
    let service = p.si < 16 && p.ni < 4 && p.mp < 4;
    label && service && p.user_data.len() <= 268
}

/// The MTP message of protocol data; `None` if a point code has more than 14 bits, the service indicator or the
/// selection more than 4, the network indicator or the priority more than 2, or the data more than 268 octets.
pub fn message_of(p: &ProtocolData<'_>) -> Option<Msu>
    ensures found { IfSome result (λ msu. protocol_of msu ≡ Some (view p.now)) }
    ensures none { IfNone result (IsCarried (view p.now) → ⊥) }
{
    if !is_carried(p) {
        return None;
    }
    let label = p.dpc + p.opc * 0x4000 + p.sls as u32 * 0x1000_0000;
    let mut sif = ArrayVec::new();
    sif.push((label % 0x0100) as u8);
    sif.push((label / 0x0100 % 0x0100) as u8);
    sif.push((label / 0x0001_0000 % 0x0100) as u8);
    sif.push((label / 0x0100_0000) as u8);
    sif.try_extend_from_slice(p.user_data).unwrap();
    Some(Msu {
        sio: p.si + p.mp * 16 + p.ni * 64,
        sif,
    })
}

/// Appends the octets of protocol data.
fn push_fields<const N: usize>(octets: &mut ArrayVec<u8, N>, p: &ProtocolData<'_>)
    requires { array_vec_len octets.old + length p.now.user_data.now + 12 ≤ N }
    ensures items { octets.new.items ≡ octets.old.items ++ protocol_octets (view p.now) }
    ensures len { array_vec_len octets.new ≡ array_vec_len octets.old + (length p.now.user_data.now + 12) }
{
    push_4(octets, p.opc);
    push_4(octets, p.dpc);
    octets.push(p.si);
    octets.push(p.ni);
    octets.push(p.mp);
    octets.push(p.sls);
    octets.try_extend_from_slice(p.user_data).unwrap();
}

/// Appends protocol data as a parameter.
pub fn push_protocol_data<const N: usize>(octets: &mut ArrayVec<u8, N>, p: &ProtocolData<'_>)
    requires fits { length p.now.user_data.now + 16 < 2 ^ 16 }
    requires room { array_vec_len octets.old + length p.now.user_data.now + 19 ≤ N }
    ensures { octets.new.items ≡ octets.old.items ++ padded (record { tag = PROTOCOL_DATA; value = protocol_octets (view p.now) }) }
{
    push_2(octets, tag::PROTOCOL_DATA);
    push_2(octets, p.user_data.len() as u16 + 16);
    push_fields(octets, p);
    push_zeros(octets, padding_after(p.user_data.len() + 12));
}
