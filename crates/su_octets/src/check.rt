//! The check bits of a signal unit.
ghost use Rattle.std.specs.Prelude.{◌≡◌, Bool, List, [], ◌∷◌, ◌++◌, reverse};
ghost use Rattle.su_octets.specs.Bits.{bits_of, low_bits};
ghost use Rattle.su_octets.specs.Check.{Check};
ghost use Rattle.su_octets.specs.Register.{Register};

/// The register before the first bit.
const START: u16 = 0xffff;

/// The register after one more octet. Its eight bits enter at once: `fed` holds the ones that each of the eight
/// shifts feeds back. They enter the register at x^0, x^5 and x^12 (Q.703, 4.2).
fn shift_octet(register: u16, octet: u8) -> u16
    ensures { (sent : List Bool) → Register register sent → Register result (reverse (low_bits 8 octet) ++ sent) }
{
    let mixed = (register % 256) as u8 ^ octet;
    let fed = u16::from(mixed << 4 ^ mixed);
    fed >> 4 ^ fed << 3 ^ fed << 8 ^ register >> 8
}

/// The register after all octets.
fn register_of(content: &[u8]) -> u16
    ensures { Register result (reverse (bits_of content.now)) }
{
    let mut register = START;
    for octet in content {
        register = shift_octet(register, *octet);
    }
    register
}

/// The two check octets of the content, which are sent after it (Q.703, 4.2).
pub fn check_bits(content: &[u8]) -> [u8; 2]
    ensures { Check content.now result }
{
    (!register_of(content)).to_le_bytes()
}
