//! Laws over the definitions that the contracts of this crate cite. Each is the contract of a function
//! without code, except the last, which encodes and decodes.
ghost use Rattle.std.specs.Prelude.{◌≡◌, Ok};
ghost use Rattle.su_octets.specs.Laws.{RemaindersAdd, CheckIsOneRemainder, OneCheck, OneUnit, OneSpelling};
ghost use Rattle.su_octets.specs.Whole.{IsWhole};

use crate::frames::{decode, encode};
use crate::units::{Unit, UnitFault};
use arrayvec::ArrayVec;

/// The remainder of a sum of polynomials is the sum of their remainders.
pub fn remainders_add()
    ensures { RemaindersAdd }
{}

/// The sum of the two remainders in the check bits is one remainder: that of the sum of the two polynomials.
pub fn check_is_one_remainder()
    ensures { CheckIsOneRemainder }
{}

/// A content has one pair of check octets.
pub fn one_check()
    ensures { OneCheck }
{}

/// Octets are those of at most one unit.
pub fn one_unit()
    ensures { OneUnit }
{}

/// A unit has one list of octets whose spare bits are 0.
pub fn one_spelling()
    ensures { OneSpelling }
{}

/// Encodes the unit and decodes its octets: the result is the same unit.
pub fn through_octets(unit: &Unit) -> Result<Unit, UnitFault>
    requires { IsWhole unit.now }
    ensures { result ≡ Ok unit.now }
{
    let mut octets = ArrayVec::new();
    encode(unit, &mut octets);
    decode(octets.as_slice())
}
