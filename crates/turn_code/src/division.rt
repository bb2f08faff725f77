//! Divisions of an Integer by a divisor of 1 or more.

ghost use Rattle.std.specs.Prelude.{◌≡◌, ◌≤ℤ◌, pos};
ghost use Rattle.turn_code.specs.Division.{division_of};

/// Which result of a division is meant.
#[derive(Clone, Copy)]
pub enum Division {
    /// The quotient, cut towards zero.
    Quotient,
    /// The remainder from 0 to one less than the divisor.
    Modulo,
    /// The remainder with the dividend's sign.
    Remainder,
}

impl Division {
    /// The result of the division, for a divisor of 1 or more.
    pub fn apply(self, dividend: i32, divisor: i32) -> i32
        requires { pos 1 ≤ℤ divisor }
        ensures { result ≡ division_of self dividend divisor }
    {
        match self {
            Division::Quotient => dividend / divisor,
            Division::Modulo => dividend.rem_euclid(divisor),
            Division::Remainder => dividend % divisor,
        }
    }
}
