//! Sequence numbers modulo 128.
ghost use Rattle.std.specs.Prelude.{◌≡◌, ◌<◌, ◌≤◌};
ghost use Rattle.resend_store.specs.Numbers.{plus, minus};

/// The number `further` steps after `number`.
pub(crate) const fn plus(number: u8, further: u8) -> u8
    requires number { number < 128 }
    requires further { further < 128 }
    ensures value { result ≡ plus number further }
    ensures within { result < 128 }
{
    (number + further) % 128
}

/// The number of steps from `other` up to `number`.
pub(crate) const fn minus(number: u8, other: u8) -> u8
    requires number { number < 128 }
    requires other { other < 128 }
    ensures value { result ≡ minus number other }
    ensures within { result < 128 }
{
    (number + 128 - other) % 128
}
