//! Messages that wait, by their selections.
ghost use Rattle.std.specs.Prelude.{◌≡◌, ◌<◌, ◌++◌, ◌∷◌, None, IfSome, IfNone, length, take, drop, slice_get, Some};
ghost use Rattle.std.specs.Option.{option_copied};
ghost use Rattle.m3ua_gateway.specs.Life.{selection_in, is_of, is_fit, first_of};
ghost use Rattle.m3ua_gateway.specs.Holding.{place_of};

use resend_store::Msu;

/// The selection in a message's label (Q.704, 2.2), 0 where it has none.
fn selection_in(field: &[u8]) -> u8
    ensures { result ≡ selection_in field.now }
{
    match field {
        [_, _, _, last, ..] => *last / 16,
        _ => 0,
    }
}

/// Whether a message has a routing label, and is for level 4.
pub(crate) fn is_fit(msu: &Msu) -> bool
    ensures { result ≡ is_fit msu.now }
{
    msu.sif.as_slice().len() >= 4 && msu.sio % 16 >= 3
}

/// Whether a message is of a selection.
fn is_of(selection: u8, msu: &Msu) -> bool
    ensures { result ≡ is_of selection msu.now }
{
    selection_in(msu.sif.as_slice()) == selection
}

/// The place of the first message of a selection.
pub(crate) fn place_in(selection: u8, messages: &[Msu]) -> Option<usize>
    ensures value { result ≡ place_of selection messages.now }
    ensures within { IfSome result (λ place. place < length messages.now) }
{
    for (place, msu) in messages.iter().enumerate() {
        if is_of(selection, msu) {
            return Some(place);
        }
    }
    None
}

/// The first message of a selection.
pub(crate) fn first_in(selection: u8, messages: &[Msu]) -> Option<&Msu>
    ensures { option_copied result ≡ first_of selection messages.now }
{
    match place_in(selection, messages) {
        None => None,
        Some(place) => Some(&messages[place]),
    }
}
