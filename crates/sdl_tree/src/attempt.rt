//! A macro that returns early if a reading stops.

/// The value that was read, or an early return with the reason for stopping. (`?` does this too, but
/// isn't proved yet for a value that has a name in it besides the tokens.)
macro_rules! attempt {
    ($reading:expr) => {
        match $reading {
            Ok(found) => found,
            Err(stop) => return Err(stop),
        }
    };
}

pub(crate) use attempt;
