//! The limits of forced retransmission (Q.703, 6.4) that the built-in texts carry.
use mtp2_text::{NO_LIMITS, OwnSet, TextLimits, text_limits};
use std::alloc::Global;

/// N1 and N2 by the text `q703`.
const OF_Q703: TextLimits = TextLimits {
    messages: Some(127),
    octets: Some(3_000),
};

/// Whether a built-in text has these limits; none if memory ran out.
fn carries(alloc: Global, set: OwnSet, limits: TextLimits) -> Option<bool> {
    match text_limits(alloc, set.text()) {
        Ok(found) => Some(found == limits),
        Err(_) => None,
    }
}

#[test]
fn q703_has_limits_and_the_others_have_none(rt: HostRuntime) {
    assert_eq!(rt; carries(rt.alloc(), OwnSet::Q703, OF_Q703), Some(true));
    assert_eq!(rt;
        carries(rt.alloc(), OwnSet::Standard, NO_LIMITS),
        Some(true)
    );
    assert_eq!(rt;
        carries(rt.alloc(), OwnSet::Monitors, NO_LIMITS),
        Some(true)
    );
}
