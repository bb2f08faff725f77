//! Laws over the definitions that the contracts of this crate cite. Each is the contract of a function without code.
ghost use Rattle.m3ua_frames.specs.Laws.{OneMessage, OneReason, SpelledIsRead, EncodedIsRead, CompletedIsRead, OneCarrier, OneStream, AnyCut};

/// Octets are those of at most one message.
pub fn one_message()
    ensures { OneMessage }
{}

/// Octets that are refused are no message, and are refused for one reason.
pub fn one_reason()
    ensures { OneReason }
{}

/// The octets sent for a message are its octets.
pub fn spelled_is_read()
    ensures { SpelledIsRead }
{}

/// What [`encode`](crate::encode) writes is read as the kind and the parameters that it was given.
pub fn encoded_is_read()
    ensures { EncodedIsRead }
{}

/// The padding of the last parameter changes no parameter.
pub fn completed_is_read()
    ensures { CompletedIsRead }
{}

/// Protocol data is that of at most one MTP message.
pub fn one_carrier()
    ensures { OneCarrier }
{}

/// A stream is one list of messages, headers too long and a broken header. Reading it octet by octet returns that list.
pub fn one_stream()
    ensures { OneStream }
{}

/// The messages of a stream don't depend on how it is cut into pieces.
pub fn any_cut()
    ensures { AnyCut }
{}
