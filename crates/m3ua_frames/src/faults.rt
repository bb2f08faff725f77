//! Why octets are no message.
ghost use Rattle.std.specs.Prelude.{◌≡◌};
ghost use Rattle.m3ua_frames.specs.Faults.{code_of};

/// Why octets are no message: the first fault that applies.
#[derive(Clone, Copy, Debug, PartialEq, Eq)]
pub enum Fault {
    /// The octets are fewer than a common header has, or not as many as the header says, with or without the last
    /// padding.
    Length,
    /// The version isn't 1.
    Version,
    /// M3UA has no such class, or it is reserved.
    UnknownClass,
    /// The class has no such type.
    UnknownType,
    /// The octets after the header aren't parameters, or the length of one is wrong.
    Field,
    /// A mandatory parameter is missing.
    Missing,
}

impl Fault {
    /// The error code that reports it (RFC 4666, 3.8.1).
    pub fn code(self) -> u32
        ensures { result ≡ code_of self }
    {
        match self {
            Fault::Version => 0x01,
            Fault::UnknownClass => 0x03,
            Fault::UnknownType => 0x04,
            Fault::Length => 0x07,
            Fault::Field => 0x12,
            Fault::Missing => 0x16,
        }
    }
}
