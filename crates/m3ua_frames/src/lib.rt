//! M3UA (RFC 4666) as octets: messages and their parameters, the protocol data of DATA and MTP messages, and the
//! messages of a stream, however it is cut. No call can fail because memory runs out.
#![tactic(auto)]

mod faults;
mod frames;
mod kinds;
pub mod laws;
mod numbers;
mod parameters;
mod protocol;
mod stream;
pub mod tag;

pub use faults::Fault;
pub use frames::{Frame, decode, encode, parameters_of};
pub use kinds::Kind;
pub use numbers::{next_number, number_4, push_4};
pub use parameters::{
    are_parameters, find, find_next, push_number, push_parameter, push_parameters,
};
pub use protocol::{ProtocolData, message_of, protocol_data, protocol_data_of, push_protocol_data};
pub use stream::{Deframer, Heard};
