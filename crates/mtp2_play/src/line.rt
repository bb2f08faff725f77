//! The command `line`: one end of a link on its line.

pub mod allowance;
pub mod captures;
pub mod command;
pub mod measuring;
pub mod order_fronts;
pub mod running;
pub mod traced;
pub mod traces;
