//! Which destinations an ASP is told of.
ghost use Rattle.std.specs.Prelude.{◌≡◌, ◌≤◌, ◌/◌, ◌^◌, ◌++◌, min, List, OnOk, IfOk, length};
ghost use Rattle.std.specs.List.{filter, flat_map};
ghost use Rattle.m3ua_frames.specs.Numbers.{numbers_in};
ghost use Rattle.m3ua_frames.specs.Parameters.{Parameter, AreParameters, value_of};
ghost use Rattle.m3ua_frames.specs.Tags.{AFFECTED};
ghost use Rattle.m3ua_gateway.specs.Destinations.{mask_of, point_code, covers, told, told_of, audited, statuses};
ghost use Rattle.m3ua_gateway.specs.Sending.{AreRead};

use crate::table::Action;
use m3ua_frames::{find, next_number, parameters_of, tag};
use std::alloc::{AllocError, Global};

/// What an ASP is told of an affected point code: DAVA, or DUNA.
#[derive(Clone, Copy, Debug, PartialEq, Eq)]
pub struct Status {
    /// Whether it is available.
    pub available: bool,
    /// The affected point code, with its mask in the highest octet.
    pub affected: u32,
}

/// The point code of an affected point code, without its mask.
fn point_code(affected: u32) -> u32
    ensures { result ≡ point_code affected }
{
    affected % 0x0100_0000
}

/// The number that is 2 to the power of how many lowest bits may be any.
fn span_of(affected: u32) -> u32
    ensures { result ≡ 2 ^ min (mask_of affected) 24 }
{
    let mask = affected / 0x0100_0000;
    if mask < 24 { 1 << mask } else { 0x0100_0000 }
}

/// Whether an affected point code stands for this point code (RFC 4666, 3.4.1).
fn covers(affected: u32, code: u32) -> bool
    ensures { result ≡ covers affected code }
{
    let span = span_of(affected);
    point_code(code) / span == point_code(affected) / span
}

/// Appends what is told of each destination.
fn tell_all(
    statuses: &mut Vec<Status>,
    destinations: &[u32],
    reached: bool,
) -> Result<(), AllocError>
    ensures { OnOk result (statuses.new.items ≡ statuses.old.items ++ told reached destinations.now) }
{
    for code in destinations {
        let affected = point_code(*code);
        statuses.push(Status {
            available: reached,
            affected,
        })?;
    }
    Ok(())
}

/// Appends the destinations that an affected point code stands for.
fn push_covered(codes: &mut Vec<u32>, destinations: &[u32], affected: u32) -> Result<(), AllocError>
    ensures { OnOk result (codes.new.items ≡ codes.old.items ++ filter (covers affected) destinations.now) }
{
    for code in destinations {
        if covers(affected, *code) {
            codes.push(*code)?;
        }
    }
    Ok(())
}

/// Appends what is told of an affected point code.
fn tell_of(
    alloc: Global,
    statuses: &mut Vec<Status>,
    destinations: &[u32],
    reached: bool,
    affected: u32,
) -> Result<(), AllocError>
    ensures { OnOk result (statuses.new.items ≡ statuses.old.items ++ told_of destinations.now reached affected) }
{
    let mut codes = Vec::new(alloc);
    push_covered(&mut codes, destinations, affected)?;
    if codes.is_empty() {
        statuses.push(Status {
            available: false,
            affected,
        })?;
        return Ok(());
    }
    tell_all(statuses, codes.as_slice(), reached)
}

/// Appends what is told of each affected point code in octets.
fn tell_each(
    alloc: Global,
    statuses: &mut Vec<Status>,
    destinations: &[u32],
    reached: bool,
    octets: &[u8],
) -> Result<(), AllocError>
    ensures { OnOk result (statuses.new.items ≡ statuses.old.items ++ flat_map (told_of destinations.now reached) (numbers_in octets.now)) }
{
    let mut rest = octets;
    while let Some((affected, after)) = next_number(rest) {
        tell_of(alloc, statuses, destinations, reached, affected)?;
        rest = after;
    }
    Ok(())
}

/// What an ASP is told of all destinations.
fn all_told(alloc: Global, destinations: &[u32], reached: bool) -> Result<Vec<Status>, AllocError>
    ensures { IfOk result (λ statuses. statuses.items ≡ told reached destinations.now) }
{
    let mut statuses = Vec::new(alloc);
    tell_all(&mut statuses, destinations, reached)?;
    Ok(statuses)
}

/// What an ASP is told of the affected point codes of a DAUD.
fn audited(
    alloc: Global,
    destinations: &[u32],
    reached: bool,
    parameters: &[u8],
) -> Result<Vec<Status>, AllocError>
    ensures { (ps : List Parameter) → AreParameters parameters.now ps
        → IfOk result (λ statuses. statuses.items ≡ audited destinations.now reached (value_of AFFECTED ps)) }
{
    let mut statuses = Vec::new(alloc);
    match find(parameters, tag::AFFECTED) {
        None => Ok(statuses),
        Some(value) => {
            tell_each(alloc, &mut statuses, destinations, reached, value)?;
            Ok(statuses)
        }
    }
}

/// What an action tells an ASP of these destinations, while they are reached or not: of all of them, or of those that a
/// DAUD that was heard asks for. Each status is one message, which [`destination`](crate::destination) writes.
///
/// # Errors
///
/// Out of memory.
pub fn statuses(
    alloc: Global,
    action: Action,
    destinations: &[u32],
    reached: bool,
    heard: &[u8],
) -> Result<Vec<Status>, AllocError>
    requires { length heard.now ≤ 4096 }
    ensures { (ps : List Parameter) → AreRead action heard.now ps
        → IfOk result (λ told. told.items ≡ statuses action destinations.now reached ps) }
{
    match action {
        Action::Destinations => all_told(alloc, destinations, reached),
        Action::Audited => audited(alloc, destinations, reached, parameters_of(heard)),
        Action::UpAck => Ok(Vec::new(alloc)),
        Action::DownAck => Ok(Vec::new(alloc)),
        Action::BeatAck => Ok(Vec::new(alloc)),
        Action::ActiveAck => Ok(Vec::new(alloc)),
        Action::InactiveAck => Ok(Vec::new(alloc)),
        Action::Notify(_) => Ok(Vec::new(alloc)),
        Action::Error(_) => Ok(Vec::new(alloc)),
        Action::Refuse => Ok(Vec::new(alloc)),
        Action::Registered => Ok(Vec::new(alloc)),
        Action::Take => Ok(Vec::new(alloc)),
        Action::Count => Ok(Vec::new(alloc)),
        Action::Release => Ok(Vec::new(alloc)),
        Action::Lose => Ok(Vec::new(alloc)),
    }
}
