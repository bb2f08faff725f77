//! Copies of the parts of a text that contain no synonym.
ghost use Rattle.std.specs.Prelude.{◌≡◌, map, IfOk};
ghost use Rattle.sdl_ast.specs.Views.{stimulus_of, signal_of, path_of, route_of};

use sdl_ast::{Connect, Path, Route, SignalDeclaration, Stimulus};
use std::alloc::{AllocError, Global};

/// The signals of an INPUT.
pub(crate) fn copy_stimuli(alloc: Global, given: &[Stimulus]) -> Result<Vec<Stimulus>, AllocError>
    ensures { IfOk result (λ copy. map stimulus_of copy.items ≡ map stimulus_of given.now) }
{
    let mut copies = Vec::new(alloc);
    for stimulus in given {
        copies.push(Stimulus {
            name: stimulus.name,
            places: Vec::from_slice(alloc, stimulus.places.as_slice())?,
        })?;
    }
    Ok(copies)
}

/// The signals of a SIGNAL.
pub(crate) fn copy_signals(
    alloc: Global,
    given: &[SignalDeclaration],
) -> Result<Vec<SignalDeclaration>, AllocError>
    ensures { IfOk result (λ copy. map signal_of copy.items ≡ map signal_of given.now) }
{
    let mut copies = Vec::new(alloc);
    for signal in given {
        copies.push(SignalDeclaration {
            name: signal.name,
            parameters: Vec::from_slice(alloc, signal.parameters.as_slice())?,
        })?;
    }
    Ok(copies)
}

/// The paths of a route.
fn copy_paths(alloc: Global, given: &[Path]) -> Result<Vec<Path>, AllocError>
    ensures { IfOk result (λ copy. map path_of copy.items ≡ map path_of given.now) }
{
    let mut copies = Vec::new(alloc);
    for path in given {
        copies.push(Path {
            from: path.from,
            to: path.to,
            signals: Vec::from_slice(alloc, path.signals.as_slice())?,
        })?;
    }
    Ok(copies)
}

/// A route.
pub(crate) fn copy_route(alloc: Global, given: &Route) -> Result<Route, AllocError>
    ensures { IfOk result (λ copy. route_of copy ≡ route_of given.now) }
{
    Ok(Route {
        name: given.name,
        paths: copy_paths(alloc, &given.paths)?,
    })
}

/// A CONNECT.
pub(crate) fn copy_connect(alloc: Global, given: &Connect) -> Result<Connect, AllocError>
    ensures channels { IfOk result (λ copy. copy.channels.items ≡ given.now.channels.items) }
    ensures routes { IfOk result (λ copy. copy.routes.items ≡ given.now.routes.items) }
{
    let channels = Vec::from_slice(alloc, given.channels.as_slice())?;
    let routes = Vec::from_slice(alloc, given.routes.as_slice())?;
    Ok(Connect { channels, routes })
}
