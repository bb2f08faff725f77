//! The costs of the transitions of a set, line by line.
ghost use Rattle.std.specs.Prelude.{◌≡◌, OnOk, IfOk};
ghost use Rattle.std.specs.Io.KnownBytes.{Appends};
ghost use Rattle.std.specs.List.{flat_map};
ghost use Rattle.script_check.specs.Printed.{trigger_text, start_line, input_line, state_lines, process_lines, set_lines};

use plain_text::write_line;
use std::alloc::{AllocError, Global};
use std::fmt;
use std::io::{self, Write};
use turn_check::Verified;
use turn_code::{Cert, Draft, DraftInput, DraftProcess, DraftState, Trigger};

/// The cost of a transition, as it is printed.
#[derive(Clone, Copy)]
struct Costs(Cert);

impl fmt::Display for Costs {
    ghost use Rattle.std.specs.Prelude.{Some};
    ghost use Rattle.script_check.specs.Printed.{costs_text};

    ghost output = { λ c. Some (costs_text c.0) };

    fn fmt<W: fmt::Write>(&self, f: &mut fmt::Formatter<W>) -> fmt::Result {
        let Cert {
            budget,
            depth,
            effects,
        } = self.0;
        write!(f, "budget {budget} depth {depth} effects {effects}")
    }
}

/// Writes the lines of an accepted set.
pub fn write_set<W: Write>(alloc: Global, writer: &mut W, set: &Verified) -> io::Result<()>
    ensures { OnOk result (Appends (W.contents writer.old) (W.contents writer.new) (set_lines set.now)) }
{
    write_processes(alloc, writer, set.draft())?;
    write_line(alloc, writer, &"accepted")
}

/// Writes the lines of all processes.
fn write_processes<W: Write>(alloc: Global, writer: &mut W, draft: &Draft) -> io::Result<()>
    ensures { OnOk result (Appends (W.contents writer.old) (W.contents writer.new) (flat_map (process_lines draft.now.signals) draft.now.processes)) }
{
    for process in draft.processes.as_slice() {
        write_process(alloc, writer, draft, process)?;
    }
    Ok(())
}

/// Writes the lines of a process.
fn write_process<W: Write>(
    alloc: Global,
    writer: &mut W,
    draft: &Draft,
    process: &DraftProcess,
) -> io::Result<()>
    ensures { OnOk result (Appends (W.contents writer.old) (W.contents writer.new) (process_lines draft.now.signals process.now)) }
{
    let line = start_line(alloc, process)?;
    writer.write_all(&line)?;
    write_states(alloc, writer, draft, process)
}

/// Writes the lines of the states of a process.
fn write_states<W: Write>(
    alloc: Global,
    writer: &mut W,
    draft: &Draft,
    process: &DraftProcess,
) -> io::Result<()>
    ensures { OnOk result (Appends (W.contents writer.old) (W.contents writer.new) (flat_map (state_lines draft.now.signals process.now) process.now.states)) }
{
    for state in process.states.as_slice() {
        write_state(alloc, writer, draft, process, state)?;
    }
    Ok(())
}

/// Writes the lines of a state.
fn write_state<W: Write>(
    alloc: Global,
    writer: &mut W,
    draft: &Draft,
    process: &DraftProcess,
    state: &DraftState,
) -> io::Result<()>
    ensures { OnOk result (Appends (W.contents writer.old) (W.contents writer.new) (state_lines draft.now.signals process.now state.now)) }
{
    for input in state.inputs.as_slice() {
        let line = input_line(alloc, draft, process, state, input)?;
        writer.write_all(&line)?;
    }
    Ok(())
}

/// The line for a START.
fn start_line(alloc: Global, process: &DraftProcess) -> Result<Vec<u8>, AllocError>
    ensures { IfOk result (λ v. v.items ≡ start_line process.now) }
{
    let costs = Costs(process.start.certificate);
    let rest = format!(in alloc; " START {costs}\n")?;
    let mut line = Vec::new(alloc);
    line.extend_from_slice(process.name.as_bytes())?;
    line.extend_from_slice(rest.as_bytes())?;
    Ok(line)
}

/// The line for an input of a state.
fn input_line(
    alloc: Global,
    draft: &Draft,
    process: &DraftProcess,
    state: &DraftState,
    input: &DraftInput,
) -> Result<Vec<u8>, AllocError>
    ensures { IfOk result (λ v. v.items ≡ input_line draft.now.signals process.now state.now input.now) }
{
    let costs = Costs(input.piece.certificate);
    let rest = format!(in alloc; " {costs}\n")?;
    let mut line = Vec::new(alloc);
    line.extend_from_slice(process.name.as_bytes())?;
    line.push(b' ')?;
    line.extend_from_slice(state.name.as_bytes())?;
    line.push(b'/')?;
    line.extend_from_slice(trigger_name(draft, process, input.trigger))?;
    line.extend_from_slice(rest.as_bytes())?;
    Ok(line)
}

/// The name of the signal, or of the timer of the process, that an input takes.
fn trigger_name<'a>(draft: &'a Draft, process: &'a DraftProcess, trigger: Trigger) -> &'a [u8]
    ensures { result.now ≡ trigger_text draft.now.signals process.now.timers trigger }
{
    match trigger {
        Trigger::Signal(number) => match draft.signals.as_slice().get(usize::from(number.0)) {
            Some(signal) => signal.name.as_bytes(),
            None => &[],
        },
        Trigger::Timer(number) => match process.timers.as_slice().get(usize::from(number.0)) {
            Some(name) => name.as_bytes(),
            None => &[],
        },
    }
}
