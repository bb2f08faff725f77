//! Notes for signals with no receiver or with several (S5, S6).
use script_point::{ListedWord, Notes, PlacedPart, push_all, push_items, push_number, standing_at};
use sdl_lex::{Name, line_of};
use sdl_measures::{find_links, reached_in};
use sdl_tables::{BlockTable, InputPart, ProcessTable};
use sdl_tree::{Action, Destination, Identifier, Output, Party, Stimulus};
use std::alloc::{AllocError, Global};

/// A signal that is sent, and its sender.
#[derive(Clone, Copy)]
struct Sent<'a, 'b> {
    block: &'a BlockTable<'b>,
    process: &'a ProcessTable<'b>,
    signal: Name,
}

impl Sent<'_, '_> {
    /// The process that sends it.
    fn own(&self) -> Party {
        Party::Process(self.process.process().name)
    }

    /// The name of the process that sends it.
    fn own_name(&self) -> Name {
        self.process.process().name.name
    }
}

/// Why a signal TO SENDER has no receiver.
#[derive(Clone, Copy)]
enum Lost {
    /// START has no sender.
    Start,
    /// A timer's signal has no sender.
    Timer(Name),
    /// No route carries the reply to a party that may have sent this signal.
    NoWay(Name, Party),
}

/// The beginning of a transition.
#[derive(Clone, Copy)]
enum Beginning<'a> {
    Start,
    Input(&'a InputPart),
    Connection(usize),
}

/// The OUTPUT that sends a signal at a place of a process, and that signal.
fn output_at<'a>(process: &ProcessTable<'a>, at: u32) -> Option<(&'a Output, Identifier)> {
    let found = standing_at(process.process(), at)?;
    match found.standing {
        PlacedPart::Action(Action::Output(output)) => {
            let signal = signal_at(output, at)?;
            Some((output, signal))
        }
        _ => None,
    }
}

/// The signal that an OUTPUT sends at a place.
fn signal_at(output: &Output, at: u32) -> Option<Identifier> {
    for sending in &output.sendings {
        if sending.signal.at == at {
            return Some(sending.signal);
        }
    }
    None
}

/// The last INPUT that begins before a place.
fn input_before<'a>(process: &ProcessTable<'a>, at: u32) -> Option<&'a InputPart> {
    let mut found: Option<&'a InputPart> = None;
    for part in process.parts() {
        if part.at <= at {
            found = Some(*part);
        }
    }
    found
}

/// The number of the last connection that begins before a place, and where it begins.
fn connection_before(process: &ProcessTable, at: u32) -> Option<(usize, u32)> {
    let mut found = None;
    for (number, connection) in process.process().connections.iter().enumerate() {
        if connection.at <= at {
            found = Some((number, connection.at));
        }
    }
    found
}

/// The beginning of the transition that contains a place.
fn beginning_of<'a>(process: &ProcessTable<'a>, at: u32) -> Beginning<'a> {
    match (input_before(process, at), connection_before(process, at)) {
        (Some(part), Some((_, begins))) if part.at > begins => Beginning::Input(part),
        (_, Some((number, _))) => Beginning::Connection(number),
        (Some(part), None) => Beginning::Input(part),
        (None, None) => Beginning::Start,
    }
}

/// A possible sender of the input's signal to which no route leads back, if there is one.
fn lost_sender(sent: &Sent<'_, '_>, stimulus: &Stimulus) -> Option<Lost> {
    let name = stimulus.name.name;
    if sent.process.timers().contains(name) {
        return Some(Lost::Timer(name));
    }
    for sender in sent.block.senders(&sent.own(), name) {
        if !sent.block.carries(&sent.own(), sender, sent.signal) {
            return Some(Lost::NoWay(name, *sender));
        }
    }
    None
}

/// Why a reply in the transition of an INPUT has no receiver, if it has none.
fn lost_by(sent: &Sent<'_, '_>, part: &InputPart) -> Option<Lost> {
    for stimulus in &part.stimuli {
        let lost = lost_sender(sent, stimulus);
        if lost.is_some() {
            return lost;
        }
    }
    None
}

/// Whether the mark with this number is set.
fn is_marked(marks: &[bool], number: usize) -> bool {
    match marks.get(number) {
        Some(mark) => *mark,
        None => false,
    }
}

/// Why a reply in a connection has no receiver, and where a transition begins that leads to the connection.
fn lost_in(
    alloc: Global,
    sent: &Sent<'_, '_>,
    number: usize,
) -> Result<Option<(Lost, u32)>, AllocError> {
    let links = find_links(alloc, sent.process)?;
    let start = &sent.process.process().start;
    let marks = reached_in(alloc, sent.process, &links, &start.transition)?;
    if is_marked(&marks, number) {
        return Ok(Some((Lost::Start, start.at)));
    }
    for part in sent.process.parts() {
        let lost = lost_by(sent, part);
        let marks = reached_in(alloc, sent.process, &links, &part.transition)?;
        match lost {
            Some(lost) if is_marked(&marks, number) => return Ok(Some((lost, part.at))),
            _ => {}
        }
    }
    Ok(None)
}

/// The name of a party.
fn party_name(party: &Party) -> &str {
    match party {
        Party::Environment => "ENV",
        Party::Process(id) => id.name.as_str(),
    }
}

/// Adds the note for a signal TO SENDER.
fn add_lost(notes: &mut Notes, sent: &Sent<'_, '_>, lost: &Lost) -> Result<(), AllocError> {
    let said = &mut notes.said;
    match lost {
        Lost::Start => said.push_str("START has no sender"),
        Lost::Timer(timer) => push_all(said, &["the timer ", timer.as_str(), " has no sender"]),
        Lost::NoWay(signal, party) => {
            let own = sent.own_name();
            let back = sent.signal.as_str();
            push_all(said, &["no route carries ", back])?;
            push_all(said, &[" from ", own.as_str()])?;
            push_all(said, &[" back to ", party_name(party)])?;
            push_all(said, &[", which may have sent ", signal.as_str()])
        }
    }
}

/// Adds the hint which transition leads to a connection.
fn add_way(
    alloc: Global,
    notes: &mut Notes,
    sent: &Sent<'_, '_>,
    number: usize,
    line: usize,
) -> Result<(), AllocError> {
    match sent.process.process().connections.get(number) {
        Some(connection) => {
            notes.hint.push_str("the transition of line ")?;
            push_number(alloc, &mut notes.hint, line)?;
            let name = connection.name.name.as_str();
            push_all(&mut notes.hint, &[" comes to CONNECTION ", name])
        }
        None => Ok(()),
    }
}

/// Adds the notes for a connection that sends TO SENDER, and for the transition that leads there.
fn to_sender_in(
    alloc: Global,
    notes: &mut Notes,
    sent: &Sent<'_, '_>,
    number: usize,
    text: &str,
) -> Result<(), AllocError> {
    match lost_in(alloc, sent, number)? {
        Some((lost, begins)) => {
            add_lost(notes, sent, &lost)?;
            add_way(alloc, notes, sent, number, line_of(text, begins))
        }
        None => Ok(()),
    }
}

/// Adds the notes for an OUTPUT TO SENDER at a place.
fn to_sender(
    alloc: Global,
    notes: &mut Notes,
    sent: &Sent<'_, '_>,
    text: &str,
    at: u32,
) -> Result<(), AllocError> {
    match beginning_of(sent.process, at) {
        Beginning::Start => add_lost(notes, sent, &Lost::Start),
        Beginning::Input(part) => match lost_by(sent, part) {
            Some(lost) => add_lost(notes, sent, &lost),
            None => Ok(()),
        },
        Beginning::Connection(number) => to_sender_in(alloc, notes, sent, number, text),
    }
}

/// Adds the notes for an OUTPUT at a place that no route carries, or that has no sender as its receiver.
pub(crate) fn no_receiver(
    alloc: Global,
    notes: &mut Notes,
    block: &BlockTable<'_>,
    process: &ProcessTable<'_>,
    text: &str,
    at: u32,
) -> Result<(), AllocError> {
    let Some((output, id)) = output_at(process, at) else {
        return Ok(());
    };
    let sent = Sent {
        block,
        process,
        signal: id.name,
    };
    let own = sent.own_name();
    let words = [
        "no route carries ",
        id.name.as_str(),
        " from ",
        own.as_str(),
    ];
    match output.to {
        Some(Destination::Sender(_)) => to_sender(alloc, notes, &sent, text, at),
        Some(Destination::Process(to)) => {
            push_all(&mut notes.said, &words)?;
            push_all(&mut notes.said, &[" to ", to.name.as_str()])
        }
        None => push_all(&mut notes.said, &words),
    }
}

/// The names of parties; if `processes`, only those of processes.
fn party_items<'a>(
    alloc: Global,
    parties: &'a [Party],
    processes: bool,
) -> Result<Vec<ListedWord<'a>>, AllocError> {
    let mut items = Vec::new(alloc);
    for party in parties {
        if !processes || *party != Party::Environment {
            items.push(ListedWord {
                text: party_name(party),
                is_sign: false,
            })?;
        }
    }
    Ok(items)
}

/// Adds the notes for an OUTPUT at a place that names no receiver and that routes carry to several.
pub(crate) fn two_receivers(
    alloc: Global,
    notes: &mut Notes,
    block: &BlockTable<'_>,
    process: &ProcessTable<'_>,
    at: u32,
) -> Result<(), AllocError> {
    let Some((_, id)) = output_at(process, at) else {
        return Ok(());
    };
    let own = process.process().name;
    let parties = block.receivers(&Party::Process(own), id.name);
    let words = [
        "routes carry ",
        id.name.as_str(),
        " from ",
        own.name.as_str(),
    ];
    push_all(&mut notes.said, &words)?;
    let all = party_items(alloc, parties, false)?;
    push_all(&mut notes.said, &[" to "])?;
    push_items(&mut notes.said, &all, "", " and ")?;
    add_addresses(alloc, notes, parties)
}

/// Adds the hint how to name each process among these parties.
fn add_addresses(alloc: Global, notes: &mut Notes, parties: &[Party]) -> Result<(), AllocError> {
    let processes = party_items(alloc, parties, true)?;
    notes.hint.push_str("write ")?;
    push_items(&mut notes.hint, &processes, "TO ", " or ")
}
