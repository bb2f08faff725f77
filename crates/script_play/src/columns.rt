//! The columns of a chart: its participants, in the order of the text.
ghost use Rattle.std.specs.Prelude.{◌≡◌, ◌+◌, ◌++◌, ◌∷◌, [], List, filter, map, codes, if◌then◌else◌, OnOk, IfOk};
ghost use Rattle.std.specs.List.{list_any};
ghost use Rattle.turn_check.specs.Named.{instances_at};
ghost use Rattle.script_lines.specs.Replies.{sender_text};
ghost use Rattle.actor_machine.specs.Names.{same_actor, named, instances_from, actors_of};
ghost use Rattle.script_play.specs.Charted.{head_of, takes_part, HasMore, HasColumns};

use crate::chart_rows::push_actor_quoted;
use actor_machine::ActorName;
use std::alloc::{AllocError, Global};
use turn_check::Verified;
use turn_code::{InstanceNumber, ProcessNumber};

/// Columns under way: their heads, with a comma and a space before each, and their number.
#[derive(Drop)]
pub(crate) struct Columns {
    pub(crate) text: Vec<u8>,
    pub(crate) count: u64,
}

impl Columns {
    /// The column of ENV, if `environment` is true; else no column.
    pub(crate) fn new(alloc: Global, environment: bool) -> Result<Columns, AllocError>
        ensures { IfOk result (λ c. HasColumns (if environment then codes "ENV" ∷ [] else []) c) }
    {
        if !environment {
            return Ok(Columns {
                text: Vec::new(alloc),
                count: 0,
            });
        }
        let text = Vec::from_slice(alloc, b", \"ENV\" [label=\"ENV\"]")?;
        Ok(Columns { text, count: 1 })
    }
}

/// A number of processes or of instances as an octet; an error if it doesn't fit.
fn narrow(number: usize) -> Result<u8, AllocError>
    ensures { IfOk result (λ n. n ≡ number) }
{
    match u8::try_from(number) {
        Ok(narrow) => Ok(narrow),
        Err(_) => Err(AllocError),
    }
}

/// Whether an actor is one of these.
pub(crate) fn has(actors: &[ActorName], actor: ActorName) -> bool
    ensures { result ≡ takes_part actors.now actor }
{
    actors.iter().any(|it| it.same(actor))
}

/// Appends an actor as a column head of a chart.
fn push_named(
    alloc: Global,
    text: &mut Vec<u8>,
    set: &Verified,
    actor: ActorName,
) -> Result<(), AllocError>
    ensures { OnOk result (text.new.items ≡ text.old.items ++ head_of (sender_text set.now actor)) }
{
    push_actor_quoted(alloc, text, set, actor)?;
    text.extend_from_slice(b" [label=")?;
    push_actor_quoted(alloc, text, set, actor)?;
    Ok(text.push(b']')?)
}

/// A number plus one; an error if it exceeds 64 bits.
fn one_more(count: u64) -> Result<u64, AllocError>
    ensures { IfOk result (λ n. n ≡ count + 1) }
{
    match count.checked_add(1) {
        Some(more) => Ok(more),
        None => Err(AllocError),
    }
}

/// Appends the column of an actor.
fn push_column(
    alloc: Global,
    columns: &mut Columns,
    set: &Verified,
    actor: ActorName,
) -> Result<(), AllocError>
    ensures { OnOk result (HasMore (sender_text set.now actor ∷ []) columns.old columns.new) }
{
    columns.text.extend_from_slice(b", ")?;
    push_named(alloc, &mut columns.text, set, actor)?;
    columns.count = one_more(columns.count)?;
    Ok(())
}

/// Appends the column of an actor, if it is one of these.
fn push_where(
    alloc: Global,
    columns: &mut Columns,
    set: &Verified,
    actors: &[ActorName],
    actor: ActorName,
) -> Result<(), AllocError>
    ensures { OnOk result (HasMore (map (sender_text set.now) (filter (takes_part actors.now) (actor ∷ []))) columns.old columns.new) }
{
    if has(actors, actor) {
        return push_column(alloc, columns, set, actor);
    }
    Ok(())
}

/// Appends the columns of those instances of a process that are among these.
fn push_instances(
    alloc: Global,
    columns: &mut Columns,
    set: &Verified,
    actors: &[ActorName],
    process: ProcessNumber,
) -> Result<(), AllocError>
    ensures { OnOk result (HasMore (map (sender_text set.now) (filter (takes_part actors.now) (instances_from process.0 1 (instances_at set.now process.0)))) columns.old columns.new) }
{
    for number in 0..set.instances(process) {
        let instance = InstanceNumber(narrow(number as usize + 1)?);
        push_where(alloc, columns, set, actors, ActorName { process, instance })?;
    }
    Ok(())
}

/// Appends the columns of those actors of a set that are among these, in the order of the text.
pub(crate) fn push_columns(
    alloc: Global,
    columns: &mut Columns,
    set: &Verified,
    actors: &[ActorName],
) -> Result<(), AllocError>
    ensures { OnOk result (HasMore (map (sender_text set.now) (filter (takes_part actors.now) (actors_of set.now.processes))) columns.old columns.new) }
{
    for process in 0..set.process_count() {
        push_instances(alloc, columns, set, actors, ProcessNumber(narrow(process)?))?;
    }
    Ok(())
}
