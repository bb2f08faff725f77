//! Processes, and the block that holds them.
ghost use Rattle.std.specs.Prelude.{◌≡◌, ℕ, map, Some};
ghost use Rattle.sdl_lex.specs.declared.lexemes.Symbol.TheVariants as symbols;
ghost use Rattle.sdl_productions.specs.Readings.{token, optional};
ghost use Rattle.sdl_ast.specs.Plain.{PlainEntity, process, process_head};
ghost use Rattle.sdl_tree.specs.SectionViews.{head_of};
ghost use Rattle.sdl_productions.specs.BodyViews.{marked_view};
ghost use Rattle.sdl_productions.specs.Marks.{Marked, map_marked, body_marked, start_marked, process_marked};
ghost use Rattle.sdl_productions.specs.MarkedParts.{marked_process, marked_entity, marked_block};
ghost use Rattle.sdl_productions.specs.Productions.{second_number_at, instances_at, process_head_at};
ghost use Rattle.sdl_productions.specs.Tokens.{a_number, the_number, a_symbol, an_entity};
ghost use Rattle.sdl_ast.specs.Views.{declaration_of, start_of, state_of, connection_of, entity_of, block_of};
ghost use Rattle.sdl_productions.specs.Mirrors.{Mirrors, same};
ghost use Rattle.sdl_productions.proofs.MarkedLengths.{marked_entity_takes, marked_entity_keeps};

use crate::attempt::attempt;
use crate::declarations::{read_block_synonyms, read_connect, read_route, read_signals};
use crate::endings::{read_closing, terminator};
use crate::production::{Listed, Production, read_many};
use crate::sections::{Sections, parted};
use crate::transitions::{Section, read_start};
use sdl_ast::{Block, Connection, Declaration, Entity, Identifier, Process, Start, StatePart};
use sdl_lex::{Symbol, Token, Word};
use sdl_productions::{
    AnyCount, AnyEntity, AnyName, AnyNumber, Marked, Stop, ThatNumber, gathered, stands_next, take,
};
use std::alloc::Global;

/// Reads `[number]`. The number must be equal to the given one.
fn read_optional_number<'a>(
    first: u32,
    tokens: &'a [Token],
) -> Result<(Option<u32>, &'a [Token]), Stop<'a>>
    ensures { Mirrors same result (optional a_number (token (the_number first)) tokens.now) }
{
    if !stands_next(tokens, AnyNumber) {
        return Ok((None, tokens));
    }
    let (found, rest) = attempt!(take(tokens, ThatNumber(first)));
    Ok((Some(found), rest))
}

/// Reads `, [number]`. The number must be equal to the given one.
#[tactic(auto, unfolding(sdl_productions::specs::Productions::second_number_at))]
fn read_second<'a>(first: u32, tokens: &'a [Token]) -> Result<(Option<u32>, &'a [Token]), Stop<'a>>
    ensures { Mirrors same result (second_number_at first tokens.now) }
{
    let (_, rest) = attempt!(take(tokens, Symbol::Comma));
    Ok(attempt!(read_optional_number(first, rest)))
}

/// Reads `[ , [number] ]`. The number must be equal to the given one.
fn read_optional_second<'a>(
    first: u32,
    tokens: &'a [Token],
) -> Result<(Option<Option<u32>>, &'a [Token]), Stop<'a>>
    ensures { Mirrors same result (optional (a_symbol symbols.Comma) (second_number_at first) tokens.now) }
{
    if !stands_next(tokens, Symbol::Comma) {
        return Ok((None, tokens));
    }
    let (found, rest) = attempt!(read_second(first, tokens));
    Ok((Some(found), rest))
}

/// Reads `( number [ , [number] ] )`: the initial and the maximum number of instances, which must be equal.
#[tactic(auto, unfolding(sdl_productions::specs::Productions::instances_at))]
fn read_instances<'a>(tokens: &'a [Token]) -> Result<(u32, &'a [Token]), Stop<'a>>
    ensures { Mirrors same result (instances_at tokens.now) }
{
    let (_, rest) = attempt!(take(tokens, Symbol::Open));
    let (first, rest) = attempt!(take(rest, AnyCount));
    let (_, rest) = attempt!(read_optional_second(first, rest));
    let (_, rest) = attempt!(take(rest, Symbol::Close));
    Ok((first, rest))
}

/// Reads `[ ( number [ , [number] ] ) ]`.
fn read_optional_instances<'a>(tokens: &'a [Token]) -> Result<(Option<u32>, &'a [Token]), Stop<'a>>
    ensures { Mirrors same result (optional (a_symbol symbols.Open) instances_at tokens.now) }
{
    if !stands_next(tokens, Symbol::Open) {
        return Ok((None, tokens));
    }
    let (found, rest) = attempt!(read_instances(tokens));
    Ok((Some(found), rest))
}

/// The heading of a process: its name, and the number of instances that run.
#[derive(Clone, Copy)]
pub(crate) struct ProcessHead {
    name: Identifier,
    instances: u32,
}

/// The heading of a process. If no number is written, there is one instance.
fn head_with(name: Identifier, instances: Option<u32>) -> ProcessHead
    ensures { head_of result ≡ process_head name instances }
{
    match instances {
        Some(instances) => ProcessHead { name, instances },
        None => ProcessHead { name, instances: 1 },
    }
}

/// Reads `PROCESS name [ ( number [, [number]] ) ] ;`.
#[tactic(auto, unfolding(sdl_productions::specs::Productions::process_head_at))]
fn read_process_head<'a>(tokens: &'a [Token]) -> Result<(ProcessHead, &'a [Token]), Stop<'a>>
    ensures { Mirrors head_of result (process_head_at tokens.now) }
{
    let (_, rest) = attempt!(take(tokens, Word::Process));
    let (name, rest) = attempt!(take(rest, AnyName));
    let (instances, rest) = attempt!(read_optional_instances(rest));
    let (_, rest) = attempt!(terminator(rest));
    Ok((head_with(name, instances), rest))
}

/// The part of a process before its START.
#[derive(Drop)]
struct ProcessFront {
    name: Identifier,
    instances: u32,
    declarations: Vec<Declaration>,
}

/// The process, or the lesser of the marks. STATE parts and CONNECTIONs are mixed in the text.
fn body_of(
    front: ProcessFront,
    start: Start,
    states: Marked<Vec<StatePart>>,
    connections: Marked<Vec<Connection>>,
) -> Marked<Entity>
    ensures { marked_view entity_of result ≡ map_marked (λ p. process p) (body_marked (process_head front.name (Some front.instances)) (map declaration_of front.declarations.items) (start_of start) (marked_view (λ v. map state_of v.items) states) (marked_view (λ v. map connection_of v.items) connections)) }
{
    let ProcessFront {
        name,
        instances,
        declarations,
    } = front;
    match (states, connections) {
        (Marked::Kept(states), Marked::Kept(connections)) => {
            Marked::Kept(Entity::Process(Process {
                name,
                instances,
                declarations,
                start,
                states,
                connections,
            }))
        }
        (Marked::Kept(_), Marked::TooHigh(at)) => Marked::TooHigh(at),
        (Marked::TooHigh(at), Marked::Kept(_)) => Marked::TooHigh(at),
        (Marked::TooHigh(at), Marked::TooHigh(other)) => Marked::TooHigh(at.min(other)),
    }
}

/// The process, or the first mark in its START or after it.
fn started(
    front: ProcessFront,
    start: Marked<Start>,
    states: Marked<Vec<StatePart>>,
    connections: Marked<Vec<Connection>>,
) -> Marked<Entity>
    ensures { marked_view entity_of result ≡ map_marked (λ p. process p) (start_marked (process_head front.name (Some front.instances)) (map declaration_of front.declarations.items) (marked_view start_of start) (marked_view (λ v. map state_of v.items) states) (marked_view (λ v. map connection_of v.items) connections)) }
{
    match start {
        Marked::Kept(start) => body_of(front, start, states, connections),
        Marked::TooHigh(at) => Marked::TooHigh(at),
    }
}

/// What follows the declarations of a process.
#[derive(Drop)]
struct ProcessBody {
    start: Marked<Start>,
    states: Marked<Vec<StatePart>>,
    connections: Marked<Vec<Connection>>,
}

/// A process, where nothing in it is too high.
fn process_of(
    head: ProcessHead,
    declarations: Marked<Vec<Declaration>>,
    body: ProcessBody,
) -> Marked<Entity>
    ensures { marked_view entity_of result ≡ map_marked (λ p. process p) (process_marked (head_of head) (marked_view (λ v. map declaration_of v.items) declarations) (marked_view start_of body.start) (marked_view (λ v. map state_of v.items) body.states) (marked_view (λ v. map connection_of v.items) body.connections)) }
{
    let ProcessHead { name, instances } = head;
    let ProcessBody {
        start,
        states,
        connections,
    } = body;
    match declarations {
        Marked::Kept(declarations) => {
            let front = ProcessFront {
                name,
                instances,
                declarations,
            };
            started(front, start, states, connections)
        }
        Marked::TooHigh(at) => Marked::TooHigh(at),
    }
}

/// Reads a PROCESS.
#[tactic(auto, unfolding(sdl_productions::specs::MarkedParts::marked_process))]
fn read_process<'a>(
    alloc: Global,
    tokens: &'a [Token],
) -> Result<(Marked<Entity>, &'a [Token]), Stop<'a>>
    ensures { Mirrors (marked_view entity_of) result (marked_process tokens.now) }
{
    let (ProcessHead { name, instances }, rest) = attempt!(read_process_head(tokens));
    let (declarations, rest) = attempt!(read_many::<Marked<Declaration>>(alloc, rest));
    let (start, rest) = attempt!(read_start(alloc, rest));
    let (sections, rest) = attempt!(read_many::<Section>(alloc, rest));
    let (_, rest) = attempt!(take(rest, Word::EndProcess));
    let (_, rest) = attempt!(read_closing(rest, name.name));
    let declarations = attempt!(gathered(alloc, declarations));
    let Sections {
        states,
        connections,
    } = attempt!(parted(alloc, sections));
    let states = attempt!(gathered(alloc, states));
    let connections = attempt!(gathered(alloc, connections));
    let head = ProcessHead { name, instances };
    let body = ProcessBody {
        start,
        states,
        connections,
    };
    Ok((process_of(head, declarations, body), rest))
}

impl Production for Marked<Entity> {
    ghost Plain = { Marked PlainEntity };

    ghost view = { marked_view entity_of };

    ghost reading = { marked_entity };

    ghost never_longer = { marked_entity_keeps };

    #[tactic(auto, unfolding(sdl_productions::specs::MarkedParts::marked_entity))]
    fn read<'a>(
        alloc: Global,
        tokens: &'a [Token],
    ) -> Result<(Marked<Entity>, &'a [Token]), Stop<'a>> {
        if stands_next(tokens, Word::Signal) {
            let (entity, rest) = attempt!(read_signals(alloc, tokens));
            return Ok((Marked::Kept(entity), rest));
        }
        if stands_next(tokens, Word::SignalRoute) {
            let (entity, rest) = attempt!(read_route(alloc, tokens));
            return Ok((Marked::Kept(entity), rest));
        }
        if stands_next(tokens, Word::Connect) {
            let (entity, rest) = attempt!(read_connect(alloc, tokens));
            return Ok((Marked::Kept(entity), rest));
        }
        if stands_next(tokens, Word::Synonym) {
            return Ok(attempt!(read_block_synonyms(alloc, tokens)));
        }
        Ok(attempt!(read_process(alloc, tokens)))
    }
}

impl Listed for Marked<Entity> {
    ghost starts = { an_entity };

    ghost shortens = { marked_entity_takes };

    fn is_next(tokens: &[Token]) -> bool {
        stands_next(tokens, AnyEntity)
    }
}

/// Reads a block.
#[tactic(auto, unfolding(sdl_productions::specs::MarkedParts::marked_block))]
pub fn read_block<'a>(
    alloc: Global,
    tokens: &'a [Token],
) -> Result<(Marked<Block>, &'a [Token]), Stop<'a>>
    ensures { Mirrors (marked_view block_of) result (marked_block tokens.now) }
{
    let (_, rest) = attempt!(take(tokens, Word::Block));
    let (name, rest) = attempt!(take(rest, AnyName));
    let (_, rest) = attempt!(terminator(rest));
    let (entities, rest) = attempt!(read_many::<Marked<Entity>>(alloc, rest));
    let (_, rest) = attempt!(take(rest, Word::EndBlock));
    let (_, rest) = attempt!(read_closing(rest, name.name));
    match attempt!(gathered(alloc, entities)) {
        Marked::Kept(entities) => Ok((Marked::Kept(Block { name, entities }), rest)),
        Marked::TooHigh(at) => Ok((Marked::TooHigh(at), rest)),
    }
}
