//! Reads ends of transitions, and the parts of a process that contain transitions.
ghost use Rattle.std.specs.Prelude.{◌≡◌, map, Option, None, List};
ghost use Rattle.sdl_lex.specs.declared.lexemes.Word.TheVariants as words;
ghost use Rattle.sdl_productions.specs.Readings.{separated, optional};
ghost use Rattle.sdl_productions.specs.Productions.{stimulus_at, next_state_at, stop_at, join_at, end_at, save_at, end_state_at, end_connection_at};
ghost use Rattle.sdl_productions.specs.Marks.{Marked};
ghost use Rattle.sdl_productions.specs.MarkedParts.{MarkedSection, marked_input, marked_clause, marked_state, marked_connection, marked_section, marked_start};
ghost use Rattle.sdl_productions.specs.Tokens.{a_word, a_clause, a_section, an_end};
ghost use Rattle.sdl_ast.specs.Plain.{PlainStimulus, PlainClause};
ghost use Rattle.sdl_ast.specs.Views.{stimulus_of, clause_of, state_of, connection_of, start_of};
ghost use Rattle.sdl_productions.specs.BodyViews.{marked_view};
ghost use Rattle.sdl_tree.specs.SectionViews.{section_of};
ghost use Rattle.sdl_productions.specs.Mirrors.{Mirrors, same};
ghost use Rattle.sdl_productions.proofs.Lengths.{stimulus_keeps};
ghost use Rattle.sdl_productions.proofs.MarkedLengths.{marked_clause_takes, marked_clause_keeps, marked_section_takes, marked_section_keeps};

use crate::attempt::attempt;
use crate::endings::{read_closing, terminator};
use crate::production::{
    Listed, Production, read_in_parentheses, read_many, read_more, read_separated,
};
use crate::statements::read_transition;
use sdl_ast::{
    Connection, End, Identifier, InputPart, Join, NextState, Start, StateClause, StatePart,
    Stimulus,
};
use sdl_lex::{Name, Symbol, Token, Word};
use sdl_productions::{
    AnyClause, AnyEnd, AnyName, AnySection, Marked, Stop, gathered, stands_next, take,
};
use std::alloc::Global;

impl Production for Stimulus {
    ghost Plain = { PlainStimulus };

    ghost view = { stimulus_of };

    ghost reading = { stimulus_at };

    ghost never_longer = { stimulus_keeps };

    #[tactic(auto, unfolding(sdl_productions::specs::Productions::stimulus_at))]
    fn read<'a>(alloc: Global, tokens: &'a [Token]) -> Result<(Stimulus, &'a [Token]), Stop<'a>> {
        let (name, rest) = attempt!(take(tokens, AnyName));
        let (places, rest) = attempt!(read_in_parentheses::<Option<Identifier>>(alloc, rest));
        Ok((Stimulus { name, places }, rest))
    }
}

/// Reads `NEXTSTATE name ;`.
#[tactic(auto, unfolding(sdl_productions::specs::Productions::next_state_at))]
fn read_next_state<'a>(tokens: &'a [Token]) -> Result<(End, &'a [Token]), Stop<'a>>
    ensures { Mirrors same result (next_state_at tokens.now) }
{
    let (at, rest) = attempt!(take(tokens, Word::NextState));
    let (state, rest) = attempt!(take(rest, AnyName));
    let (_, rest) = attempt!(terminator(rest));
    Ok((End::NextState(NextState { at, state }), rest))
}

/// Reads `STOP ;`.
#[tactic(auto, unfolding(sdl_productions::specs::Productions::stop_at))]
fn read_stop<'a>(tokens: &'a [Token]) -> Result<(End, &'a [Token]), Stop<'a>>
    ensures { Mirrors same result (stop_at tokens.now) }
{
    let (at, rest) = attempt!(take(tokens, Word::Stop));
    let (_, rest) = attempt!(terminator(rest));
    Ok((End::Stop(at), rest))
}

/// Reads `JOIN name ;`.
#[tactic(auto, unfolding(sdl_productions::specs::Productions::join_at))]
fn read_join<'a>(tokens: &'a [Token]) -> Result<(End, &'a [Token]), Stop<'a>>
    ensures { Mirrors same result (join_at tokens.now) }
{
    let (at, rest) = attempt!(take(tokens, Word::Join));
    let (connector, rest) = attempt!(take(rest, AnyName));
    let (_, rest) = attempt!(terminator(rest));
    Ok((End::Join(Join { at, connector }), rest))
}

/// Reads a NEXTSTATE, a STOP or a JOIN.
#[tactic(auto, unfolding(sdl_productions::specs::Productions::end_at))]
fn read_end<'a>(tokens: &'a [Token]) -> Result<(End, &'a [Token]), Stop<'a>>
    ensures { Mirrors same result (end_at tokens.now) }
{
    if stands_next(tokens, Word::NextState) {
        return Ok(attempt!(read_next_state(tokens)));
    }
    if stands_next(tokens, Word::Stop) {
        return Ok(attempt!(read_stop(tokens)));
    }
    Ok(attempt!(read_join(tokens)))
}

/// Reads a NEXTSTATE, a STOP or a JOIN, if the next token begins one.
pub(crate) fn read_optional_end<'a>(
    tokens: &'a [Token],
) -> Result<(Option<End>, &'a [Token]), Stop<'a>>
    ensures { Mirrors same result (optional an_end end_at tokens.now) }
{
    if !stands_next(tokens, AnyEnd) {
        return Ok((None, tokens));
    }
    let (end, rest) = attempt!(read_end(tokens));
    Ok((Some(end), rest))
}

/// Reads `INPUT stimulus {, stimulus} ;` and its transition.
#[tactic(auto, unfolding(sdl_productions::specs::MarkedParts::marked_input))]
fn read_input<'a>(
    alloc: Global,
    tokens: &'a [Token],
) -> Result<(Marked<StateClause>, &'a [Token]), Stop<'a>>
    ensures { Mirrors (marked_view clause_of) result (marked_input tokens.now) }
{
    let (at, rest) = attempt!(take(tokens, Word::Input));
    let (stimuli, rest) = attempt!(read_separated::<Stimulus>(alloc, rest));
    let (_, rest) = attempt!(terminator(rest));
    let (transition, rest) = attempt!(read_transition(alloc, rest));
    let transition = match transition {
        Marked::Kept(transition) => transition,
        Marked::TooHigh(place) => return Ok((Marked::TooHigh(place), rest)),
    };
    let part = InputPart {
        at,
        stimuli,
        transition,
    };
    Ok((Marked::Kept(StateClause::Input(part)), rest))
}

/// Reads `SAVE name {, name} ;`.
#[tactic(auto, unfolding(sdl_productions::specs::Productions::save_at))]
fn read_save<'a>(alloc: Global, tokens: &'a [Token]) -> Result<(StateClause, &'a [Token]), Stop<'a>>
    ensures { Mirrors clause_of result (save_at tokens.now) }
{
    let (_, rest) = attempt!(take(tokens, Word::Save));
    let (names, rest) = attempt!(read_separated::<Identifier>(alloc, rest));
    let (_, rest) = attempt!(terminator(rest));
    Ok((StateClause::Save(names), rest))
}

impl Production for Marked<StateClause> {
    ghost Plain = { Marked PlainClause };

    ghost view = { marked_view clause_of };

    ghost reading = { marked_clause };

    ghost never_longer = { marked_clause_keeps };

    #[tactic(auto, unfolding(sdl_productions::specs::MarkedParts::marked_clause))]
    fn read<'a>(
        alloc: Global,
        tokens: &'a [Token],
    ) -> Result<(Marked<StateClause>, &'a [Token]), Stop<'a>> {
        if stands_next(tokens, Word::Input) {
            return Ok(attempt!(read_input(alloc, tokens)));
        }
        let (clause, rest) = attempt!(read_save(alloc, tokens));
        Ok((Marked::Kept(clause), rest))
    }
}

impl Listed for Marked<StateClause> {
    ghost starts = { a_clause };

    ghost shortens = { marked_clause_takes };

    fn is_next(tokens: &[Token]) -> bool {
        stands_next(tokens, AnyClause)
    }
}

/// Reads `ENDSTATE [name] ;`.
#[tactic(auto, unfolding(sdl_productions::specs::Productions::end_state_at))]
fn read_end_state<'a>(
    tokens: &'a [Token],
    opened: Name,
) -> Result<(Option<Identifier>, &'a [Token]), Stop<'a>>
    ensures { Mirrors same result (end_state_at opened tokens.now) }
{
    let (_, rest) = attempt!(take(tokens, Word::EndState));
    read_closing(rest, opened)
}

/// Reads `[ ENDSTATE [name] ; ]`.
fn read_optional_end_state<'a>(
    tokens: &'a [Token],
    opened: Name,
) -> Result<(Option<Option<Identifier>>, &'a [Token]), Stop<'a>>
    ensures { Mirrors same result (optional (a_word words.EndState) (end_state_at opened) tokens.now) }
{
    if !stands_next(tokens, Word::EndState) {
        return Ok((None, tokens));
    }
    let (found, rest) = attempt!(read_end_state(tokens, opened));
    Ok((Some(found), rest))
}

/// Reads `STATE name {, name} ;`, the clauses of the states, and `[ ENDSTATE [name] ; ]`.
#[tactic(auto, unfolding(sdl_productions::specs::MarkedParts::marked_state))]
fn read_state<'a>(
    alloc: Global,
    tokens: &'a [Token],
) -> Result<(Marked<StatePart>, &'a [Token]), Stop<'a>>
    ensures { Mirrors (marked_view state_of) result (marked_state tokens.now) }
{
    let (_, rest) = attempt!(take(tokens, Word::State));
    let (name, rest) = attempt!(take(rest, AnyName));
    let opened = name.name;
    let (names, rest) = attempt!(read_more::<Identifier>(alloc, name, rest));
    let (_, rest) = attempt!(terminator(rest));
    let (clauses, rest) = attempt!(read_many::<Marked<StateClause>>(alloc, rest));
    let (_, rest) = attempt!(read_optional_end_state(rest, opened));
    match attempt!(gathered(alloc, clauses)) {
        Marked::Kept(clauses) => Ok((Marked::Kept(StatePart { names, clauses }), rest)),
        Marked::TooHigh(at) => Ok((Marked::TooHigh(at), rest)),
    }
}

/// Reads `ENDCONNECTION [name] ;`.
#[tactic(auto, unfolding(sdl_productions::specs::Productions::end_connection_at))]
fn read_end_connection<'a>(
    tokens: &'a [Token],
    opened: Name,
) -> Result<(Option<Identifier>, &'a [Token]), Stop<'a>>
    ensures { Mirrors same result (end_connection_at opened tokens.now) }
{
    let (_, rest) = attempt!(take(tokens, Word::EndConnection));
    read_closing(rest, opened)
}

/// Reads `[ ENDCONNECTION [name] ; ]`.
fn read_optional_end_connection<'a>(
    tokens: &'a [Token],
    opened: Name,
) -> Result<(Option<Option<Identifier>>, &'a [Token]), Stop<'a>>
    ensures { Mirrors same result (optional (a_word words.EndConnection) (end_connection_at opened) tokens.now) }
{
    if !stands_next(tokens, Word::EndConnection) {
        return Ok((None, tokens));
    }
    let (found, rest) = attempt!(read_end_connection(tokens, opened));
    Ok((Some(found), rest))
}

/// Reads `CONNECTION name :`, its transition, and `[ ENDCONNECTION [name] ; ]`.
#[tactic(auto, unfolding(sdl_productions::specs::MarkedParts::marked_connection))]
fn read_connection<'a>(
    alloc: Global,
    tokens: &'a [Token],
) -> Result<(Marked<Connection>, &'a [Token]), Stop<'a>>
    ensures { Mirrors (marked_view connection_of) result (marked_connection tokens.now) }
{
    let (at, rest) = attempt!(take(tokens, Word::Connection));
    let (name, rest) = attempt!(take(rest, AnyName));
    let (_, rest) = attempt!(take(rest, Symbol::Colon));
    let (transition, rest) = attempt!(read_transition(alloc, rest));
    let (_, rest) = attempt!(read_optional_end_connection(rest, name.name));
    let transition = match transition {
        Marked::Kept(transition) => transition,
        Marked::TooHigh(place) => return Ok((Marked::TooHigh(place), rest)),
    };
    let connection = Connection {
        at,
        name,
        transition,
    };
    Ok((Marked::Kept(connection), rest))
}

/// A part of the body of a process.
#[derive(Drop)]
pub(crate) enum Section {
    /// A STATE part.
    State(Marked<StatePart>),
    /// A CONNECTION.
    Connection(Marked<Connection>),
}

impl Production for Section {
    ghost Plain = { MarkedSection };

    ghost view = { section_of };

    ghost reading = { marked_section };

    ghost never_longer = { marked_section_keeps };

    #[tactic(auto, unfolding(sdl_productions::specs::MarkedParts::marked_section))]
    fn read<'a>(alloc: Global, tokens: &'a [Token]) -> Result<(Section, &'a [Token]), Stop<'a>> {
        if stands_next(tokens, Word::State) {
            let (state, rest) = attempt!(read_state(alloc, tokens));
            return Ok((Section::State(state), rest));
        }
        let (connection, rest) = attempt!(read_connection(alloc, tokens));
        Ok((Section::Connection(connection), rest))
    }
}

impl Listed for Section {
    ghost starts = { a_section };

    ghost shortens = { marked_section_takes };

    fn is_next(tokens: &[Token]) -> bool {
        stands_next(tokens, AnySection)
    }
}

/// Reads `START ;` and its transition.
#[tactic(auto, unfolding(sdl_productions::specs::MarkedParts::marked_start))]
pub(crate) fn read_start<'a>(
    alloc: Global,
    tokens: &'a [Token],
) -> Result<(Marked<Start>, &'a [Token]), Stop<'a>>
    ensures { Mirrors (marked_view start_of) result (marked_start tokens.now) }
{
    let (at, rest) = attempt!(take(tokens, Word::Start));
    let (_, rest) = attempt!(terminator(rest));
    let (transition, rest) = attempt!(read_transition(alloc, rest));
    match transition {
        Marked::Kept(transition) => Ok((Marked::Kept(Start { at, transition }), rest)),
        Marked::TooHigh(place) => Ok((Marked::TooHigh(place), rest)),
    }
}
