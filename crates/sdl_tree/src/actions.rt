//! Actions: TASK, OUTPUT, SET and RESET.
ghost use Rattle.std.specs.Prelude.{◌≡◌, ◌++◌, map, Option, OnOk, IfOk, IfErr};
ghost use Rattle.std.specs.List.{filter_map};
ghost use Rattle.std.specs.Option.{option_map, option_to_list};
ghost use Rattle.sdl_lex.specs.declared.lexemes.Word.TheVariants as words;
ghost use Rattle.sdl_productions.specs.Readings.{optional};
ghost use Rattle.sdl_productions.specs.Machine.{low_trees, expression_at};
ghost use Rattle.sdl_productions.specs.Productions.{assignment_at, item_at, task_at, sending_at, destination_at, output_at, delay_at, set_at, reset_at, action_at};
ghost use Rattle.sdl_productions.specs.Tokens.{a_word, an_action};
ghost use Rattle.sdl_ast.specs.Plain.{Tree, PlainAssignment, PlainSending, PlainAction};
ghost use Rattle.sdl_ast.specs.Views.{tree_of, assignment_of, sending_of, action_of};
ghost use Rattle.sdl_productions.specs.Mirrors.{Mirrors, same};
ghost use Rattle.sdl_productions.proofs.Rests.{low_keeps};
ghost use Rattle.sdl_productions.proofs.Lengths.{low_item_keeps, low_sending_keeps, low_action_takes, low_action_keeps};

use crate::attempt::attempt;
use crate::endings::terminator;
use crate::production::{Listed, Production, read_in_parentheses, read_separated};
use sdl_ast::{
    Action, Assignment, Destination, Expression, Output, ResetTimer, Sending, SetTimer, Task,
};
use sdl_lex::{Symbol, Token, Word};
use sdl_productions::{
    AnyAction, AnyDestination, AnyName, AnyQuoted, Stop, expression, push, stands_next, take,
};
use std::alloc::Global;

/// Reads `name := expression`.
#[tactic(auto, unfolding(sdl_productions::specs::Productions::assignment_at))]
fn read_assignment<'a>(
    alloc: Global,
    tokens: &'a [Token],
) -> Result<(Assignment, &'a [Token]), Stop<'a>>
    ensures { Mirrors assignment_of result (assignment_at (expression_at low_trees) tokens.now) }
{
    let (variable, rest) = attempt!(take(tokens, AnyName));
    let (_, rest) = attempt!(take(rest, Symbol::Assign));
    let (value, rest) = attempt!(expression(alloc, rest));
    Ok((Assignment { variable, value }, rest))
}

/// An item of a TASK: an assignment, or `None` for a quoted text.
impl Production for Option<Assignment> {
    ghost Plain = { Option PlainAssignment };

    ghost view = { option_map assignment_of };

    ghost reading = { item_at (expression_at low_trees) };

    ghost never_longer = { low_item_keeps };

    #[tactic(auto, unfolding(sdl_productions::specs::Productions::item_at, sdl_productions::specs::Productions::quoted_at, sdl_productions::specs::Productions::assigned_at))]
    fn read<'a>(
        alloc: Global,
        tokens: &'a [Token],
    ) -> Result<(Option<Assignment>, &'a [Token]), Stop<'a>> {
        if stands_next(tokens, AnyQuoted) {
            let (_, rest) = attempt!(take(tokens, AnyQuoted));
            return Ok((None, rest));
        }
        let (assignment, rest) = attempt!(read_assignment(alloc, tokens));
        Ok((Some(assignment), rest))
    }
}

/// Appends an assignment to others. A quoted text is dropped.
fn keep<'a>(assignments: &mut Vec<Assignment>, item: Option<Assignment>) -> Result<(), Stop<'a>>
    ensures ok { OnOk result (map assignment_of assignments.new.items ≡ map assignment_of assignments.old.items ++ option_to_list (option_map assignment_of item)) }
    ensures err { IfErr result (λ stop. stop ≡ Stop.NoMemory) }
{
    match item {
        Some(assignment) => push(assignments, assignment),
        None => Ok(()),
    }
}

/// The assignments among the items of a TASK.
fn kept<'a>(alloc: Global, items: Vec<Option<Assignment>>) -> Result<Vec<Assignment>, Stop<'a>>
    ensures ok { IfOk result (λ v. map assignment_of v.items ≡ filter_map (λ i. i) (map (option_map assignment_of) items.items)) }
    ensures err { IfErr result (λ stop. stop ≡ Stop.NoMemory) }
{
    let mut assignments = Vec::new(alloc);
    'rows: for item in items {
        keep(&mut assignments, item)?;
    }
    Ok(assignments)
}

/// Reads `TASK item {, item} ;`.
#[tactic(auto, unfolding(sdl_productions::specs::Productions::task_at))]
fn read_task<'a>(alloc: Global, tokens: &'a [Token]) -> Result<(Action, &'a [Token]), Stop<'a>>
    ensures { Mirrors action_of result (task_at (expression_at low_trees) tokens.now) }
{
    let (at, rest) = attempt!(take(tokens, Word::Task));
    let (items, rest) = attempt!(read_separated::<Option<Assignment>>(alloc, rest));
    let (_, rest) = attempt!(terminator(rest));
    let assignments = attempt!(kept(alloc, items));
    Ok((Action::Task(Task { at, assignments }), rest))
}

impl Production for Expression {
    ghost Plain = { Tree };

    ghost view = { tree_of };

    ghost reading = { expression_at low_trees };

    ghost never_longer = { low_keeps };

    fn read<'a>(alloc: Global, tokens: &'a [Token]) -> Result<(Expression, &'a [Token]), Stop<'a>> {
        expression(alloc, tokens)
    }
}

impl Production for Sending {
    ghost Plain = { PlainSending };

    ghost view = { sending_of };

    ghost reading = { sending_at (expression_at low_trees) };

    ghost never_longer = { low_sending_keeps };

    #[tactic(auto, unfolding(sdl_productions::specs::Productions::sending_at))]
    fn read<'a>(alloc: Global, tokens: &'a [Token]) -> Result<(Sending, &'a [Token]), Stop<'a>> {
        let (signal, rest) = attempt!(take(tokens, AnyName));
        let (parameters, rest) = attempt!(read_in_parentheses::<Expression>(alloc, rest));
        Ok((Sending { signal, parameters }, rest))
    }
}

/// Reads `TO (SENDER | name)`.
#[tactic(auto, unfolding(sdl_productions::specs::Productions::destination_at))]
fn read_destination<'a>(tokens: &'a [Token]) -> Result<(Destination, &'a [Token]), Stop<'a>>
    ensures { Mirrors same result (destination_at tokens.now) }
{
    let (_, rest) = attempt!(take(tokens, Word::To));
    take(rest, AnyDestination)
}

/// Reads `[ TO (SENDER | name) ]`.
fn read_optional_destination<'a>(
    tokens: &'a [Token],
) -> Result<(Option<Destination>, &'a [Token]), Stop<'a>>
    ensures { Mirrors same result (optional (a_word words.To) destination_at tokens.now) }
{
    if !stands_next(tokens, Word::To) {
        return Ok((None, tokens));
    }
    let (found, rest) = attempt!(read_destination(tokens));
    Ok((Some(found), rest))
}

/// Reads `OUTPUT sending {, sending} [ TO (SENDER | name) ] ;`.
#[tactic(auto, unfolding(sdl_productions::specs::Productions::output_at))]
fn read_output<'a>(alloc: Global, tokens: &'a [Token]) -> Result<(Action, &'a [Token]), Stop<'a>>
    ensures { Mirrors action_of result (output_at (expression_at low_trees) tokens.now) }
{
    let (at, rest) = attempt!(take(tokens, Word::Output));
    let (sendings, rest) = attempt!(read_separated::<Sending>(alloc, rest));
    let (to, rest) = attempt!(read_optional_destination(rest));
    let (_, rest) = attempt!(terminator(rest));
    Ok((Action::Output(Output { at, sendings, to }), rest))
}

/// Reads `( NOW + expression ,`.
#[tactic(auto, unfolding(sdl_productions::specs::Productions::delay_at))]
fn read_delay<'a>(alloc: Global, tokens: &'a [Token]) -> Result<(Expression, &'a [Token]), Stop<'a>>
    ensures { Mirrors tree_of result (delay_at (expression_at low_trees) tokens.now) }
{
    let (_, rest) = attempt!(take(tokens, Symbol::Open));
    let (_, rest) = attempt!(take(rest, Word::Now));
    let (_, rest) = attempt!(take(rest, Symbol::Plus));
    let (delay, rest) = attempt!(expression(alloc, rest));
    let (_, rest) = attempt!(take(rest, Symbol::Comma));
    Ok((delay, rest))
}

/// Reads `SET ( NOW + expression , name ) ;`.
#[tactic(auto, unfolding(sdl_productions::specs::Productions::set_at))]
fn read_set<'a>(alloc: Global, tokens: &'a [Token]) -> Result<(Action, &'a [Token]), Stop<'a>>
    ensures { Mirrors action_of result (set_at (expression_at low_trees) tokens.now) }
{
    let (at, rest) = attempt!(take(tokens, Word::Set));
    let (delay, rest) = attempt!(read_delay(alloc, rest));
    let (timer, rest) = attempt!(take(rest, AnyName));
    let (_, rest) = attempt!(take(rest, Symbol::Close));
    let (_, rest) = attempt!(terminator(rest));
    Ok((Action::Set(SetTimer { at, delay, timer }), rest))
}

/// Reads `RESET ( name ) ;`.
#[tactic(auto, unfolding(sdl_productions::specs::Productions::reset_at))]
fn read_reset<'a>(tokens: &'a [Token]) -> Result<(Action, &'a [Token]), Stop<'a>>
    ensures { Mirrors action_of result (reset_at tokens.now) }
{
    let (at, rest) = attempt!(take(tokens, Word::Reset));
    let (_, rest) = attempt!(take(rest, Symbol::Open));
    let (timer, rest) = attempt!(take(rest, AnyName));
    let (_, rest) = attempt!(take(rest, Symbol::Close));
    let (_, rest) = attempt!(terminator(rest));
    Ok((Action::Reset(ResetTimer { at, timer }), rest))
}

impl Production for Action {
    ghost Plain = { PlainAction };

    ghost view = { action_of };

    ghost reading = { action_at (expression_at low_trees) };

    ghost never_longer = { low_action_keeps };

    #[tactic(auto, unfolding(sdl_productions::specs::Productions::action_at))]
    fn read<'a>(alloc: Global, tokens: &'a [Token]) -> Result<(Action, &'a [Token]), Stop<'a>> {
        if stands_next(tokens, Word::Task) {
            return Ok(attempt!(read_task(alloc, tokens)));
        }
        if stands_next(tokens, Word::Output) {
            return Ok(attempt!(read_output(alloc, tokens)));
        }
        if stands_next(tokens, Word::Set) {
            return Ok(attempt!(read_set(alloc, tokens)));
        }
        Ok(attempt!(read_reset(tokens)))
    }
}

impl Listed for Action {
    ghost starts = { an_action };

    ghost shortens = { low_action_takes };

    fn is_next(tokens: &[Token]) -> bool {
        stands_next(tokens, AnyAction)
    }
}
