//! Reads signals, routes, variables, timers and synonyms.
ghost use Rattle.std.specs.Prelude.{◌≡◌, ◌∷◌, map, Option, None, IfOk, IfErr};
ghost use Rattle.std.specs.Option.{option_map, option_to_list};
ghost use Rattle.sdl_productions.specs.Readings.{token, separated, optional};
ghost use Rattle.sdl_productions.specs.Productions.{place_at};
ghost use Rattle.sdl_productions.specs.DeclarationProductions.{signal_at, signals_at, path_at, route_at, connect_at, negative_at, constant_at, initial_at, group_at, variables_at, timers_at, synonym_at, synonyms_at};
ghost use Rattle.sdl_productions.specs.Machine.{low_trees, expression_at};
ghost use Rattle.sdl_productions.specs.BodyViews.{marked_view};
ghost use Rattle.sdl_productions.specs.Marks.{Marked};
ghost use Rattle.sdl_productions.specs.MarkedParts.{marked_own_synonyms, marked_declaration, marked_synonyms};
ghost use Rattle.sdl_productions.specs.Tokens.{a_name, a_sort, a_word, a_symbol, a_declaration};
ghost use Rattle.sdl_lex.specs.declared.lexemes.Symbol.TheVariants.{Assign};
ghost use Rattle.sdl_lex.specs.declared.lexemes.Word.TheVariants.{From};
ghost use Rattle.sdl_ast.specs.Plain.{PlainSignal, PlainGroup, PlainSynonym, PlainDeclaration};
ghost use Rattle.sdl_ast.specs.Views.{signal_of, path_of, entity_of, group_of, declaration_of, synonym_of};
ghost use Rattle.sdl_productions.specs.Mirrors.{Mirrors, same};
ghost use Rattle.sdl_productions.proofs.Lengths.{name_keeps, sort_keeps, signal_keeps, group_keeps, place_keeps, low_synonym_keeps};
ghost use Rattle.sdl_productions.proofs.MarkedLengths.{marked_declaration_takes, marked_declaration_keeps};

use crate::attempt::attempt;
use crate::endings::terminator;
use crate::production::{Listed, Production, read_in_parentheses, read_separated};
use sdl_ast::{
    Connect, Constant, Declaration, Entity, Group, Identifier, Path, Route, SignalDeclaration,
    Sort, Synonym,
};
use sdl_lex::{Symbol, Token, Word};
use sdl_productions::{
    AnyConstant, AnyDeclaration, AnyName, AnyParty, AnySort, Marked, Negated, Stop, expression,
    limited_own_synonyms, limited_synonyms, push, stands_next, take,
};
use std::alloc::Global;

impl Production for Identifier {
    ghost use Rattle.sdl_ast.specs.declared.expression.Identifier.{Identifier};

    ghost Plain = { Identifier };

    ghost view = { same };

    ghost reading = { token a_name };

    ghost never_longer = { name_keeps };

    fn read<'a>(
        _alloc: Global,
        tokens: &'a [Token],
    ) -> Result<(Identifier, &'a [Token]), Stop<'a>> {
        take(tokens, AnyName)
    }
}

impl Production for Sort {
    ghost use Rattle.sdl_ast.specs.declared.tree.Sort.{Sort};

    ghost Plain = { Sort };

    ghost view = { same };

    ghost reading = { token a_sort };

    ghost never_longer = { sort_keeps };

    fn read<'a>(_alloc: Global, tokens: &'a [Token]) -> Result<(Sort, &'a [Token]), Stop<'a>> {
        take(tokens, AnySort)
    }
}

impl Production for Option<Identifier> {
    ghost use Rattle.sdl_ast.specs.declared.expression.Identifier.{Identifier};

    ghost Plain = { Option Identifier };

    ghost view = { same };

    ghost reading = { place_at };

    ghost never_longer = { place_keeps };

    #[tactic(auto, unfolding(sdl_productions::specs::Productions::place_at))]
    fn read<'a>(
        _alloc: Global,
        tokens: &'a [Token],
    ) -> Result<(Option<Identifier>, &'a [Token]), Stop<'a>> {
        if !stands_next(tokens, AnyName) {
            return Ok((None, tokens));
        }
        let (found, rest) = attempt!(take(tokens, AnyName));
        Ok((Some(found), rest))
    }
}

impl Production for SignalDeclaration {
    ghost Plain = { PlainSignal };

    ghost view = { signal_of };

    ghost reading = { signal_at };

    ghost never_longer = { signal_keeps };

    #[tactic(auto, unfolding(sdl_productions::specs::DeclarationProductions::signal_at))]
    fn read<'a>(
        alloc: Global,
        tokens: &'a [Token],
    ) -> Result<(SignalDeclaration, &'a [Token]), Stop<'a>> {
        let (name, rest) = attempt!(take(tokens, AnyName));
        let (parameters, rest) = attempt!(read_in_parentheses::<Sort>(alloc, rest));
        Ok((SignalDeclaration { name, parameters }, rest))
    }
}

/// Reads `SIGNAL signal {, signal} ;`.
#[tactic(auto, unfolding(sdl_productions::specs::DeclarationProductions::signals_at))]
pub(crate) fn read_signals<'a>(
    alloc: Global,
    tokens: &'a [Token],
) -> Result<(Entity, &'a [Token]), Stop<'a>>
    ensures { Mirrors entity_of result (signals_at tokens.now) }
{
    let (_, rest) = attempt!(take(tokens, Word::Signal));
    let (declared, rest) = attempt!(read_separated::<SignalDeclaration>(alloc, rest));
    let (_, rest) = attempt!(terminator(rest));
    Ok((Entity::Signals(declared), rest))
}

/// Reads `FROM (name | ENV) TO (name | ENV) WITH name {, name} ;`.
#[tactic(auto, unfolding(sdl_productions::specs::DeclarationProductions::path_at))]
fn read_path<'a>(alloc: Global, tokens: &'a [Token]) -> Result<(Path, &'a [Token]), Stop<'a>>
    ensures { Mirrors path_of result (path_at tokens.now) }
{
    let (_, rest) = attempt!(take(tokens, Word::From));
    let (from, rest) = attempt!(take(rest, AnyParty));
    let (_, rest) = attempt!(take(rest, Word::To));
    let (to, rest) = attempt!(take(rest, AnyParty));
    let (_, rest) = attempt!(take(rest, Word::With));
    let (signals, rest) = attempt!(read_separated::<Identifier>(alloc, rest));
    let (_, rest) = attempt!(terminator(rest));
    Ok((Path { from, to, signals }, rest))
}

/// Reads a path, if the next token begins one.
fn read_optional_path<'a>(
    alloc: Global,
    tokens: &'a [Token],
) -> Result<(Option<Path>, &'a [Token]), Stop<'a>>
    ensures { Mirrors (option_map path_of) result (optional (a_word From) path_at tokens.now) }
{
    if !stands_next(tokens, Word::From) {
        return Ok((None, tokens));
    }
    let (path, rest) = attempt!(read_path(alloc, tokens));
    Ok((Some(path), rest))
}

/// One path or two.
fn paths_of<'a>(alloc: Global, first: Path, second: Option<Path>) -> Result<Vec<Path>, Stop<'a>>
    ensures ok { IfOk result (λ v. map path_of v.items ≡ path_of first ∷ option_to_list (option_map path_of second)) }
    ensures err { IfErr result (λ stop. stop ≡ Stop.NoMemory) }
{
    let mut paths = Vec::new(alloc);
    push(&mut paths, first)?;
    if let Some(path) = second {
        push(&mut paths, path)?;
    }
    Ok(paths)
}

/// Reads `SIGNALROUTE name path [path]`.
#[tactic(auto, unfolding(sdl_productions::specs::DeclarationProductions::route_at))]
pub(crate) fn read_route<'a>(
    alloc: Global,
    tokens: &'a [Token],
) -> Result<(Entity, &'a [Token]), Stop<'a>>
    ensures { Mirrors entity_of result (route_at tokens.now) }
{
    let (_, rest) = attempt!(take(tokens, Word::SignalRoute));
    let (name, rest) = attempt!(take(rest, AnyName));
    let (first, rest) = attempt!(read_path(alloc, rest));
    let (second, rest) = attempt!(read_optional_path(alloc, rest));
    let paths = attempt!(paths_of(alloc, first, second));
    Ok((Entity::Route(Route { name, paths }), rest))
}

/// Reads `CONNECT name {, name} AND name {, name} ;`.
#[tactic(auto, unfolding(sdl_productions::specs::DeclarationProductions::connect_at))]
pub(crate) fn read_connect<'a>(
    alloc: Global,
    tokens: &'a [Token],
) -> Result<(Entity, &'a [Token]), Stop<'a>>
    ensures { Mirrors entity_of result (connect_at tokens.now) }
{
    let (_, rest) = attempt!(take(tokens, Word::Connect));
    let (channels, rest) = attempt!(read_separated::<Identifier>(alloc, rest));
    let (_, rest) = attempt!(take(rest, Word::And));
    let (routes, rest) = attempt!(read_separated::<Identifier>(alloc, rest));
    let (_, rest) = attempt!(terminator(rest));
    Ok((Entity::Connect(Connect { channels, routes }), rest))
}

/// Reads `- ( number | name )`.
#[tactic(auto, unfolding(sdl_productions::specs::DeclarationProductions::negative_at))]
fn read_negative<'a>(tokens: &'a [Token]) -> Result<(Constant, &'a [Token]), Stop<'a>>
    ensures { Mirrors same result (negative_at tokens.now) }
{
    let (at, rest) = attempt!(take(tokens, Symbol::Minus));
    take(rest, Negated(at))
}

/// Reads `[ - ] ( number | name )`, TRUE or FALSE.
#[tactic(auto, unfolding(sdl_productions::specs::DeclarationProductions::constant_at))]
pub(crate) fn read_constant<'a>(tokens: &'a [Token]) -> Result<(Constant, &'a [Token]), Stop<'a>>
    ensures { Mirrors same result (constant_at tokens.now) }
{
    if stands_next(tokens, Symbol::Minus) {
        return Ok(attempt!(read_negative(tokens)));
    }
    Ok(attempt!(take(tokens, AnyConstant)))
}

/// Reads `:= constant`.
#[tactic(auto, unfolding(sdl_productions::specs::DeclarationProductions::initial_at))]
fn read_initial<'a>(tokens: &'a [Token]) -> Result<(Constant, &'a [Token]), Stop<'a>>
    ensures { Mirrors same result (initial_at tokens.now) }
{
    let (_, rest) = attempt!(take(tokens, Symbol::Assign));
    read_constant(rest)
}

/// Reads `[ := constant ]`.
fn read_optional_initial<'a>(
    tokens: &'a [Token],
) -> Result<(Option<Constant>, &'a [Token]), Stop<'a>>
    ensures { Mirrors same result (optional (a_symbol Assign) initial_at tokens.now) }
{
    if !stands_next(tokens, Symbol::Assign) {
        return Ok((None, tokens));
    }
    let (initial, rest) = attempt!(read_initial(tokens));
    Ok((Some(initial), rest))
}

impl Production for Group {
    ghost Plain = { PlainGroup };

    ghost view = { group_of };

    ghost reading = { group_at };

    ghost never_longer = { group_keeps };

    #[tactic(auto, unfolding(sdl_productions::specs::DeclarationProductions::group_at))]
    fn read<'a>(alloc: Global, tokens: &'a [Token]) -> Result<(Group, &'a [Token]), Stop<'a>> {
        let (names, rest) = attempt!(read_separated::<Identifier>(alloc, tokens));
        let (sort, rest) = attempt!(take(rest, AnySort));
        let (initial, rest) = attempt!(read_optional_initial(rest));
        Ok((
            Group {
                names,
                sort,
                initial,
            },
            rest,
        ))
    }
}

/// Reads `DCL group {, group} ;`.
#[tactic(auto, unfolding(sdl_productions::specs::DeclarationProductions::variables_at))]
fn read_variables<'a>(
    alloc: Global,
    tokens: &'a [Token],
) -> Result<(Declaration, &'a [Token]), Stop<'a>>
    ensures { Mirrors declaration_of result (variables_at tokens.now) }
{
    let (_, rest) = attempt!(take(tokens, Word::Dcl));
    let (groups, rest) = attempt!(read_separated::<Group>(alloc, rest));
    let (_, rest) = attempt!(terminator(rest));
    Ok((Declaration::Variables(groups), rest))
}

/// Reads `TIMER name {, name} ;`.
#[tactic(auto, unfolding(sdl_productions::specs::DeclarationProductions::timers_at))]
fn read_timers<'a>(
    alloc: Global,
    tokens: &'a [Token],
) -> Result<(Declaration, &'a [Token]), Stop<'a>>
    ensures { Mirrors declaration_of result (timers_at tokens.now) }
{
    let (_, rest) = attempt!(take(tokens, Word::Timer));
    let (names, rest) = attempt!(read_separated::<Identifier>(alloc, rest));
    let (_, rest) = attempt!(terminator(rest));
    Ok((Declaration::Timers(names), rest))
}

/// Reads `[ sort ]`.
fn read_optional_sort<'a>(tokens: &'a [Token]) -> Result<(Option<Sort>, &'a [Token]), Stop<'a>>
    ensures { Mirrors same result (optional a_sort (token a_sort) tokens.now) }
{
    if !stands_next(tokens, AnySort) {
        return Ok((None, tokens));
    }
    let (found, rest) = attempt!(take(tokens, AnySort));
    Ok((Some(found), rest))
}

impl Production for Synonym {
    ghost Plain = { PlainSynonym };

    ghost view = { synonym_of };

    ghost reading = { synonym_at (expression_at low_trees) };

    ghost never_longer = { low_synonym_keeps };

    #[tactic(auto, unfolding(sdl_productions::specs::DeclarationProductions::synonym_at))]
    fn read<'a>(alloc: Global, tokens: &'a [Token]) -> Result<(Synonym, &'a [Token]), Stop<'a>> {
        let (name, rest) = attempt!(take(tokens, AnyName));
        let (sort, rest) = attempt!(read_optional_sort(rest));
        let (_, rest) = attempt!(take(rest, Symbol::Equal));
        let (value, rest) = attempt!(expression(alloc, rest));
        Ok((Synonym { name, sort, value }, rest))
    }
}

/// Reads `SYNONYM name [sort] = expression {, name [sort] = expression} ;`.
#[tactic(auto, unfolding(sdl_productions::specs::DeclarationProductions::synonyms_at))]
fn read_synonyms<'a>(
    alloc: Global,
    tokens: &'a [Token],
) -> Result<(Vec<Synonym>, &'a [Token]), Stop<'a>>
    ensures { Mirrors (λ v. map synonym_of v.items) result (synonyms_at (expression_at low_trees) tokens.now) }
{
    let (_, rest) = attempt!(take(tokens, Word::Synonym));
    let (list, rest) = attempt!(read_separated::<Synonym>(alloc, rest));
    let (_, rest) = attempt!(terminator(rest));
    Ok((list, rest))
}

/// Reads the SYNONYM of a block.
#[tactic(auto, unfolding(sdl_productions::specs::MarkedParts::marked_synonyms))]
pub(crate) fn read_block_synonyms<'a>(
    alloc: Global,
    tokens: &'a [Token],
) -> Result<(Marked<Entity>, &'a [Token]), Stop<'a>>
    ensures { Mirrors (marked_view entity_of) result (marked_synonyms tokens.now) }
{
    let (list, rest) = attempt!(read_synonyms(alloc, tokens));
    Ok((limited_synonyms(list), rest))
}

/// Reads the SYNONYM of a process.
#[tactic(auto, unfolding(sdl_productions::specs::MarkedParts::marked_own_synonyms))]
fn read_own_synonyms<'a>(
    alloc: Global,
    tokens: &'a [Token],
) -> Result<(Marked<Declaration>, &'a [Token]), Stop<'a>>
    ensures { Mirrors (marked_view declaration_of) result (marked_own_synonyms tokens.now) }
{
    let (list, rest) = attempt!(read_synonyms(alloc, tokens));
    Ok((limited_own_synonyms(list), rest))
}

impl Production for Marked<Declaration> {
    ghost Plain = { Marked PlainDeclaration };

    ghost view = { marked_view declaration_of };

    ghost reading = { marked_declaration };

    ghost never_longer = { marked_declaration_keeps };

    #[tactic(auto, unfolding(sdl_productions::specs::MarkedParts::marked_declaration))]
    fn read<'a>(
        alloc: Global,
        tokens: &'a [Token],
    ) -> Result<(Marked<Declaration>, &'a [Token]), Stop<'a>> {
        if stands_next(tokens, Word::Dcl) {
            let (declaration, rest) = attempt!(read_variables(alloc, tokens));
            return Ok((Marked::Kept(declaration), rest));
        }
        if stands_next(tokens, Word::Synonym) {
            return Ok(attempt!(read_own_synonyms(alloc, tokens)));
        }
        let (declaration, rest) = attempt!(read_timers(alloc, tokens));
        Ok((Marked::Kept(declaration), rest))
    }
}

impl Listed for Marked<Declaration> {
    ghost starts = { a_declaration };

    ghost shortens = { marked_declaration_takes };

    fn is_next(tokens: &[Token]) -> bool {
        stands_next(tokens, AnyDeclaration)
    }
}
