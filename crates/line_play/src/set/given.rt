//! Orders to a set as they are given: a tag, words, and the links that they address.
ghost use Rattle.std.specs.Prelude.{◌≡◌, ◌++◌, ◌∷◌, [], nat_le, Some, IfOk, option_map, string_bytes};
ghost use Rattle.std.specs.List.{list_all, list_any};
ghost use Rattle.script_lines.specs.Lines.{texts};
ghost use Rattle.line_play.specs.SetGiven.{plain_whom, whom_of, is_number, are_links, is_all, number_of, numbers_of, plain_said, or_else, said_at, naming, said_of, with_links, spoken, plain_given, given_by, given_in, given_with, lacks_by, lacks, links_by, links_of, first_links};
ghost use Rattle.line_play.specs.SetOrders.{plain_set_order, set_order_of};

use crate::set::orders::{Focus, SetOrder, set_order_in};
use line_filter::{is_tag, joined};
use script_lines::{count, words_in};
use std::alloc::{AllocError, Global};

/// The most links that an order names.
const MOST_NAMED: usize = 16;

/// The links that an order addresses.
#[derive(Debug, Drop, PartialEq, Eq)]
pub enum Whom {
    /// Those that `on` selected.
    Selected,
    /// All.
    Every,
    /// Those that it names.
    Named(Vec<usize>),
}

/// The meaning of an order.
#[derive(Drop)]
pub struct Said {
    /// What it asks for.
    pub order: SetOrder,
    /// The links that it addresses, if it addresses any.
    pub whom: Whom,
}

/// Whether each of these words is a number.
fn are_numbers(words: &[&str]) -> bool
    ensures { result ≡ list_all is_number (texts words.now) }
{
    for word in words {
        if count(word).is_none() {
            return false;
        }
    }
    true
}

/// Whether words are the numbers of 1 to 16 links.
fn are_links(words: &[&str]) -> bool
    ensures { result ≡ are_links (texts words.now) }
{
    !words.is_empty() && words.len() <= MOST_NAMED && are_numbers(words)
}

/// The link of a word.
fn number(word: &str) -> usize
    ensures { result ≡ number_of word.now }
{
    match count(word) {
        Some(link) => link as usize,
        None => 0,
    }
}

/// The links of words.
fn numbers_in(alloc: Global, words: &[&str]) -> Result<Vec<usize>, AllocError>
    ensures { IfOk result (λ links. links.items ≡ numbers_of (texts words.now)) }
{
    let mut links = Vec::new(alloc);
    for word in words {
        links.push(number(word))?;
    }
    Ok(links)
}

/// Whether words are `all`.
fn is_all(words: &[&str]) -> bool
    ensures { result ≡ is_all (texts words.now) }
{
    match words {
        [word] => *word == "all",
        _ => false,
    }
}

/// The links that words name, if they name any.
fn whom_in(alloc: Global, words: &[&str]) -> Result<Option<Whom>, AllocError>
    ensures { IfOk result (λ o. option_map plain_whom o ≡ whom_of (texts words.now)) }
{
    if is_all(words) {
        return Ok(Some(Whom::Every));
    }
    if !are_links(words) {
        return Ok(None);
    }
    let links = numbers_in(alloc, words)?;
    Ok(Some(Whom::Named(links)))
}

/// An order with the links that it names, if it addresses links.
fn with_links(order: SetOrder, whom: Whom) -> Option<Said>
    ensures { option_map plain_said result ≡ with_links (Some (plain_set_order order)) (Some (plain_whom whom)) }
{
    if order.needs_links() {
        Some(Said { order, whom })
    } else {
        None
    }
}

/// An order of these words to these links.
fn said_for(alloc: Global, own: &[&str], whom: Whom) -> Result<Option<Said>, AllocError>
    ensures { IfOk result (λ o. option_map plain_said o ≡ with_links (set_order_of (texts own.now)) (Some (plain_whom whom))) }
{
    match set_order_in(alloc, own)? {
        Some(order) => Ok(with_links(order, whom)),
        None => Ok(None),
    }
}

/// An order of these words to the links that other words name.
fn said_with(alloc: Global, own: &[&str], links: &[&str]) -> Result<Option<Said>, AllocError>
    ensures { IfOk result (λ o. option_map plain_said o ≡ with_links (set_order_of (texts own.now)) (whom_of (texts links.now))) }
{
    match whom_in(alloc, links)? {
        Some(whom) => said_for(alloc, own, whom),
        None => Ok(None),
    }
}

/// An order of so many words that names its links after them.
fn said_at(alloc: Global, words: &[&str], own: usize) -> Result<Option<Said>, AllocError>
    ensures { IfOk result (λ o. option_map plain_said o ≡ said_at own (texts words.now)) }
{
    let is_short = words.len() < own;
    if is_short {
        return Ok(None);
    }
    let (order, links) = words.split_at(own);
    said_with(alloc, order, links)
}

/// An order of one or two words that names its links.
fn said_short(alloc: Global, words: &[&str]) -> Result<Option<Said>, AllocError>
    ensures { IfOk result (λ o. option_map plain_said o ≡ or_else (said_at 1 (texts words.now)) (said_at 2 (texts words.now))) }
{
    match said_at(alloc, words, 1)? {
        Some(said) => Ok(Some(said)),
        None => said_at(alloc, words, 2),
    }
}

/// An order that names its links: it has at most three words of its own.
fn said_with_links(alloc: Global, words: &[&str]) -> Result<Option<Said>, AllocError>
    ensures { IfOk result (λ o. option_map plain_said o ≡ naming (texts words.now)) }
{
    match said_short(alloc, words)? {
        Some(said) => Ok(Some(said)),
        None => said_at(alloc, words, 3),
    }
}

/// The meaning of words.
fn said_in(alloc: Global, words: &[&str]) -> Result<Option<Said>, AllocError>
    ensures { IfOk result (λ o. option_map plain_said o ≡ said_of (texts words.now)) }
{
    match set_order_in(alloc, words)? {
        Some(order) => Ok(Some(Said {
            order,
            whom: Whom::Selected,
        })),
        None => said_with_links(alloc, words),
    }
}

/// The words, separated by single spaces.
fn spoken(alloc: Global, words: &[&str]) -> Result<String, AllocError>
    ensures { IfOk result (λ text. string_bytes text ≡ spoken (texts words.now)) }
{
    match words {
        [first, more @ ..] => joined(alloc, first, more),
        [] => Ok(String::new(alloc)),
    }
}

/// An order as it was given, with its meaning; no meaning if it is no order.
#[derive(Drop)]
pub struct Given {
    /// The beginning of each line of its answer: its tag and a space, or nothing.
    pub mark: String,
    /// Its words after the tag, separated by single spaces.
    pub text: String,
    /// Their meaning.
    pub said: Option<Said>,
}

/// The beginning of the answer to an order with a tag.
fn mark_of(alloc: Global, tag: &str) -> Result<String, AllocError>
    ensures { IfOk result (λ mark. string_bytes mark ≡ tag.now ++ 32 ∷ []) }
{
    Ok(format!(in alloc; "{tag} ")?)
}

impl Given {
    /// An order of these words, whose answer begins with this mark.
    fn with_mark(alloc: Global, mark: String, words: &[&str]) -> Result<Given, AllocError>
        ensures { IfOk result (λ g. plain_given g ≡ given_with (string_bytes mark) (texts words.now)) }
    {
        let text = spoken(alloc, words)?;
        let said = said_in(alloc, words)?;
        Ok(Given { mark, text, said })
    }

    /// An order with this first word, which may be a tag.
    fn with_first(
        alloc: Global,
        first: &str,
        more: &[&str],
        words: &[&str],
    ) -> Result<Given, AllocError>
        requires { texts words.now ≡ first.now ∷ texts more.now }
        ensures { IfOk result (λ g. plain_given g ≡ given_by (texts words.now)) }
    {
        if is_tag(first) {
            let mark = mark_of(alloc, first)?;
            return Given::with_mark(alloc, mark, more);
        }
        Given::with_mark(alloc, String::new(alloc), words)
    }

    /// An order of these words.
    fn with_words(alloc: Global, words: &[&str]) -> Result<Given, AllocError>
        ensures { IfOk result (λ g. plain_given g ≡ given_by (texts words.now)) }
    {
        match words {
            [first, more @ ..] => Given::with_first(alloc, first, more, words),
            [] => Given::with_mark(alloc, String::new(alloc), words),
        }
    }

    /// Reads an order.
    ///
    /// # Errors
    ///
    /// If memory runs out.
    pub fn read(alloc: Global, line: &str) -> Result<Given, AllocError>
        ensures { IfOk result (λ g. plain_given g ≡ given_in line.now) }
    {
        let words = words_in(alloc, line)?;
        Given::with_words(alloc, words.as_slice())
    }
}

/// The first `count` links.
pub(crate) fn first_links(alloc: Global, count: usize) -> Result<Vec<usize>, AllocError>
    ensures { IfOk result (λ links. links.items ≡ first_links count) }
{
    let mut links = Vec::new(alloc);
    for link in 0..count {
        links.push(link)?;
    }
    Ok(links)
}

impl Focus {
    /// Whether it is no link, or one that doesn't exist, with so many links.
    fn lacks(self, count: usize) -> bool
        ensures { result ≡ lacks_by self count }
    {
        match self {
            Focus::Nothing => true,
            Focus::Link(link) => count <= link,
            Focus::All => false,
        }
    }

    /// The links, with so many links in the set.
    fn links(self, alloc: Global, count: usize) -> Result<Vec<usize>, AllocError>
        ensures { IfOk result (λ links. links.items ≡ links_by self count) }
    {
        match self {
            Focus::Nothing => Ok(Vec::new(alloc)),
            Focus::Link(link) => Vec::from_slice(alloc, &[link]),
            Focus::All => first_links(alloc, count),
        }
    }
}

/// Whether a link doesn't exist, with so many links.
fn is_past(link: usize, count: usize) -> bool
    ensures { result ≡ nat_le count link }
{
    count <= link
}

/// Whether one of these links doesn't exist.
fn any_past(links: &[usize], count: usize) -> bool
    ensures { result ≡ list_any (λ l. nat_le count l) links.now }
{
    for link in links {
        if is_past(*link, count) {
            return true;
        }
    }
    false
}

impl Whom {
    /// Whether no link is addressed, if `on` selected these, or one that doesn't exist.
    pub(crate) fn lacks(&self, focus: Focus, count: usize) -> bool
        ensures { result ≡ lacks (plain_whom self.now) focus count }
    {
        match self {
            Whom::Selected => focus.lacks(count),
            Whom::Every => false,
            Whom::Named(links) => any_past(links.as_slice(), count),
        }
    }

    /// The links addressed, with so many links in the set, if `on` selected these.
    ///
    /// # Errors
    ///
    /// If memory runs out.
    pub(crate) fn links(
        &self,
        alloc: Global,
        focus: Focus,
        count: usize,
    ) -> Result<Vec<usize>, AllocError>
        ensures { IfOk result (λ links. links.items ≡ links_of (plain_whom self.now) focus count) }
    {
        match self {
            Whom::Selected => focus.links(alloc, count),
            Whom::Every => first_links(alloc, count),
            Whom::Named(links) => Vec::from_slice(alloc, links.as_slice()),
        }
    }
}
