//! Senders, with each party only once.
ghost use Rattle.std.specs.Prelude.{◌≡◌, ◌<◌, ◌++◌, ◌∷◌, [], ℕ, List, length, fold, map, IfOk, OnOk};
ghost use Rattle.sdl_tables.specs.Routes.{same_party};
ghost use Rattle.sdl_rules.specs.Distinct.{same_numbers, same_sender, has_sender, sender_number, HaveMarks, add_sender, distinct};
ghost use Rattle.sdl_scopes.specs.Reaches.{is_marked};
ghost use Rattle.sdl_scopes.specs.declared.sender.Sender as the_sender;

use sdl_ast::Party;
use sdl_scopes::{Numbered, Sender, is_marked};
use std::alloc::{AllocError, Global};

/// Whether two parties have the same name, or are both the environment.
fn is_named_alike(one: &Party, other: &Party) -> bool
    ensures { result ≡ same_party one.now other.now }
{
    match one {
        Party::Environment => match other {
            Party::Environment => true,
            Party::Process(_) => false,
        },
        Party::Process(one) => match other {
            Party::Environment => false,
            Party::Process(other) => one.name.folded() == other.name.folded(),
        },
    }
}

/// Whether two parties have the same number, or neither has a number and they have the same name.
fn is_same_party(one: &Numbered, other: &Numbered) -> bool
    ensures { result ≡ same_numbers one.now.number other.now.number (same_party one.now.party other.now.party) }
{
    match one.number {
        Some(number) => match other.number {
            Some(other) => number == other,
            None => false,
        },
        None => match other.number {
            Some(_) => false,
            None => is_named_alike(&one.party, &other.party),
        },
    }
}

/// Whether two senders are the same party, or both nobody.
fn is_same(one: &Sender, other: &Sender) -> bool
    ensures { result ≡ same_sender one.now other.now }
{
    match one {
        Sender::Nobody => match other {
            Sender::Nobody => true,
            Sender::Party(_) => false,
        },
        Sender::Party(one) => match other {
            Sender::Nobody => false,
            Sender::Party(other) => is_same_party(one, other),
        },
    }
}

/// Whether `sender` is one of these.
fn has_sender(senders: &[Sender], sender: &Sender) -> bool
    ensures { result ≡ has_sender senders.now sender.now }
{
    for one in senders {
        if is_same(one, sender) {
            return true;
        }
    }
    false
}

/// The number of a sender, if it is a party that has one.
fn number_in(sender: &Sender) -> Option<usize>
    ensures { result ≡ sender_number sender.now }
{
    match sender {
        Sender::Nobody => None,
        Sender::Party(party) => party.number,
    }
}

/// Adds unset marks up to the number `last`.
fn grow(marks: &mut Vec<bool>, last: usize) -> Result<(), AllocError>
    ensures kept { OnOk result ((n : ℕ) → is_marked marks.new.items n ≡ is_marked marks.old.items n) }
    ensures there { OnOk result (last < length marks.new.items) }
{
    while marks.len() <= last {
        marks.push(false)?;
    }
    Ok(())
}

/// Marks the number of one more sender.
fn note(marks: &mut Vec<bool>, sender: &Sender) -> Result<(), AllocError>
    ensures { OnOk result ((xs : List the_sender.Sender) → HaveMarks xs marks.old.items → HaveMarks (xs ++ sender.now ∷ []) marks.new.items) }
{
    match number_in(sender) {
        None => Ok(()),
        Some(number) => {
            grow(marks, number)?;
            marks[number] = true;
            Ok(())
        }
    }
}

/// Whether `sender` is one of these, whose numbers are all marked. Only a sender without a number is searched for.
fn is_one_of(senders: &[Sender], marks: &[bool], sender: &Sender) -> bool
    requires { HaveMarks senders.now marks.now }
    ensures { result ≡ has_sender senders.now sender.now }
{
    match number_in(sender) {
        None => has_sender(senders, sender),
        Some(number) => is_marked(marks, number),
    }
}

/// Adds a sender, unless it is there.
fn add_sender(
    senders: &mut Vec<Sender>,
    marks: &mut Vec<bool>,
    sender: &Sender,
) -> Result<(), AllocError>
    requires { HaveMarks senders.old.items marks.old.items }
    ensures senders { OnOk result (senders.new.items ≡ add_sender senders.old.items sender.now) }
    ensures marks { OnOk result (HaveMarks senders.new.items marks.new.items) }
{
    if is_one_of(senders, marks, sender) {
        return Ok(());
    }
    note(marks, sender)?;
    senders.push(*sender)?;
    Ok(())
}

/// Adds the senders of a row, each unless it is there.
fn add_senders(
    senders: &mut Vec<Sender>,
    marks: &mut Vec<bool>,
    row: &[Sender],
) -> Result<(), AllocError>
    requires { HaveMarks senders.old.items marks.old.items }
    ensures senders { OnOk result (senders.new.items ≡ fold add_sender senders.old.items row.now) }
    ensures marks { OnOk result (HaveMarks senders.new.items marks.new.items) }
{
    for sender in row {
        add_sender(senders, marks, sender)?;
    }
    Ok(())
}

/// The senders of some rows, each only once.
pub(crate) fn distinct_senders(
    alloc: Global,
    rows: &[Vec<Sender>],
) -> Result<Vec<Sender>, AllocError>
    ensures { IfOk result (λ v. v.items ≡ distinct rows.now) }
{
    let mut senders = Vec::new(alloc);
    let mut marks = Vec::new(alloc);
    for row in rows {
        add_senders(&mut senders, &mut marks, row)?;
    }
    Ok(senders)
}

/// A row of senders, with a mark for each number that one of them has.
#[derive(Drop)]
pub(crate) struct MarkedRow<'a> {
    row: &'a Vec<Sender>,
    marks: Vec<bool>,
    ghost marked: { HaveMarks row.now.items marks.items },
}

/// A row with its marks.
fn mark_row<'a>(alloc: Global, row: &'a Vec<Sender>) -> Result<MarkedRow<'a>, AllocError>
    ensures { IfOk result (λ m. m.row.now ≡ row.now) }
{
    let mut marks = Vec::new(alloc);
    for sender in row {
        note(&mut marks, sender)?;
    }
    Ok(MarkedRow { row, marks })
}

/// Some rows with their marks, which save a search for a sender in each.
pub(crate) fn mark_rows<'a>(
    alloc: Global,
    rows: &'a [Vec<Sender>],
) -> Result<Vec<MarkedRow<'a>>, AllocError>
    ensures { IfOk result (λ v. map (λ m. m.row.now) v.items ≡ rows.now) }
{
    let mut marked = Vec::new(alloc);
    for row in rows {
        marked.push(mark_row(alloc, row)?)?;
    }
    Ok(marked)
}

/// A mark for each row that has this sender.
pub(crate) fn rows_with(
    alloc: Global,
    rows: &[MarkedRow],
    sender: &Sender,
) -> Result<Vec<bool>, AllocError>
    ensures { IfOk result (λ v. v.items ≡ map (λ m. has_sender m.row.now.items sender.now) rows.now) }
{
    let mut marks = Vec::new(alloc);
    for row in rows {
        marks.push(is_one_of(row.row, &row.marks, sender))?;
    }
    Ok(marks)
}
