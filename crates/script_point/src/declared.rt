//! The places where names are declared.
use crate::contexts::Class;
use crate::reading::Reading;
use sdl_lex::{Symbol, Word};
use std::alloc::{AllocError, Global};

/// A declared name and where it is declared.
#[derive(Clone, Copy)]
pub struct Declared {
    /// The kind of thing that it declares.
    pub class: Class,
    /// The index of its token.
    pub index: usize,
    /// The index of the name of the process that contains it, as `Reading::process` returns it.
    pub process: usize,
}

/// The kind of thing that the names after a reserved word declare.
fn declares(word: Word) -> Option<Class> {
    match word {
        Word::Signal => Some(Class::Signal),
        Word::Timer => Some(Class::Timer),
        Word::Dcl => Some(Class::Variable),
        Word::Synonym => Some(Class::Synonym),
        Word::Process => Some(Class::Process),
        Word::State => Some(Class::State),
        Word::Connection => Some(Class::Connection),
        Word::SignalRoute => Some(Class::Route),
        _ => None,
    }
}

/// The state of a scan of declarations at a token.
#[derive(Clone, Copy)]
struct Scan {
    class: Option<Class>,
    depth: usize,
}

/// The scan after a reserved word: no route is declared after FROM.
fn after_word(scan: Scan, word: Word) -> Scan {
    if word == Word::From {
        return Scan {
            class: None,
            depth: 0,
        };
    }
    match declares(word) {
        Some(class) => Scan {
            class: Some(class),
            depth: 0,
        },
        None => scan,
    }
}

/// The scan after one more token.
fn scanned(scan: Scan, word: Option<Word>, symbol: Option<Symbol>) -> Scan {
    if let Some(word) = word {
        return after_word(scan, word);
    }
    match symbol {
        Some(Symbol::Open) => Scan {
            class: scan.class,
            depth: scan.depth.saturating_add(1),
        },
        Some(Symbol::Close) => Scan {
            class: scan.class,
            depth: scan.depth.saturating_sub(1),
        },
        Some(Symbol::Semicolon) | Some(Symbol::Colon) => Scan {
            class: None,
            depth: 0,
        },
        _ => scan,
    }
}

/// The index of the process name that holds after a token, if `process` holds before it.
fn process_behind(read: &Reading<'_>, process: usize, index: usize) -> usize {
    match read.word(index) {
        Some(Word::Process) => index.saturating_add(1),
        _ => process,
    }
}

/// Whether a process has begun before a token and hasn't ended.
fn is_inside(read: &Reading<'_>, inside: bool, index: usize) -> bool {
    match read.word(index) {
        Some(Word::Process) => true,
        Some(Word::EndProcess) => false,
        _ => inside,
    }
}

/// What a name is declared as. In a DCL and a SYNONYM a declared name follows that word or a comma; other names are part
/// of a value. A synonym of a process has a class of its own.
fn declared_as(read: &Reading<'_>, class: Class, inside: bool, index: usize) -> Option<Class> {
    if class != Class::Synonym && class != Class::Variable {
        return Some(class);
    }
    let before = index.saturating_sub(1);
    let begins = matches!(read.word(before), Some(Word::Synonym) | Some(Word::Dcl));
    if !begins && read.symbol(before) != Some(Symbol::Comma) {
        return None;
    }
    Some(if inside && class == Class::Synonym {
        Class::OwnSynonym
    } else {
        class
    })
}

/// All declared names, in the order of the text.
pub fn declarations(alloc: Global, read: &Reading<'_>) -> Result<Vec<Declared>, AllocError> {
    let mut all = Vec::new(alloc);
    let mut scan = Scan {
        class: None,
        depth: 0,
    };
    let mut process = 0;
    let mut inside = false;
    for index in 0..read.tokens.len() {
        scan = scanned(scan, read.word(index), read.symbol(index));
        process = process_behind(read, process, index);
        inside = is_inside(read, inside, index);
        if let Some(class) = scan.class {
            if scan.depth == 0 && read.is_name(index) {
                if let Some(class) = declared_as(read, class, inside, index) {
                    all.push(Declared {
                        class,
                        index,
                        process,
                    })?;
                }
            }
        }
    }
    Ok(all)
}

/// Whether a declared name is visible in a process.
fn is_seen(declared: &Declared, process: usize) -> bool {
    !declared.class.is_local() || declared.process == process
}

/// Where the name of a token is declared, as any kind.
pub fn find_any(read: &Reading<'_>, all: &[Declared], index: usize) -> Option<Declared> {
    let process = read.process(index);
    for declared in all {
        if read.same(declared.index, index) && is_seen(declared, process) {
            return Some(*declared);
        }
    }
    None
}

/// Where the name of a token is declared as a kind that `class` takes.
pub fn find_as(
    read: &Reading<'_>,
    all: &[Declared],
    index: usize,
    class: Class,
) -> Option<Declared> {
    let process = read.process(index);
    for declared in all {
        if class.takes(declared.class)
            && read.same(declared.index, index)
            && is_seen(declared, process)
        {
            return Some(*declared);
        }
    }
    None
}

/// The first other declaration that clashes with the one at a token, and the kind declared at the token.
pub fn find_before(
    read: &Reading<'_>,
    all: &[Declared],
    index: usize,
) -> Option<(Declared, Class)> {
    let class = declared_at(all, index)?;
    let process = read.process(index);
    for declared in all {
        if declared.index != index
            && class.clashes(declared.class)
            && read.same(declared.index, index)
            && is_seen(declared, process)
        {
            return Some((*declared, class));
        }
    }
    None
}

/// The kind that the token with this index declares.
fn declared_at(all: &[Declared], index: usize) -> Option<Class> {
    match all.iter().find(|declared| declared.index == index) {
        Some(declared) => Some(declared.class),
        None => None,
    }
}

/// The length of the common prefix of two texts in bytes, without regard to case.
fn alike(one: &[u8], other: &[u8]) -> usize {
    let mut count: usize = 0;
    for (a, b) in one.iter().zip(other) {
        if !a.eq_ignore_ascii_case(b) {
            return count;
        }
        count = count.saturating_add(1);
    }
    count
}

/// Whether two names of three letters or more differ in one letter: replaced, added or missing.
fn is_near(one: &str, other: &str) -> bool {
    let (longer, shorter) = if one.len() < other.len() {
        (other.as_bytes(), one.as_bytes())
    } else {
        (one.as_bytes(), other.as_bytes())
    };
    let more = longer.len().saturating_sub(shorter.len());
    if shorter.len() < 3 || more > 1 {
        return false;
    }
    let same = alike(longer, shorter);
    let behind = same.saturating_add(1);
    let rest = longer.get(behind..).unwrap_or(&[]);
    let tail = shorter.get(behind.saturating_sub(more)..).unwrap_or(&[]);
    rest.eq_ignore_ascii_case(tail)
}

/// A name that could be meant: declared as a kind that `class` takes, and spelled with at most one letter changed.
pub fn find_near(
    read: &Reading<'_>,
    all: &[Declared],
    index: usize,
    class: Class,
) -> Option<Declared> {
    let process = read.process(index);
    for declared in all {
        if class.takes(declared.class)
            && is_seen(declared, process)
            && is_near(read.spelled(declared.index), read.spelled(index))
        {
            return Some(*declared);
        }
    }
    None
}
