//! Texts, and their tokens and faults by the lexical rules.
use sdl_lex::{LexFault, Name, Token, line_of, tokens};
use std::alloc::{AllocError, Global};
use std::collections::HashMap;
use std::str;

const COUNTER: &str = "BLOCK B; SIGNAL Up(Integer);
SIGNALROUTE r FROM ENV TO P WITH Up;
PROCESS P (1,1); DCL n, total Integer;
START; TASK total := 0; NEXTSTATE Run;
STATE Run; INPUT Up(n); TASK total := total + n; NEXTSTATE Run;
ENDSTATE Run; ENDPROCESS P; ENDBLOCK B;
";

// The tokens of COUNTER, cut by hand.
const CUT: &str = "BLOCK B ; SIGNAL Up ( Integer ) ; SIGNALROUTE r FROM ENV TO P WITH Up ; \
PROCESS P ( 1 , 1 ) ; DCL n , total Integer ; START ; TASK total := 0 ; NEXTSTATE Run ; \
STATE Run ; INPUT Up ( n ) ; TASK total := total + n ; NEXTSTATE Run ; \
ENDSTATE Run ; ENDPROCESS P ; ENDBLOCK B ;";

/// Whether a token is at the place of a piece of a text.
fn is_piece(text: &str, token: &Token, piece: &str) -> bool {
    text.as_bytes()
        .get(token.start as usize..token.end as usize)
        == Some(piece.as_bytes())
}

/// Whether exactly these tokens are at the places of these pieces.
fn are_pieces(text: &str, found: &[Token], pieces: &str) -> bool {
    let mut places = found.iter();
    for piece in pieces.split(' ') {
        match places.next() {
            Some(token) if is_piece(text, token, piece) => {}
            _ => return false,
        }
    }
    places.next().is_none()
}

/// Whether a text is cut in this way.
fn is_cut(alloc: Global, text: &str, pieces: &str) -> bool {
    match tokens(alloc, text) {
        Ok(found) => are_pieces(text, found.as_slice(), pieces),
        Err(_) => false,
    }
}

#[test]
fn counter_text(rt: HostRuntime) {
    assert!(rt; is_cut(rt.alloc(), COUNTER, CUT));
}

/// Texts, and their lexemes as `Debug` prints them, without places.
const LEXEMES: [(&str, &str); 4] = [
    (
        "BLOCK B; SIGNAL Up(Integer",
        "[Word(Block), Name(\"B\"), Symbol(Semicolon), Word(Signal), Name(\"Up\"), Symbol(Open), Word(Integer)]",
    ),
    // `*/` outside a comment, and a colon with a space before its `=`
    (
        ";,::=()+-*/ =/=<<=>>=/**/*/: /* :=\n /* ' é **/=",
        "[Symbol(Semicolon), Symbol(Comma), Symbol(Colon), Symbol(Assign), Symbol(Open), Symbol(Close), Symbol(Plus), \
Symbol(Minus), Symbol(Star), Symbol(Slash), Symbol(Equal), Symbol(NotEqual), Symbol(Less), Symbol(LessEqual), \
Symbol(Greater), Symbol(GreaterEqual), Symbol(Star), Symbol(Slash), Symbol(Colon), Symbol(Equal)]",
    ),
    (
        "12abc 007 2147483647 00002147483647 eNdBlOcK ENDBLOCKS x_9",
        "[Number(12), Name(\"abc\"), Number(7), Number(2147483647), Number(2147483647), Word(EndBlock), \
Name(\"ENDBLOCKS\"), Name(\"x_9\")]",
    ),
    (
        "TASK 'a' 'b';'it''s /*';/* ' */;",
        "[Word(Task), Quoted, Quoted, Symbol(Semicolon), Quoted, Symbol(Semicolon), Symbol(Semicolon)]",
    ),
];

/// Texts, and the printed text of their tokens with places.
const PLACES: [(&str, &str); 5] = [
    (
        "'' Synonym",
        "[Token { lexeme: Quoted, start: 0, end: 2, with_synonyms: true }, Token { lexeme: Word(Synonym), start: 3, end: 10, with_synonyms: true }]",
    ),
    (
        "''",
        "[Token { lexeme: Quoted, start: 0, end: 2, with_synonyms: false }]",
    ),
    (
        " 'a''b'",
        "[Token { lexeme: Quoted, start: 1, end: 7, with_synonyms: false }]",
    ),
    (
        "''''''",
        "[Token { lexeme: Quoted, start: 0, end: 6, with_synonyms: false }]",
    ),
    (
        "'/*\n\u{e9} ? 2147483648'''",
        "[Token { lexeme: Quoted, start: 0, end: 22, with_synonyms: false }]",
    ),
];

/// The printed text of a text's tokens.
fn shown_tokens(alloc: Global, text: &str) -> Option<String> {
    let found = tokens(alloc, text).ok()?;
    format!(in alloc; "{:?}", found.as_slice()).ok()
}

/// The printed text of their lexemes.
fn shown_lexemes(alloc: Global, text: &str) -> Option<String> {
    let found = tokens(alloc, text).ok()?;
    let mut lexemes = Vec::new(alloc);
    for token in &found {
        lexemes.push(token.lexeme).ok()?;
    }
    format!(in alloc; "{:?}", lexemes.as_slice()).ok()
}

/// Whether this is the printed text.
fn is_text(shown: Option<String>, wanted: &str) -> bool {
    match shown {
        Some(found) => found.as_str() == wanted,
        None => false,
    }
}

/// The index of the first text with other lexemes.
fn first_other_lexemes(alloc: Global, rows: &[(&str, &str)]) -> Option<usize> {
    for (number, (text, wanted)) in rows.iter().enumerate() {
        if !is_text(shown_lexemes(alloc, text), wanted) {
            return Some(number);
        }
    }
    None
}

/// The index of the first text with other tokens.
fn first_other_tokens(alloc: Global, rows: &[(&str, &str)]) -> Option<usize> {
    for (number, (text, wanted)) in rows.iter().enumerate() {
        if !is_text(shown_tokens(alloc, text), wanted) {
            return Some(number);
        }
    }
    None
}

#[test]
fn lexemes_and_places(rt: HostRuntime) {
    assert_eq!(rt; first_other_lexemes(rt.alloc(), &LEXEMES), None);
    assert_eq!(rt; first_other_tokens(rt.alloc(), &PLACES), None);
}

/// Texts and their faults; a name of the greatest length has no fault.
const REFUSED: [(&str, Option<LexFault>); 17] = [
    ("x := 'a;", Some(LexFault::OpenComment(5))),
    ("'''", Some(LexFault::OpenComment(0))),
    ("'a''' /* ' */ 'b''", Some(LexFault::OpenComment(14))),
    ("/* ' */ ? '", Some(LexFault::BadCharacter(8))),
    ("x _y", Some(LexFault::BadCharacter(2))),
    ("\u{feff}BLOCK", Some(LexFault::BadCharacter(0))),
    ("a é", Some(LexFault::BadCharacter(2))),
    ("a\u{c}", Some(LexFault::BadCharacter(1))),
    ("a /*/", Some(LexFault::OpenComment(2))),
    ("a /* * / 2147483648 ?", Some(LexFault::OpenComment(2))),
    ("/* a */ /*", Some(LexFault::OpenComment(8))),
    ("2147483648", Some(LexFault::TooLong(0))),
    ("-2147483648", Some(LexFault::TooLong(1))),
    ("a 99999999999999999999999999", Some(LexFault::TooLong(2))),
    (
        " aaaaaaaaaabbbbbbbbbbcccccccccc123 ?",
        Some(LexFault::TooLong(1)),
    ),
    ("? 2147483648", Some(LexFault::BadCharacter(0))),
    ("aaaaaaaaaabbbbbbbbbbcccccccccc12", None),
];

/// The index of the first text with another fault.
fn first_other_fault(alloc: Global, rows: &[(&str, Option<LexFault>)]) -> Option<usize> {
    for (number, (text, fault)) in rows.iter().enumerate() {
        if tokens(alloc, text).err() != *fault {
            return Some(number);
        }
    }
    None
}

#[test]
fn faults(rt: HostRuntime) {
    assert_eq!(rt; first_other_fault(rt.alloc(), &REFUSED), None);
}

/// So many bytes: this first one, and spaces.
fn spaces(alloc: Global, first: u8, count: usize) -> Option<Vec<u8>> {
    let mut bytes = Vec::from_elem(alloc, b' ', count).ok()?;
    match bytes.first_mut() {
        Some(byte) => *byte = first,
        None => return None,
    }
    Some(bytes)
}

/// The number of tokens of these bytes as a text, or the fault.
fn counted(alloc: Global, bytes: &[u8]) -> Option<Result<usize, LexFault>> {
    match tokens(alloc, str::from_utf8(bytes).ok()?) {
        Ok(found) => Some(Ok(found.len())),
        Err(fault) => Some(Err(fault)),
    }
}

/// As `counted`, for a byte and spaces after it.
fn counted_long(alloc: Global, first: u8, count: usize) -> Option<Result<usize, LexFault>> {
    let bytes = spaces(alloc, first, count)?;
    counted(alloc, bytes.as_slice())
}

#[test]
fn over_long_text(rt: HostRuntime) {
    let long = counted_long(rt.alloc(), b'?', 262_145);
    assert_eq!(rt; long, Some(Err(LexFault::TooLong(262_144))));
    let bad = counted_long(rt.alloc(), b'?', 262_144);
    assert_eq!(rt; bad, Some(Err(LexFault::BadCharacter(0))));
    let whole = counted_long(rt.alloc(), b';', 262_144);
    assert_eq!(rt; whole, Some(Ok(1)));
}

/// Places of a text, and their lines.
const PLACED: [(u32, usize); 7] = [(0, 1), (2, 1), (3, 2), (5, 2), (7, 3), (8, 4), (99, 4)];

/// The first place with another line.
fn first_other_line(text: &str, rows: &[(u32, usize)]) -> Option<u32> {
    for (place, line) in rows {
        if line_of(text, *place) != *line {
            return Some(*place);
        }
    }
    None
}

#[test]
fn lines(rt: HostRuntime) {
    assert_eq!(rt; first_other_line("a\r\nb\rc\n\nd", &PLACED), None);
}

/// Words that are no names.
const NAMELESS: [&str; 6] = [
    "",
    "9a",
    "_a",
    "a-b",
    "é",
    "aaaaaaaaaabbbbbbbbbbcccccccccc123",
];

/// The index of the first word that is a name.
fn first_name(texts: &[&str]) -> Option<usize> {
    for (number, text) in texts.iter().enumerate() {
        if Name::new(text.as_bytes()).is_some() {
            return Some(number);
        }
    }
    None
}

/// Whether two names that differ only in case are unlike, equal without case, and in small letters then.
fn are_folded(total: &Name, other: &Name) -> [bool; 3] {
    [
        total != other,
        total.folded() == other.folded(),
        other.folded().as_str() == "total_1",
    ]
}

/// The values of a name and of another one in a table in which the first has the value 4, without its case.
fn looked_up(alloc: Global, total: &Name, other: &Name) -> Result<[Option<u32>; 2], AllocError> {
    let mut table = HashMap::new(alloc);
    table.insert(total.folded(), 4)?;
    Ok([
        table.get(&other.folded()).copied(),
        table.get(other).copied(),
    ])
}

/// The results for two names that differ only in case.
fn told(alloc: Global) -> Option<([bool; 3], [Option<u32>; 2], bool)> {
    let total = Name::new(b"Total_1")?;
    let other = Name::new(b"tOTAL_1")?;
    let found = looked_up(alloc, &total, &other).ok()?;
    let printed = format!(in alloc; "{total} {total:?}").ok();
    let is_printed = is_text(printed, "Total_1 \"Total_1\"");
    Some((are_folded(&total, &other), found, is_printed))
}

#[test]
fn names(rt: HostRuntime) {
    assert_eq!(rt; first_name(&NAMELESS), None);
    assert_eq!(rt; told(rt.alloc()), Some(([true; 3], [Some(4), None], true)));
}

/// The three faults as they are printed.
fn printed_faults(alloc: Global) -> Option<String> {
    let (character, comment) = (LexFault::BadCharacter(7), LexFault::OpenComment(0));
    format!(in alloc; "{character}, {comment}, {}", LexFault::TooLong(9)).ok()
}

#[test]
fn faults_are_printed(rt: HostRuntime) {
    let wanted = "L1 BadCharacter, L2 OpenComment, L3 TooLong";
    assert!(rt; is_text(printed_faults(rt.alloc()), wanted));
}
