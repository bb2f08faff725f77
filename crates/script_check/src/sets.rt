//! Process sets, as commands name them.
ghost use Rattle.std.specs.Prelude.{◌≡◌, ◌↔◌, List, ℕ, Ok, Err, IfOk, IfErr, IsFalse};
ghost use Rattle.plain_text.specs.Reading.{Keeps};
ghost use Rattle.turn_verify.specs.Loaded.{IsRefused};
ghost use Rattle.script_check.specs.Checked.{given, own_word, IsFound, IsGiven, IsRefusal, IsRefusalOf, IsRefusedAt, IsSetOf, IsText, IsTold, IsTooLong, PointsIn, PointsOut};
ghost use Rattle.script_point.specs.Own.{text_of};
ghost use Rattle.script_check.specs.declared.sets.SetFault.TheVariants.{NotRead};
ghost use Rattle.script_check.specs.declared.sets.SetWord.TheVariants.{Text};

use crate::telling::told_of;
use plain_text::{MOST_BYTES, TextRead, line_at_limit, read_text};
use script_point::{OwnSet, TextLimits, point_head, point_nowhere, point_out, text_limits};
use sdl_lex::LexFault;
use std::alloc::{AllocError, Global};
use std::io::Read;
use std::{fmt, str};
use thiserror::Error;
use turn_check::Verified;
use turn_verify::{LoadFault, load};

/// A process set, as a command names it.
#[derive(Drop)]
pub enum SetWord<R> {
    /// `standard`: the signalling link terminal, a built-in text.
    Standard,
    /// `q703`: the signalling link terminal exactly as in Q.703, a built-in text.
    Q703,
    /// `monitors`: the two error rate monitors, a built-in text.
    Monitors,
    /// The set of the text that a reader returns.
    Text(R),
}

impl<R> SetWord<R> {
    /// The word for a built-in set.
    pub fn of_own(own: OwnSet) -> SetWord<R>
        ensures { result ≡ own_word own }
    {
        match own {
            OwnSet::Standard => SetWord::Standard,
            OwnSet::Q703 => SetWord::Q703,
            OwnSet::Monitors => SetWord::Monitors,
        }
    }

    /// The built-in set that is named; the reader of the text if it is another one.
    pub fn own(self) -> Result<OwnSet, R>
        ensures own { IfOk result (λ own. self ≡ own_word own) }
        ensures text { IfErr result (λ reader. self ≡ Text reader) }
    {
        match self {
            SetWord::Standard => Ok(OwnSet::Standard),
            SetWord::Q703 => Ok(OwnSet::Q703),
            SetWord::Monitors => Ok(OwnSet::Monitors),
            SetWord::Text(reader) => Err(reader),
        }
    }
}

/// Why there is no set.
#[derive(Debug, Drop, Error)]
pub enum SetFault {
    /// A read failed, the text had no end within 1,000,000 reads, or memory ran out while reading.
    NotRead,
    /// The bytes are not UTF-8.
    NotText,
    /// The text is refused.
    Load(LoadFault),
}

impl fmt::Display for SetFault {
    ghost use Rattle.std.specs.Prelude.{Some};
    ghost use Rattle.script_check.specs.Printed.{fault_text};

    ghost output = { λ e. Some (fault_text e) };

    fn fmt<W: fmt::Write>(&self, f: &mut fmt::Formatter<W>) -> fmt::Result {
        match self {
            Self::NotRead => f.write_str("not read"),
            Self::NotText => f.write_str("F1 NotText"),
            Self::Load(fault) => fmt::Display::fmt(fault, f),
        }
    }
}

impl SetFault {
    /// Whether memory or a read failed, so that no text is refused.
    pub fn is_failure(&self) -> bool
        ensures { IsFalse result ↔ IsRefusal self.now }
    {
        match self {
            SetFault::Load(fault) => fault.wants_memory(),
            SetFault::NotRead => true,
            SetFault::NotText => false,
        }
    }
}

/// Why there is no set, and the place in its text.
#[derive(Debug, Drop)]
pub struct Refusal {
    /// Why there is no set.
    pub fault: SetFault,
    /// The lines that point at the fault, to follow the file's name; empty if no text is refused.
    pub pointed: Vec<u8>,
}

/// A set of processes, with the limits of forced retransmission that its text has.
#[derive(Drop)]
pub struct FoundSet {
    /// The set.
    pub set: Verified,
    /// The limits of its text.
    pub limits: TextLimits,
}

/// The fault of a text that is too long and begins with these bytes.
fn too_long(kept: &[u8]) -> LoadFault
    ensures { (bytes : List ℕ) → IsTooLong bytes kept.now → IsRefused bytes result }
{
    LoadFault::Lex {
        fault: LexFault::TooLong(MOST_BYTES as u32),
        line: line_at_limit(kept),
    }
}

/// The set of a text that was read, or why it has none.
fn set_in(alloc: Global, read: &TextRead) -> Result<FoundSet, SetFault>
    ensures set { IfOk result (λ found. (bytes : List ℕ) → Keeps bytes read.now → IsFound bytes found) }
    ensures fault { IfErr result (λ e. IsRefusal e → (bytes : List ℕ) → Keeps bytes read.now → IsRefusalOf bytes e) }
{
    if !read.is_text {
        return Err(SetFault::NotText);
    }
    if read.is_too_long() {
        return Err(SetFault::Load(too_long(&read.kept)));
    }
    match str::from_utf8(&read.kept) {
        Ok(text) => text_set(alloc, text),
        Err(_) => Err(SetFault::NotText),
    }
}

/// A set with the limits of its text.
fn with_limits(alloc: Global, text: &str, set: Verified) -> Result<FoundSet, SetFault>
    requires { IsSetOf text.now set }
    ensures set { IfOk result (IsFound text.now) }
    ensures fault { IfErr result (λ e. IsRefusal e → ⊥) }
    ensures read { IfErr result (λ e. e ≡ NotRead → ⊥) }
{
    match text_limits(alloc, text) {
        Ok(limits) => Ok(FoundSet { set, limits }),
        Err(_) => Err(SetFault::Load(LoadFault::NoMemory)),
    }
}

/// The set of a text, or why it has none.
fn text_set(alloc: Global, text: &str) -> Result<FoundSet, SetFault>
    ensures set { IfOk result (IsFound text.now) }
    ensures fault { IfErr result (λ e. IsRefusal e → IsRefusalOf text.now e) }
{
    match load(alloc, text) {
        Ok(set) => with_limits(alloc, text, set),
        Err(fault) => Err(SetFault::Load(fault)),
    }
}

/// A built-in set.
fn own_set(alloc: Global, own: OwnSet) -> Result<FoundSet, SetFault>
    ensures set { IfOk result (IsFound (text_of own)) }
    ensures fault { IfErr result (λ e. IsRefusal e → IsRefusalOf (text_of own) e) }
    ensures own { IfErr result (λ e. e ≡ NotRead → ⊥) }
{
    match own.load(alloc) {
        Ok(set) => with_limits(alloc, own.text(), set),
        Err(fault) => Err(SetFault::Load(fault)),
    }
}

/// Points at a fault of a text, given its first bytes, up to one more than a text may have.
fn point_at(alloc: Global, kept: &[u8], fault: &SetFault) -> Result<Vec<u8>, AllocError>
    ensures { IfOk result (λ v. PointsOut kept.now fault.now v.items) }
{
    match fault {
        SetFault::Load(fault) => point_in(alloc, kept, fault),
        SetFault::NotText => point_nowhere(alloc, "F1 NotText", ""),
        SetFault::NotRead => Ok(Vec::new(alloc)),
    }
}

/// Points at a fault that `load` found in a text; if the text is too long, at the first byte beyond the limit.
fn point_in(alloc: Global, kept: &[u8], fault: &LoadFault) -> Result<Vec<u8>, AllocError>
    ensures { IfOk result (λ v. PointsIn kept.now fault.now v.items) }
{
    if kept.len() > MOST_BYTES {
        return point_head(
            alloc,
            kept,
            MOST_BYTES,
            "L3 TooLong",
            "a text has 262144 octets at most",
        );
    }
    match str::from_utf8(kept) {
        Ok(text) => point_told(alloc, text, fault),
        Err(_) => Ok(Vec::new(alloc)),
    }
}

/// Points at a fault that `load` found in a text, with its notes.
fn point_told(alloc: Global, text: &str, fault: &LoadFault) -> Result<Vec<u8>, AllocError>
    ensures { IfOk result (λ v. IsTold text.now fault.now v.items) }
{
    let told = told_of(alloc, text, fault)?;
    point_out(alloc, text, fault, &told)
}

/// A fault with the lines that point at it; `NoMemory` instead if memory runs out for these lines.
fn refusal_of(alloc: Global, kept: &[u8], fault: SetFault) -> Refusal
    ensures refused { IsRefusal result.fault → (result.fault ≡ fault) × PointsOut kept.now result.fault result.pointed.items }
    ensures read { result.fault ≡ NotRead → fault ≡ NotRead }
{
    match point_at(alloc, kept, &fault) {
        Ok(pointed) => Refusal { fault, pointed },
        Err(_) => Refusal {
            fault: SetFault::Load(LoadFault::NoMemory),
            pointed: Vec::new(alloc),
        },
    }
}

/// The loaded set, or its fault with the place, given the first bytes of the text.
fn pointed_set(
    alloc: Global,
    kept: &[u8],
    loaded: Result<FoundSet, SetFault>,
) -> Result<FoundSet, Refusal>
    ensures set { IfOk result (λ found. loaded ≡ Ok found) }
    ensures fault { IfErr result (λ r. IsRefusal r.fault → (loaded ≡ Err r.fault) × PointsOut kept.now r.fault r.pointed.items) }
    ensures read { IfErr result (λ r. r.fault ≡ NotRead → loaded ≡ Err NotRead) }
{
    match loaded {
        Ok(set) => Ok(set),
        Err(fault) => Err(refusal_of(alloc, kept, fault)),
    }
}

/// The set of the text that a reader returns, or why it has none, and the place.
fn read_set<R: Read>(alloc: Global, reader: &mut R) -> Result<FoundSet, Refusal>
    ensures set { IfOk result (λ found. IsGiven (R.remaining reader.old) (λ bytes. IsFound bytes found)) }
    ensures fault { IfErr result (λ r. IsRefusal r.fault → IsGiven (R.remaining reader.old) (λ bytes. IsRefusedAt bytes r)) }
{
    match read_text(alloc, reader) {
        Ok(read) => {
            let loaded = set_in(alloc, &read);
            pointed_set(alloc, &read.kept, loaded)
        }
        Err(_) => Err(Refusal {
            fault: SetFault::NotRead,
            pointed: Vec::new(alloc),
        }),
    }
}

/// The set that a command names, with the limits of its text, or why there is none and the place in its text. The whole
/// text is read: bytes that aren't UTF-8 are reported before a text that is too long. It keeps at most 262,145 bytes.
///
/// # Errors
///
/// The fault is [`SetFault::NotText`] (F1) if the bytes aren't UTF-8, [`SetFault::Load`] if `load` refuses the text,
/// [`SetFault::NotRead`] if a read failed (never for built-in sets), or [`LoadFault::NoMemory`].
pub fn find_set<R: Read + Drop>(alloc: Global, set: SetWord<R>) -> Result<FoundSet, Refusal>
    ensures set { IfOk result (λ found. IsGiven (given R.remaining set) (λ bytes. IsFound bytes found)) }
    ensures fault { IfErr result (λ r. IsRefusal r.fault → IsGiven (given R.remaining set) (λ bytes. IsRefusedAt bytes r)) }
    ensures read { IfErr result (λ r. r.fault ≡ NotRead → IsText set) }
{
    match set.own() {
        Ok(own) => pointed_set(alloc, own.text().as_bytes(), own_set(alloc, own)),
        Err(mut reader) => read_set(alloc, &mut reader),
    }
}

/// The set that a command names, with the limits of its text, or why there is none: as `find_set`, without the place.
pub fn load_set<R: Read + Drop>(alloc: Global, set: SetWord<R>) -> Result<FoundSet, SetFault>
    ensures set { IfOk result (λ found. IsGiven (given R.remaining set) (λ bytes. IsFound bytes found)) }
    ensures fault { IfErr result (λ e. IsRefusal e → IsGiven (given R.remaining set) (λ bytes. IsRefusalOf bytes e)) }
    ensures read { IfErr result (λ e. e ≡ NotRead → IsText set) }
{
    match find_set(alloc, set) {
        Ok(found) => Ok(found),
        Err(Refusal { fault, pointed: _ }) => Err(fault),
    }
}
