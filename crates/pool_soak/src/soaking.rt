//! The command `soak`.

ghost use Rattle.std.specs.Prelude.{◌≡◌, ◌↔◌, ◌⊎◌, ◌+◌, ◌≤◌, IsTrue, List, ℕ, Some, true, false, IfOk, IfSome, OnOk, sum, sum_by, vec_len};
ghost use Rattle.std.specs.Io.KnownBytes.{Appends};
ghost use Rattle.script_lines.specs.declared.script.ScriptFault.TheVariants.{BadLine};
ghost use Rattle.plain_text.specs.Reading.{Keeps};
ghost use Rattle.script_check.specs.Checked.{IsGiven};
ghost use Rattle.actor_machine.specs.Kept.{opened_book};
ghost use Rattle.actor_machine.specs.Ledger.{next};
ghost use Rattle.pool_soak.specs.Books.{AreOpened, AreBegun, AreKept, PORT, ENVIRONMENT, JOURNAL};
ghost use Rattle.pool_soak.specs.Findings.{IsEnd, IsSoaked, IsSoakedInVain, IsTurnedDown, PrintsFault, lines_with};
ghost use Rattle.plain_laws.specs.Limits.{LEAST_WORKERS, MOST_WORKERS};

use crate::client::{Open, Script};
use crate::finding_lines::{audit_of, seats_of, status_of};
use crate::findings::agree;
use crate::script::{Soak, soak_script};
use crate::soak_faults::{explain, explain_length};
use actor_book::{Book, Limits};
use mtp2_text::standard;
use plain_text::{FAILED, TextRead, line_at_limit, read_text, refuse, write_line};
use script_lines::ScriptFault;
use std::alloc::{AllocError, Global};
use std::io::{self, Read, Write};
use std::str;
use std::sync::Wait;
use std::thread::Threads;
use turn_check::Verified;
use turn_pool::{Closed, Receipt, serve};

/// As [`soak_telling`], but says nowhere why a line of the script is bad.
pub fn soak<R: Threads + Wait + Sync, S: Read + Drop, W: Write>(
    rt: &R,
    alloc: Global,
    script: S,
    workers: usize,
    writer: &mut W,
) -> u8
    ensures held { result ≡ 0 → IsGiven (S.remaining script) (IsSoaked (W.contents writer.old) (W.contents writer.new)) }
    ensures differs { result ≡ 1 → IsGiven (S.remaining script) (IsSoakedInVain (W.contents writer.old) (W.contents writer.new)) }
    ensures refused { result ≡ 2 → IsGiven (S.remaining script) (IsTurnedDown (W.contents writer.old) (W.contents writer.new)) }
    ensures served { (result ≡ 0) ⊎ (result ≡ 1) → (LEAST_WORKERS ≤ workers) × (workers ≤ MOST_WORKERS) }
    ensures status { (result ≡ 0) ⊎ (result ≡ 1) ⊎ (result ≡ 2) ⊎ (result ≡ 4) }
{
    soak_telling(rt, alloc, script, workers, writer, &mut io::sink())
}

/// Lets threads serve links that run the process set `standard`, carries out a script on them, and prints two lines.
/// The first is `seats agree`: the counts match the journals (`seats differ` is checked for, but never occurs). The
/// second is `audit yes` if there is a receipt for each event that the script made, and each receipt's event is at its
/// place; else it is `audit no`. The commands of the script print nothing; a refused command has no receipt.
///
/// The whole script is read before anything is written; a bad line is refused before anything runs. Each line is one
/// write.
///
/// Returns the exit status. 0: all agrees and was written. 1: the second line is `audit no`. 2: the script was refused;
/// only `refused F1 NotText` was written if it is no text, else `refused X1 BadLine line N` with its first bad line. 4:
/// out of memory, a read or a write failed, the number of workers isn't 1 to 16, or no thread can be made. Nothing is
/// written after a write that failed. The reason why a line is bad is written to `errors` (only tests show that).
pub fn soak_telling<R: Threads + Wait + Sync, S: Read + Drop, W: Write, E: Write>(
    rt: &R,
    alloc: Global,
    mut script: S,
    workers: usize,
    writer: &mut W,
    errors: &mut E,
) -> u8
    ensures held { result ≡ 0 → IsGiven (S.remaining script) (IsSoaked (W.contents writer.old) (W.contents writer.new)) }
    ensures differs { result ≡ 1 → IsGiven (S.remaining script) (IsSoakedInVain (W.contents writer.old) (W.contents writer.new)) }
    ensures refused { result ≡ 2 → IsGiven (S.remaining script) (IsTurnedDown (W.contents writer.old) (W.contents writer.new)) }
    ensures served { (result ≡ 0) ⊎ (result ≡ 1) → (LEAST_WORKERS ≤ workers) × (workers ≤ MOST_WORKERS) }
    ensures status { (result ≡ 0) ⊎ (result ≡ 1) ⊎ (result ≡ 2) ⊎ (result ≡ 4) }
{
    match read_text(alloc, &mut script) {
        Ok(read) => soak_text(rt, alloc, &read, workers, writer, errors),
        Err(_) => FAILED,
    }
}

/// Writes the fault of a script. Returns the exit status.
fn refuse_script<W: Write>(alloc: Global, writer: &mut W, fault: ScriptFault) -> u8
    ensures printed { result ≡ 2 → PrintsFault (W.contents writer.old) (W.contents writer.new) fault }
    ensures status { (result ≡ 2) ⊎ (result ≡ 4) }
{
    match fault {
        ScriptFault::BadLine(_) => refuse(alloc, writer, &format_args!("refused {fault}")),
        ScriptFault::NoMemory => FAILED,
    }
}

/// Runs the script of a text that was read. Returns the exit status.
fn soak_text<R: Threads + Wait + Sync, W: Write, E: Write>(
    rt: &R,
    alloc: Global,
    read: &TextRead,
    workers: usize,
    writer: &mut W,
    errors: &mut E,
) -> u8
    ensures ends { (bytes : List ℕ) → Keeps bytes read.now → IsEnd result (W.contents writer.old) (W.contents writer.new) bytes }
    ensures served { (result ≡ 0) ⊎ (result ≡ 1) → (LEAST_WORKERS ≤ workers) × (workers ≤ MOST_WORKERS) }
    ensures status { (result ≡ 0) ⊎ (result ≡ 1) ⊎ (result ≡ 2) ⊎ (result ≡ 4) }
{
    if !read.is_text {
        return refuse(alloc, writer, &"refused F1 NotText");
    }
    if read.is_too_long() {
        let line = line_at_limit(&read.kept);
        explain_length(alloc, line, errors);
        return refuse_script(alloc, writer, ScriptFault::BadLine(line));
    }
    match str::from_utf8(&read.kept) {
        Ok(text) => match soak_script(alloc, text) {
            Ok(script) => run_script(rt, alloc, &script, workers, writer),
            Err(fault) => {
                explain(alloc, text, fault, errors);
                refuse_script(alloc, writer, fault)
            }
        },
        Err(_) => refuse(alloc, writer, &"refused F1 NotText"),
    }
}

/// Runs a script. Returns the exit status.
fn run_script<R: Threads + Wait + Sync, W: Write>(
    rt: &R,
    alloc: Global,
    soak: &Soak<'_>,
    workers: usize,
    writer: &mut W,
) -> u8
    ensures held { result ≡ 0 → Appends (W.contents writer.old) (W.contents writer.new) (lines_with true true) }
    ensures differs { result ≡ 1 → Appends (W.contents writer.old) (W.contents writer.new) (lines_with true false) }
    ensures served { (result ≡ 0) ⊎ (result ≡ 1) → (LEAST_WORKERS ≤ workers) × (workers ≤ MOST_WORKERS) }
    ensures status { (result ≡ 0) ⊎ (result ≡ 1) ⊎ (result ≡ 4) }
{
    match soak_links(rt, alloc, soak, workers, writer) {
        Some(status) => status,
        None => FAILED,
    }
}

/// The largest number of signals in a port of a link.
const PORT: usize = 16;

/// The largest number of signals that wait for its environment.
const ENVIRONMENT: usize = 64;

/// The largest number of events in its journal.
const JOURNAL: usize = 4_096;

/// A new book.
fn book_of(alloc: Global, set: &Verified) -> Result<Book, AllocError>
    ensures { IfOk result (λ b. b ≡ opened_book set.now PORT ENVIRONMENT JOURNAL) }
{
    match Limits::new(PORT, ENVIRONMENT, JOURNAL) {
        Some(limits) => Book::open(alloc, set, limits),
        None => unreachable!(),
    }
}

/// This many new books.
#[tactic(auto, using(crate::proofs::Books::one_more, crate::proofs::Books::none_more))]
fn books_of(alloc: Global, set: &Verified, links: u32) -> Result<Vec<Book>, AllocError>
    ensures { IfOk result (λ books. AreOpened set.now links books.items) }
{
    let mut books = Vec::new(alloc);
    for _opened in 0..links {
        let book = book_of(alloc, set)?;
        books.push(book)?;
    }
    Ok(books)
}

/// The process set `standard`, and as many new links as the script states.
fn begun(alloc: Global, soak: &Soak<'_>) -> Option<(Verified, Vec<Book>)>
    ensures { IfSome result (λ r. AreBegun soak.now.links r.0 r.1.items) }
{
    let links = soak.links?;
    let Ok(set) = standard(alloc) else {
        return None;
    };
    match books_of(alloc, &set, links) {
        Ok(books) => Some((set, books)),
        Err(_) => None,
    }
}

/// Serves links while a script runs. Returns the closed pool, and the receipts of the script's client.
#[tactic(auto, using(crate::proofs::Books::said))]
fn served<R: Threads + Wait + Sync>(
    rt: &R,
    alloc: Global,
    set: &Verified,
    soak: &Soak<'_>,
    books: Vec<Book>,
    workers: usize,
) -> Option<(Closed, Vec<Receipt>)>
    requires { AreBegun soak.now.links set.now books.items }
    ensures links { IfSome result (λ r. soak.now.links ≡ Some (vec_len r.0.books)) }
    ensures workers { IfSome result (λ r. vec_len r.0.workers ≡ workers) }
    ensures served { IfSome result (λ _. (LEAST_WORKERS ≤ workers) × (workers ≤ MOST_WORKERS)) }
    ensures agree { IfSome result (λ r. r.0.client + sum r.0.workers.items ≡ sum_by next r.0.books.items) }
{
    let Ok(receipts) = Vec::with_capacity(alloc, soak.steps.len()) else {
        return None;
    };
    let mut script = Script {
        set,
        steps: &soak.steps,
        receipts,
    };
    match serve(rt, alloc, books, workers, &Open, &mut script) {
        Ok(closed) => Some((closed, script.receipts)),
        Err(_) => None,
    }
}

/// Serves as many links of the process set `standard` as a script states, with this many threads, while the script's
/// commands are carried out in order. Returns the closed pool, and the receipts of accepted commands, in order. Returns
/// none if the script states no number of links, the workers aren't 1 to 16, memory runs out, or no thread can be made.
pub fn soaked<R: Threads + Wait + Sync>(
    rt: &R,
    alloc: Global,
    soak: &Soak<'_>,
    workers: usize,
) -> Option<(Closed, Vec<Receipt>)>
    ensures links { IfSome result (λ r. soak.now.links ≡ Some (vec_len r.0.books)) }
    ensures workers { IfSome result (λ r. vec_len r.0.workers ≡ workers) }
    ensures served { IfSome result (λ _. (LEAST_WORKERS ≤ workers) × (workers ≤ MOST_WORKERS)) }
    ensures agree { IfSome result (λ r. r.0.client + sum r.0.workers.items ≡ sum_by next r.0.books.items) }
{
    let (set, books) = begun(alloc, soak)?;
    served(rt, alloc, &set, soak, books, workers)
}

/// Serves the links of a script and writes the findings. Returns the exit status; none stands for 4.
fn soak_links<R: Threads + Wait + Sync, W: Write>(
    rt: &R,
    alloc: Global,
    soak: &Soak<'_>,
    workers: usize,
    writer: &mut W,
) -> Option<u8>
    ensures held { IfSome result (λ status. status ≡ 0 → Appends (W.contents writer.old) (W.contents writer.new) (lines_with true true)) }
    ensures differs { IfSome result (λ status. status ≡ 1 → Appends (W.contents writer.old) (W.contents writer.new) (lines_with true false)) }
    ensures served { IfSome result (λ _. (LEAST_WORKERS ≤ workers) × (workers ≤ MOST_WORKERS)) }
    ensures status { IfSome result (λ status. (status ≡ 0) ⊎ (status ≡ 1)) }
{
    let (closed, receipts) = soaked(rt, alloc, soak, workers)?;
    match report(alloc, writer, &closed, &receipts) {
        Ok(status) => Some(status),
        Err(_) => None,
    }
}

/// Writes two lines: whether the seats agree, and whether the receipts hold.
#[tactic(auto, using(crate::proofs::Texts::after))]
fn write_both<W: Write>(alloc: Global, writer: &mut W, agree: bool, stand: bool) -> io::Result<()>
    ensures { OnOk result (Appends (W.contents writer.old) (W.contents writer.new) (lines_with agree stand)) }
{
    write_line(alloc, writer, &seats_of(agree))?;
    write_line(alloc, writer, &audit_of(stand))
}

/// Whether there is a receipt for each event that the client made, and each receipt's event is at its place.
fn are_kept(closed: &Closed, receipts: &[Receipt]) -> bool
    ensures { IsTrue result ↔ AreKept closed.now.client closed.now.books.items receipts.now }
{
    closed.client == receipts.len() as u64 && closed.audit(receipts).is_ok()
}

/// Writes the findings. Returns the exit status.
#[tactic(auto, using(crate::proofs::Texts::audit_says_no))]
fn report<W: Write>(
    alloc: Global,
    writer: &mut W,
    closed: &Closed,
    receipts: &[Receipt],
) -> io::Result<u8>
    ensures held { IfOk result (λ status. status ≡ 0 → Appends (W.contents writer.old) (W.contents writer.new) (lines_with true true)) }
    ensures differs { IfOk result (λ status. status ≡ 1 → closed.now.client + sum closed.now.workers.items ≡ sum_by next closed.now.books.items
        → Appends (W.contents writer.old) (W.contents writer.new) (lines_with true false)) }
    ensures agree { IfOk result (λ status. status ≡ 0 → closed.now.client + sum closed.now.workers.items ≡ sum_by next closed.now.books.items) }
    ensures stand { IfOk result (λ status. status ≡ 0 → AreKept closed.now.client closed.now.books.items receipts.now) }
    ensures no { IfOk result (λ status. status ≡ 1 → closed.now.client + sum closed.now.workers.items ≡ sum_by next closed.now.books.items
        → AreKept closed.now.client closed.now.books.items receipts.now → ⊥) }
    ensures status { IfOk result (λ status. (status ≡ 0) ⊎ (status ≡ 1)) }
{
    let agrees = agree(closed);
    let stand = are_kept(closed, receipts);
    write_both(alloc, writer, agrees, stand)?;
    Ok(status_of(agrees, stand))
}
