//! Links that threads serve. Only these calls wait for other threads.
ghost use Rattle.std.specs.Prelude.{◌≡◌, ◌⊎◌, List};
ghost use Rattle.clap.specs.Words.{Text};
ghost use Rattle.mtp2_play.specs.Printed.{IsServed, IsStatus};
ghost use Rattle.mtp2_play.specs.Served.{AsksSoak, ComesTo};

use crate::text::sets::STDIN;
use mtp2_words::Source;
use plain_text::{NamedReader, Teller};
use pool_soak::soak_telling;
use std::fs;
use std::io::{self, Read, Write};
use std::rt::Runtime;
use std::sync::Wait;
use std::thread::Threads;

/// Runs `soak` on a script from a reader.
#[tactic(auto, using(crate::proofs::Known::soaked, crate::proofs::Known::in_vain, crate::proofs::Known::turned_down))]
fn soak_on<R: Runtime + AllocGlobal + Threads + Wait + Sync, H: Eprint, S: Read + Drop, W: Write>(
    rt: &R,
    teller: &Teller<'_, H>,
    script: S,
    workers: usize,
    writer: &mut W,
) -> u8
    ensures printed { IsServed workers result (W.contents writer.old) (W.contents writer.new) }
    ensures status { (result ≡ 0) ⊎ (result ≡ 1) ⊎ (result ≡ 2) ⊎ (result ≡ 4) }
{
    soak_telling(
        rt,
        rt.alloc(),
        script,
        workers,
        writer,
        &mut teller.errors(),
    )
}

/// Runs `soak` on the script that the command line names.
fn run_soak<R: Runtime + AllocGlobal + Threads + Wait + Sync, H: Eprint, W: Write>(
    rt: &R,
    teller: &Teller<'_, H>,
    script: Source<'_>,
    workers: usize,
    writer: &mut W,
) -> u8
    ensures printed { IsServed workers result (W.contents writer.old) (W.contents writer.new) }
    ensures status { (result ≡ 0) ⊎ (result ≡ 1) ⊎ (result ≡ 2) ⊎ (result ≡ 4) }
{
    match script {
        Source::Stdin => {
            let script = NamedReader::new(teller, STDIN, rt.reader());
            soak_on(rt, teller, script, workers, writer)
        }
        Source::File(path) => match fs::open(rt, path) {
            Ok(file) => soak_on(
                rt,
                teller,
                NamedReader::new(teller, path, file),
                workers,
                writer,
            ),
            Err(error) => teller.fail(path, &error),
        },
    }
}

/// Lets threads serve links, as the words of a command line request. Returns the exit status.
pub fn serve_links<R: Runtime + AllocGlobal + Threads + Wait + Sync, H: Eprint>(
    rt: &R,
    teller: &Teller<'_, H>,
    script: Source<'_>,
    workers: usize,
) -> u8
    ensures served { (words : List Text) → AsksSoak words script.entry workers → ComesTo words result }
    ensures status { IsStatus result }
{
    run_soak(rt, teller, script, workers, &mut io::writer(rt))
}
