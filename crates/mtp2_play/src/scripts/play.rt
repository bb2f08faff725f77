//! The command `play` from its files to the exit status.
ghost use Rattle.std.specs.Prelude.{◌≡◌, ◌⊎◌, None, option_map};
ghost use Rattle.script_check.specs.Checked.{given};
ghost use Rattle.script_play.specs.Played.{IsOnSet, IsRefused};
ghost use Rattle.script_play.specs.Seen.{IsWatched, IsWatchedInPart};
ghost use Rattle.mtp2_words.specs.declared.requests.Named.TheVariants.{Own};
ghost use Rattle.mtp2_play.specs.Printed.{IsPlayedOn, IsWatchedOn, path_by, wanted_for, wanted_by};

use crate::text::sets::{STDIN, own_set, set_word};
use mtp2_words::{Named, OwnSet, Seeing, Sight, Source};
use plain_text::{NamedReader, Teller};
use script_check::SetWord;
use script_play::{Cut, RunSummary, Wanted, play_seen, play_telling};
use std::alloc::Global;
use std::fs;
use std::io::{Read, Write};
use std::rt::Runtime;

/// The views of a script's run beside its output: whether lines are echoed, and the view for a file, if any.
#[derive(Drop)]
struct Watch<F> {
    echo: bool,
    wanted: Wanted,
    out: Option<F>,
}

/// Runs a script from a reader on a set, with its views: if lines are echoed, nothing goes to a file.
#[tactic(auto, using(crate::proofs::Known::not_run))]
fn play_on<H: Eprint, S: Read + Drop, T: Read + Drop, F: Write, W: Write>(
    alloc: Global,
    teller: &Teller<'_, H>,
    set: SetWord<S>,
    name: &str,
    script: T,
    watch: &mut Watch<F>,
    writer: &mut W,
) -> u8
    ensures held { result ≡ 0
        → IsOnSet (given S.remaining set) None
        (λ limits. IsWatched limits watch.old.echo watch.old.wanted (W.contents writer.old) (W.contents writer.new)
        (option_map F.contents watch.old.out) (option_map F.contents watch.new.out)) }
    ensures missed { result ≡ 1
        → IsOnSet (given S.remaining set) None
        (λ limits. IsWatchedInPart limits watch.old.echo watch.old.wanted (W.contents writer.old) (W.contents writer.new)
        (option_map F.contents watch.old.out) (option_map F.contents watch.new.out)) }
    ensures refused { result ≡ 2 → IsRefused (given S.remaining set) None (W.contents writer.old) (W.contents writer.new) }
    ensures status { (result ≡ 0) ⊎ (result ≡ 1) ⊎ (result ≡ 2) ⊎ (result ≡ 4) }
{
    let (echo, wanted) = (watch.echo, watch.wanted);
    let mut errors = teller.errors();
    if echo {
        return play_telling(alloc, set, name, script, echo, writer, &mut errors);
    }
    match &mut watch.out {
        Some(out) => play_seen(alloc, set, name, script, wanted, out, writer, &mut errors),
        None => play_telling(alloc, set, name, script, echo, writer, &mut errors),
    }
}

/// Runs a script from a file, or from standard input, on a set.
fn play_source<R: Runtime + AllocGlobal, H: Eprint, S: Read + Drop, F: Write, W: Write>(
    rt: &R,
    teller: &Teller<'_, H>,
    set: SetWord<S>,
    name: &str,
    script: Source<'_>,
    watch: &mut Watch<F>,
    writer: &mut W,
) -> u8
    ensures held { result ≡ 0
        → IsOnSet (given S.remaining set) None
        (λ limits. IsWatched limits watch.old.echo watch.old.wanted (W.contents writer.old) (W.contents writer.new)
        (option_map F.contents watch.old.out) (option_map F.contents watch.new.out)) }
    ensures missed { result ≡ 1
        → IsOnSet (given S.remaining set) None
        (λ limits. IsWatchedInPart limits watch.old.echo watch.old.wanted (W.contents writer.old) (W.contents writer.new)
        (option_map F.contents watch.old.out) (option_map F.contents watch.new.out)) }
    ensures refused { result ≡ 2 → IsRefused (given S.remaining set) None (W.contents writer.old) (W.contents writer.new) }
    ensures status { (result ≡ 0) ⊎ (result ≡ 1) ⊎ (result ≡ 2) ⊎ (result ≡ 4) }
{
    match script {
        Source::Stdin => {
            let script = NamedReader::new(teller, STDIN, rt.reader());
            play_on(rt.alloc(), teller, set, name, script, watch, writer)
        }
        Source::File(path) => match fs::open(rt, path) {
            Ok(file) => play_on(
                rt.alloc(),
                teller,
                set,
                name,
                NamedReader::new(teller, path, file),
                watch,
                writer,
            ),
            Err(error) => teller.fail(path, &error),
        },
    }
}

/// Runs a script on a built-in set.
fn play_own<R: Runtime + AllocGlobal, H: Eprint, F: Write, W: Write>(
    rt: &R,
    teller: &Teller<'_, H>,
    own: OwnSet,
    script: Source<'_>,
    watch: &mut Watch<F>,
    writer: &mut W,
) -> u8
    ensures printed { IsWatchedOn (Own own) watch.old.echo watch.old.wanted result (W.contents writer.old) (W.contents writer.new)
        (option_map F.contents watch.old.out) (option_map F.contents watch.new.out) }
    ensures status { (result ≡ 0) ⊎ (result ≡ 1) ⊎ (result ≡ 2) ⊎ (result ≡ 4) }
{
    play_source(rt, teller, own_set(own), own.word(), script, watch, writer)
}

/// Runs a script on a set whose text comes from a reader.
#[tactic(auto, using(crate::proofs::Known::watched_on_some, crate::proofs::Known::in_part_on_some, crate::proofs::Known::not_run_on_some))]
fn play_text<R: Runtime + AllocGlobal, H: Eprint, S: Read + Drop, F: Write, W: Write>(
    rt: &R,
    teller: &Teller<'_, H>,
    name: &str,
    text: S,
    script: Source<'_>,
    watch: &mut Watch<F>,
    writer: &mut W,
) -> u8
    ensures held { result ≡ 0
        → IsOnSet None None
        (λ limits. IsWatched limits watch.old.echo watch.old.wanted (W.contents writer.old) (W.contents writer.new)
        (option_map F.contents watch.old.out) (option_map F.contents watch.new.out)) }
    ensures missed { result ≡ 1
        → IsOnSet None None
        (λ limits. IsWatchedInPart limits watch.old.echo watch.old.wanted (W.contents writer.old) (W.contents writer.new)
        (option_map F.contents watch.old.out) (option_map F.contents watch.new.out)) }
    ensures refused { result ≡ 2 → IsRefused None None (W.contents writer.old) (W.contents writer.new) }
    ensures status { (result ≡ 0) ⊎ (result ≡ 1) ⊎ (result ≡ 2) ⊎ (result ≡ 4) }
{
    play_source(rt, teller, SetWord::Text(text), name, script, watch, writer)
}

/// Runs `play` on the set and the script that the command line names, with a view of the run in a file, if there is
/// one. A file that can't be opened is a failure, whatever the other text is.
fn run_watched<R: Runtime + AllocGlobal, H: Eprint, F: Write, W: Write>(
    rt: &R,
    teller: &Teller<'_, H>,
    set: Named<'_>,
    script: Source<'_>,
    watch: &mut Watch<F>,
    writer: &mut W,
) -> u8
    ensures printed { IsWatchedOn set.entry watch.old.echo watch.old.wanted result (W.contents writer.old) (W.contents writer.new)
        (option_map F.contents watch.old.out) (option_map F.contents watch.new.out) }
    ensures status { (result ≡ 0) ⊎ (result ≡ 1) ⊎ (result ≡ 2) ⊎ (result ≡ 4) }
{
    match set {
        Named::Own(own) => play_own(rt, teller, own, script, watch, writer),
        Named::Stdin => {
            let text = NamedReader::new(teller, STDIN, rt.reader());
            play_text(rt, teller, set_word(&set), text, script, watch, writer)
        }
        Named::File(path) => match fs::open(rt, path) {
            Ok(file) => {
                let text = NamedReader::new(teller, path, file);
                play_text(rt, teller, path, text, script, watch, writer)
            }
            Err(error) => teller.fail(path, &error),
        },
    }
}

/// The path of the file for a view of a run.
fn path_of<'a>(sight: &Sight<'a>) -> &'a str
    ensures { result.now ≡ path_by sight.now }
{
    match sight {
        Sight::Trace(path) => path,
        Sight::Chart(path) => path,
        Sight::Coverage(path) => path,
        Sight::Thrown(path) => path,
        Sight::Capture(path) => path,
    }
}

/// The view of a run that goes to that file.
fn wanted_for(sight: &Sight<'_>, seen: &Seeing<'_>) -> Wanted
    ensures { result ≡ wanted_for seen.now.every seen.now.turns sight.now }
{
    match sight {
        Sight::Trace(_) => Wanted::Trace(seen.every),
        Sight::Chart(_) => Wanted::AtEnd(RunSummary::Chart(Cut {
            first: seen.turns.first,
            last: seen.turns.last,
        })),
        Sight::Coverage(_) => Wanted::Coverage,
        Sight::Thrown(_) => Wanted::AtEnd(RunSummary::Thrown),
        Sight::Capture(_) => Wanted::Capture(seen.every),
    }
}

/// The view of a run; a trace if there is no file.
fn wanted_of(seen: &Seeing<'_>) -> Wanted
    ensures { result ≡ wanted_by seen.now }
{
    match &seen.sight {
        Some(sight) => wanted_for(sight, seen),
        None => Wanted::Trace(seen.every),
    }
}

/// Runs `play` on the set and the script that the command line names, with the requested views.
#[tactic(auto, using(crate::proofs::Known::was_played_on))]
pub(crate) fn run_play<R: Runtime + AllocGlobal, H: Eprint, W: Write>(
    rt: &R,
    teller: &Teller<'_, H>,
    set: Named<'_>,
    script: Source<'_>,
    seen: &Seeing<'_>,
    writer: &mut W,
) -> u8
    ensures printed { IsPlayedOn set.entry seen.now.echo result (W.contents writer.old) (W.contents writer.new) }
    ensures status { (result ≡ 0) ⊎ (result ≡ 1) ⊎ (result ≡ 2) ⊎ (result ≡ 4) }
{
    let out = match seen.sight {
        Some(sight) => match fs::create(rt, path_of(&sight)) {
            Ok(file) => Some(file),
            Err(error) => return teller.fail(path_of(&sight), &error),
        },
        None => None,
    };
    let mut watch = Watch {
        echo: seen.echo,
        wanted: wanted_of(seen),
        out,
    };
    run_watched(rt, teller, set, script, &mut watch, writer)
}
