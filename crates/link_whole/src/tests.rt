//! Tests that a text is loaded and run in one call if there is memory, with rebases between its events.
use crate::running::run_text;
use actor_book::{Limits, Scheduled};
use actor_machine::{Event, Offer, Refusal, Reply};
use arrayvec::ArrayVec;
use std::alloc::Global;
use turn_code::{SignalNumber, Value};
use turn_verify::LoadFault;

/// Up(Integer) adds to a total.
const COUNTER: &str = "BLOCK B; SIGNAL Up(Integer);
SIGNALROUTE r FROM ENV TO P WITH Up;
PROCESS P (1,1); DCL n, total Integer;
START; TASK total := 0; NEXTSTATE Run;
STATE Run; INPUT Up(n); TASK total := total + n; NEXTSTATE Run;
ENDSTATE Run; ENDPROCESS P; ENDBLOCK B;
";

/// The environment sends the counter a 7.
fn seven() -> Scheduled {
    let mut values = ArrayVec::new();
    values.push(Value::Int(7));
    Scheduled::Event(Event::Offer(Offer {
        actor: 0,
        signal: SignalNumber(0),
        values,
    }))
}

/// START, two 7s although the port has room for only one, a turn with a rebase before and within it, and taking a signal
/// that nobody sent.
fn steps() -> [Scheduled; 9] {
    [
        Scheduled::Event(Event::Begin(0)),
        Scheduled::Event(Event::Finish(0)),
        seven(),
        seven(),
        Scheduled::Rebase,
        Scheduled::Event(Event::Begin(0)),
        Scheduled::Rebase,
        Scheduled::Event(Event::Finish(0)),
        Scheduled::Event(Event::TakeEnv),
    ]
}

/// A number for an answer: 1 for an offer, 2 for a begin, 100 plus the count for a finish, 10 for a full port, 20 if
/// nothing waits for the environment, otherwise 0.
fn told(reply: &Reply) -> u32 {
    match reply {
        Reply::Offered => 1,
        Reply::Begun(_) => 2,
        Reply::Finished(report) => report.count.saturating_add(100),
        Reply::Refused(Refusal::Full) => 10,
        Reply::Refused(Refusal::Empty) => 20,
        _ => 0,
    }
}

/// The result of a text: the number of each answer; or that of the layer that refuses it: 1 for its tokens, 2 for its
/// tree, 3 for its rules, and 4 if memory runs out.
fn run(alloc: Global, text: &str) -> Option<Result<[u32; 7], u32>> {
    match run_text(alloc, text, Limits::new(1, 1, 16)?, &steps()) {
        Ok(ran) => {
            let mut all = [0; 7];
            for (one, reply) in all.iter_mut().zip(ran.replies.iter()) {
                *one = told(reply);
            }
            Some(Ok(all))
        }
        Err(LoadFault::Lex { .. }) => Some(Err(1)),
        Err(LoadFault::Parse { .. }) => Some(Err(2)),
        Err(LoadFault::Rule { .. }) => Some(Err(3)),
        Err(LoadFault::NoMemory) => Some(Err(4)),
    }
}

/// START counts 3, and the turn of a 7 counts 7.
#[test]
fn a_text_runs(rt: HostRuntime) {
    assert_eq!(rt;
        run(rt.alloc(), COUNTER),
        Some(Ok([2, 103, 1, 10, 2, 107, 20]))
    );
}

#[test]
fn a_text_is_refused_by_its_layer(rt: HostRuntime) {
    assert_eq!(rt; run(rt.alloc(), "BLOCK B?"), Some(Err(1)));
    assert_eq!(rt; run(rt.alloc(), "BLOCK B"), Some(Err(2)));
    assert_eq!(rt;
        run(
            rt.alloc(),
            "BLOCK B; PROCESS P; START; NEXTSTATE S; ENDPROCESS; ENDBLOCK;"
        ),
        Some(Err(3))
    );
}
