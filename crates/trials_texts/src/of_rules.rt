//! Tests of `resolve`: the places of refusals, as bytes of the text, and the variables that are set in a state. A
//! larger table of texts with the lines printed for them is in examples/refusals.txt.
use crate::texts::read;
use sdl_rules::resolve;
use std::alloc::Global;

/// The refusal of a text, as printed and as `Debug` shows it with its place, if it has one.
fn refusal(alloc: Global, text: &str) -> Option<String> {
    let block = read(alloc, text)?;
    match resolve(alloc, &block) {
        Ok(_) => None,
        Err(fault) => format!(in alloc; "{fault} {fault:?}").ok(),
    }
}

/// One text for each rule, with the byte of its place if it has one.
const RULES: [(&str, &str); 11] = [
    (
        "BLOCK B; SIGNAL Up, uP; ENDBLOCK;",
        "S1 DoubleName DoubleName(20)",
    ),
    (
        "BLOCK B; PROCESS P; DCL a Integer; START; TASK a := k; STOP; ENDPROCESS; ENDBLOCK;",
        "S2 UnknownName UnknownName(52)",
    ),
    (
        "BLOCK B; PROCESS P; DCL x Integer, b Boolean := 1; START; STOP; ENDPROCESS; ENDBLOCK;",
        "S3 WrongSort WrongSort(48)",
    ),
    (
        "BLOCK B; PROCESS P; START; NEXTSTATE C; STATE A; ENDPROCESS; ENDBLOCK;",
        "S4 NoState NoState(27)",
    ),
    (
        "BLOCK B; SIGNAL C; PROCESS P; START; OUTPUT C; STOP; ENDPROCESS; ENDBLOCK;",
        "S5 NoReceiver NoReceiver(44)",
    ),
    (
        "BLOCK B; SIGNAL C; SIGNALROUTE r FROM P TO ENV WITH C; FROM P TO P WITH C; PROCESS P; START; OUTPUT C; STOP; ENDPROCESS; ENDBLOCK;",
        "S6 TwoReceivers TwoReceivers(100)",
    ),
    (
        "BLOCK B; PROCESS P; START; JOIN c; CONNECTION c: JOIN c; ENDCONNECTION; ENDPROCESS; ENDBLOCK;",
        "S7 JoinCycle JoinCycle(49)",
    ),
    (
        "BLOCK B; PROCESS P; START; DECISION 1; (1): STOP; ENDDECISION; ENDPROCESS; ENDBLOCK;",
        "S8 NoAnswer NoAnswer(27)",
    ),
    (
        "BLOCK B; PROCESS P; DCL x Integer; START; TASK x := 7 REM 0; STOP; ENDPROCESS; ENDBLOCK;",
        "S9 BadDivisor BadDivisor(58)",
    ),
    (
        "BLOCK B; SIGNAL s(Integer, Integer, Integer, Integer, Integer); ENDBLOCK;",
        "S10 Limit Params Limit(Params)",
    ),
    (
        "BLOCK B; PROCESS P; DCL n Integer; START; TASK n := n + 1; STOP; ENDPROCESS; ENDBLOCK;",
        "S11 Unset n START Unset { variable: \"n\", path: ControlPath { steps: [Start] } }",
    ),
];

/// Whether a text has this refusal.
fn is_refused(alloc: Global, text: &str, wanted: &str) -> bool {
    match refusal(alloc, text) {
        Some(found) => found.as_str() == wanted,
        None => false,
    }
}

/// The number of the first row with another refusal.
fn first_other(alloc: Global, rows: &[(&str, &str)]) -> Option<usize> {
    for (number, (text, wanted)) in rows.iter().enumerate() {
        if !is_refused(alloc, text, wanted) {
            return Some(number);
        }
    }
    None
}

#[test]
fn each_rule_names_its_place(rt: HostRuntime) {
    assert_eq!(rt; first_other(rt.alloc(), &RULES), None);
}

/// Whether the states of the first process have these sets, and how many routes there are.
fn has_sets(alloc: Global, text: &str, wanted: &[u32]) -> Option<(bool, usize)> {
    let block = read(alloc, text)?;
    let resolved = resolve(alloc, &block).ok()?;
    let are_those = match resolved.sets().first() {
        Some(sets) => sets.as_slice() == wanted,
        None => false,
    };
    Some((are_those, resolved.routes().len()))
}

const COUNTER: &str =
    "BLOCK B; SIGNAL Up(Integer); PROCESS P; DCL n, total Integer; START; TASK total := 0; NEXTSTATE Run; STATE Run; INPUT Up(n); TASK total := total + n; NEXTSTATE Run; ENDSTATE; ENDPROCESS; ENDBLOCK;";

/// Each path to S sets x, b and m.
const WAYS: &str =
    "BLOCK B; SIGNAL A; PROCESS P; DCL x Integer := 0, b Boolean := TRUE, n, m, k Integer; START; DECISION x; (0): TASK n := 1, m := 1; NEXTSTATE S; ELSE: JOIN c; ENDDECISION; STATE S; INPUT A; STOP; ENDSTATE; CONNECTION c: TASK m := 2; NEXTSTATE S; ENDCONNECTION; ENDPROCESS; ENDBLOCK;";

#[test]
fn what_each_way_to_a_state_sets_is_set(rt: HostRuntime) {
    assert_eq!(rt; has_sets(rt.alloc(), COUNTER, &[2]), Some((true, 0)));
    assert_eq!(rt; has_sets(rt.alloc(), WAYS, &[11]), Some((true, 0)));
}
