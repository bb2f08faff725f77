//! Reception control (Q.703) in the text `standard`.

/// Appends the process RC to the parts before it, and passes these to the next part.
macro_rules! reception_control {
    ([$($before:literal)*] $next:ident $($rest:ident)*) => {
        $next!([$($before)*
"/* Reception control: what came in goes to whom it concerns. */
PROCESS RC (1, 1);
DCL k Integer := 0, b Boolean := FALSE;
START;
NEXTSTATE Idle;

STATE Idle, Running;
INPUT RcStart;
  OUTPUT Fresh, Take(FALSE);
  NEXTSTATE Running;
ENDSTATE Idle;

STATE Running;
INPUT Unit(k);
  DECISION k;
  (0 : 3):
    OUTPUT Stat(k) TO LSC;
    OUTPUT Stat(k) TO IAC;
  (4):
    OUTPUT Stat(4) TO LSC;
  (5):
    OUTPUT SibSeen;
  (8, 9):
    OUTPUT Stat(8) TO LSC;
  ELSE:
  ENDDECISION;
  NEXTSTATE Running;
INPUT RcTake(b);
  OUTPUT Take(b);
  NEXTSTATE Running;
INPUT Bad;
  OUTPUT Fail;
  NEXTSTATE Running;
INPUT RcStop;
  OUTPUT Take(FALSE);
  NEXTSTATE Idle;
ENDSTATE Running;
ENDPROCESS RC;

"] $($rest)*)
    };
}

pub(crate) use reception_control;
