//! Reception control (Q.703) in the text `q703`.

/// Appends the process RC to the parts before it, and passes these to the next part.
macro_rules! reception_control {
    ([$($before:literal)*] $next:ident $($rest:ident)*) => {
        $next!([$($before)*
"/* Reception control: what came in goes to whom it concerns. * accept: messages are accepted, as link state control said last; reject:
   congestion control wants them discarded. */
PROCESS RC (1, 1);
DCL k Integer := 0, accept, reject Boolean := FALSE;
START;
NEXTSTATE Idle;

STATE Idle, Running;
/* * as a link is started the buffers are emptied, so that no old message goes out behind the new alignment (figure 13) */
INPUT RcStart;
  TASK accept := TRUE;
  OUTPUT Fresh, Clear, Take(FALSE), Deliver(NOT reject);
  NEXTSTATE Running;
ENDSTATE Idle;

STATE Idle;
INPUT Reject(reject);
  NEXTSTATE Idle;
ENDSTATE Idle;

STATE Running;
INPUT Unit(k);
  DECISION k;
  (0 : 3):
    OUTPUT Stat(k) TO LSC;
    OUTPUT Stat(k) TO IAC;
  (4):
    OUTPUT Stat(4) TO LSC;
  (5):
    OUTPUT SibSeen;
  (8, 9):
    OUTPUT Stat(8) TO LSC;
  ELSE:
  ENDDECISION;
  NEXTSTATE Running;
/* * from here on all FISUs and messages are judged, whether or not messages are accepted (figures 14 and 16) */
INPUT RcTake(accept);
  OUTPUT Take(TRUE), Deliver(accept AND NOT reject);
  NEXTSTATE Running;
INPUT Reject(reject);
  OUTPUT Deliver(accept AND NOT reject);
  NEXTSTATE Running;
/* * a unit that was discarded is no sign of the other side (5.3.1, 5.3.2, 6.3.1, figures 14 and 16) */
INPUT Odd;
  NEXTSTATE Running;
INPUT Bad;
  OUTPUT Fail(5);
  NEXTSTATE Running;
INPUT RcStop;
  OUTPUT Take(FALSE);
  NEXTSTATE Idle;
ENDSTATE Running;
ENDPROCESS RC;

"] $($rest)*)
    };
}

pub(crate) use reception_control;
