//! The two error rate monitors (Q.703) in the text `standard`.

/// Appends the processes AERM and SUERM to the parts before them, and passes these to the next part.
macro_rules! error_rate_monitors {
    ([$($before:literal)*] $next:ident $($rest:ident)*) => {
        $next!([$($before)*
"/* The alignment error rate monitor: ti errors (Tin, or Tie in an emergency) abort a proving period. */
PROCESS AERM (1, 1);
DCL ti, n Integer := 0;
START;
NEXTSTATE Idle;

STATE Idle, Watching;
INPUT AeStart(ti);
  TASK n := 0;
  NEXTSTATE Watching;
ENDSTATE Idle;

STATE Watching;
INPUT Errored;
  TASK n := n + 1;
  DECISION n >= ti;
  (TRUE):
    OUTPUT Abort;
    NEXTSTATE Idle;
  (FALSE):
    NEXTSTATE Watching;
  ENDDECISION;
INPUT AeStop;
  NEXTSTATE Idle;
ENDSTATE Watching;
ENDPROCESS AERM;

/* The signal unit error rate monitor: a leaky bucket c, which an error fills and each 256th unit (D) empties by one; at 64 (T) the link fails. */
PROCESS SUERM (1, 1);
DCL c, n Integer := 0;
START;
NEXTSTATE Idle;

STATE Idle;
INPUT SuStart;
  TASK c := 0, n := 0;
  NEXTSTATE Watching;
ENDSTATE Idle;

STATE Watching;
INPUT Errored;
  TASK c := c + 1, n := n + 1;
  DECISION c >= 64;
  (TRUE):
    OUTPUT Fail;
    NEXTSTATE Idle;
  (FALSE):
    JOIN step;
  ENDDECISION;
INPUT Good;
  TASK n := n + 1;
  JOIN step;
INPUT SuStop;
  NEXTSTATE Idle;
ENDSTATE Watching;

/* a unit was counted */
CONNECTION step:
  DECISION n >= 256;
  (TRUE):
    TASK n := 0;
    DECISION c > 0;
    (TRUE):
      TASK c := c - 1;
    (FALSE):
    ENDDECISION;
  (FALSE):
  ENDDECISION;
  NEXTSTATE Watching;
ENDCONNECTION step;
ENDPROCESS SUERM;

"] $($rest)*)
    };
}

pub(crate) use error_rate_monitors;
