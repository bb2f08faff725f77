//! The two error rate monitors (Q.703) in the text `q703`.

/// Appends the processes AERM and SUERM to the parts before them, and passes these to the next part.
macro_rules! error_rate_monitors {
    ([$($before:literal)*] $next:ident $($rest:ident)*) => {
        $next!([$($before)*
"/* The alignment error rate monitor: ti errors (Tin, or Tie in an emergency) abort a proving period. Of Counting it needs nothing: N
   octets count as a unit with errors does (10.3). */
PROCESS AERM (1, 1);
DCL ti, n Integer := 0;
START;
NEXTSTATE Idle;

STATE Idle, Watching, Aborted;
INPUT AeStart(ti);
  TASK n := 0;
  NEXTSTATE Watching;
ENDSTATE Idle;

STATE Watching;
INPUT Errored;
  TASK n := n + 1;
  DECISION n >= ti;
  (TRUE):
    OUTPUT Abort;
    /* * in `standard` Idle */
    NEXTSTATE Aborted;
  (FALSE):
    NEXTSTATE Watching;
  ENDDECISION;
INPUT AeStop;
  NEXTSTATE Idle;
ENDSTATE Watching;

/* * the period was aborted, and no unit without errors has come since (figure 9 hears of each such unit) */
STATE Aborted;
INPUT Good;
  OUTPUT CorrectUnit;
  NEXTSTATE Idle;
INPUT AeStop;
  NEXTSTATE Idle;
ENDSTATE Aborted;
ENDPROCESS AERM;

/* The signal unit error rate monitor: a leaky bucket c, which an error fills and each unit D empties by one; at T the link
   fails. * octets: octet counting is on. There N octets are an error, and no unit that counts to D (10.2, figure 18). */
PROCESS SUERM (1, 1);
DCL c, n Integer := 0, octets Boolean := FALSE;
/* where the bucket overflows, and units for which it loses one (10.2) */
SYNONYM T = 64, D = 256;
START;
NEXTSTATE Idle;

STATE Idle;
INPUT SuStart;
  TASK c := 0, n := 0;
  NEXTSTATE Watching;
INPUT Counting(octets);
  NEXTSTATE Idle;
ENDSTATE Idle;

STATE Watching;
INPUT Errored;
  TASK c := c + 1;
  DECISION c >= T;
  (TRUE):
    OUTPUT Fail(2);
    NEXTSTATE Idle;
  (FALSE):
    DECISION octets;
    (TRUE):
      NEXTSTATE Watching;
    (FALSE):
      TASK n := n + 1;
      JOIN step;
    ENDDECISION;
  ENDDECISION;
INPUT Good;
  TASK n := n + 1;
  JOIN step;
INPUT SuStop;
  NEXTSTATE Idle;
INPUT Counting(octets);
  NEXTSTATE Watching;
ENDSTATE Watching;

/* a unit was counted */
CONNECTION step:
  DECISION n >= D;
  (TRUE):
    TASK n := 0;
    DECISION c > 0;
    (TRUE):
      TASK c := c - 1;
    (FALSE):
    ENDDECISION;
  (FALSE):
  ENDDECISION;
  NEXTSTATE Watching;
ENDCONNECTION step;
ENDPROCESS SUERM;

"] $($rest)*)
    };
}

pub(crate) use error_rate_monitors;
