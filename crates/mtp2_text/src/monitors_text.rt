//! The text `monitors`.

/// Only the two error rate monitors (Q.703, 10), with all their inputs from the environment and all outputs to it.
pub const MONITORS: &str =
    "/* The two error rate monitors of Q.703 alone, as standard.sdl has them, with the environment in the place of all other processes. */
BLOCK Monitors;
SIGNAL AeStart(Integer), AeStop, SuStart, SuStop, Errored, Good, Abort, Fail;
SIGNALROUTE EnvAerm FROM ENV TO AERM WITH AeStart, AeStop, Errored, Good;
SIGNALROUTE EnvSuerm FROM ENV TO SUERM WITH SuStart, SuStop, Errored, Good;
SIGNALROUTE AermEnv FROM AERM TO ENV WITH Abort;
SIGNALROUTE SuermEnv FROM SUERM TO ENV WITH Fail;

/* The alignment error rate monitor: ti errors (Tin, or Tie in an emergency) abort a proving period. */
PROCESS AERM (1, 1);
DCL ti, n Integer := 0;
START;
NEXTSTATE Idle;

STATE Idle, Watching;
INPUT AeStart(ti);
  TASK n := 0;
  NEXTSTATE Watching;
ENDSTATE Idle;

STATE Watching;
INPUT Errored;
  TASK n := n + 1;
  DECISION n >= ti;
  (TRUE):
    OUTPUT Abort;
    NEXTSTATE Idle;
  (FALSE):
    NEXTSTATE Watching;
  ENDDECISION;
INPUT AeStop;
  NEXTSTATE Idle;
ENDSTATE Watching;
ENDPROCESS AERM;

/* The signal unit error rate monitor: a leaky bucket c, which an error fills and each 256th unit (D) empties by one; at 64 (T) the link fails. */
PROCESS SUERM (1, 1);
DCL c, n Integer := 0;
START;
NEXTSTATE Idle;

STATE Idle;
INPUT SuStart;
  TASK c := 0, n := 0;
  NEXTSTATE Watching;
ENDSTATE Idle;

STATE Watching;
INPUT Errored;
  TASK c := c + 1, n := n + 1;
  DECISION c >= 64;
  (TRUE):
    OUTPUT Fail;
    NEXTSTATE Idle;
  (FALSE):
    JOIN step;
  ENDDECISION;
INPUT Good;
  TASK n := n + 1;
  JOIN step;
INPUT SuStop;
  NEXTSTATE Idle;
ENDSTATE Watching;

/* a unit was counted */
CONNECTION step:
  DECISION n >= 256;
  (TRUE):
    TASK n := 0;
    DECISION c > 0;
    (TRUE):
      TASK c := c - 1;
    (FALSE):
    ENDDECISION;
  (FALSE):
  ENDDECISION;
  NEXTSTATE Watching;
ENDCONNECTION step;
ENDPROCESS SUERM;

ENDBLOCK Monitors;
";
