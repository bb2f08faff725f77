//! Initial alignment control (Q.703) in the text `q703`.

/// Appends the process IAC to the parts before it, and passes these to the next part.
macro_rules! initial_alignment_control {
    ([$($before:literal)*] $next:ident $($rest:ident)*) => {
        $next!([$($before)*
"/* Initial alignment control. em: the emergency is on here; short: the proving period is Pe, the emergency one, else Pn; more: another
   period is to follow; cp: aborted periods, of which M end the alignment. */
PROCESS IAC (1, 1);
DCL em, short, more Boolean := FALSE, cp, k Integer := 0;
/* aborted periods that end the alignment (7.3), and errors that abort one of Pn and of Pe (10.3) */
SYNONYM M = 5, Tin = 4, Tie = 1;
TIMER T2, T3, T4;
START;
NEXTSTATE Idle;

STATE Idle;
INPUT IacStart(em);
  TASK short := em;
  OUTPUT Tx(0);
  SET(NOW + T2, T2);
  NEXTSTATE NotAligned;
ENDSTATE Idle;

STATE NotAligned;
INPUT Stat(k);
  DECISION k;
  (0, 1):
    JOIN meet;
  (2):
    TASK short := TRUE;
    JOIN meet;
  ELSE:
    NEXTSTATE NotAligned;
  ENDDECISION;
INPUT IacUrgent;
  TASK em := TRUE, short := TRUE;
  NEXTSTATE NotAligned;
INPUT T2;
  OUTPUT AlignFail;
  NEXTSTATE Idle;
INPUT IacStop;
  RESET(T2);
  NEXTSTATE Idle;
ENDSTATE NotAligned;

STATE Aligned;
INPUT Stat(k);
  DECISION k;
  (1):
    JOIN prove;
  (2):
    TASK short := TRUE;
    JOIN prove;
  (3):
    RESET(T3);
    OUTPUT AlignFail;
    NEXTSTATE Idle;
  ELSE:
    NEXTSTATE Aligned;
  ENDDECISION;
INPUT IacUrgent;
  TASK em := TRUE, short := TRUE;
  OUTPUT Tx(2);
  NEXTSTATE Aligned;
INPUT T3;
  OUTPUT AlignFail;
  NEXTSTATE Idle;
INPUT IacStop;
  RESET(T3);
  NEXTSTATE Idle;
ENDSTATE Aligned;

STATE Proving;
INPUT T4;
  DECISION more;
  (TRUE):
    JOIN period;
  (FALSE):
    OUTPUT AeStop, AlignDone;
    NEXTSTATE Idle;
  ENDDECISION;
INPUT Abort;
  TASK cp := cp + 1;
  DECISION cp >= M;
  (TRUE):
    RESET(T4);
    OUTPUT AeStop, AlignFail;
    NEXTSTATE Idle;
  (FALSE):
    TASK more := TRUE;
    NEXTSTATE Proving;
  ENDDECISION;
/* * the next period begins with the first unit without errors, or as T4 runs out (10.3, figure 9) */
INPUT CorrectUnit;
  DECISION more;
  (TRUE):
    JOIN period;
  (FALSE):
    NEXTSTATE Proving;
  ENDDECISION;
INPUT Stat(k);
  DECISION k;
  (0):
    RESET(T4);
    OUTPUT AeStop;
    SET(NOW + T3, T3);
    NEXTSTATE Aligned;
  (2):
    DECISION short;
    (TRUE):
      NEXTSTATE Proving;
    (FALSE):
      TASK short := TRUE;
      OUTPUT AeStop;
      JOIN period;
    ENDDECISION;
  (3):
    RESET(T4);
    OUTPUT AeStop, AlignFail;
    NEXTSTATE Idle;
  ELSE:
    NEXTSTATE Proving;
  ENDDECISION;
INPUT IacUrgent;
  TASK em := TRUE, short := TRUE;
  OUTPUT Tx(2), AeStop;
  JOIN period;
INPUT IacStop;
  RESET(T4);
  OUTPUT AeStop;
  NEXTSTATE Idle;
ENDSTATE Proving;

/* the other side was met */
CONNECTION meet:
  RESET(T2);
  DECISION em;
  (TRUE):
    OUTPUT Tx(2);
  (FALSE):
    OUTPUT Tx(1);
  ENDDECISION;
  SET(NOW + T3, T3);
  NEXTSTATE Aligned;
ENDCONNECTION meet;

/* proving begins */
CONNECTION prove:
  RESET(T3);
  TASK cp := 0;
  JOIN period;
ENDCONNECTION prove;

/* a proving period begins: by Tie and Pe in an emergency, else by Tin and Pn */
CONNECTION period:
  TASK more := FALSE;
  DECISION short;
  (TRUE):
    OUTPUT AeStart(Tie);
    SET(NOW + T4e, T4);
  (FALSE):
    OUTPUT AeStart(Tin);
    SET(NOW + T4n, T4);
  ENDDECISION;
  NEXTSTATE Proving;
ENDCONNECTION period;
ENDPROCESS IAC;

"] $($rest)*)
    };
}

pub(crate) use initial_alignment_control;
