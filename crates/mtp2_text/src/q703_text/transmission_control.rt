//! Transmission control (Q.703) in the text `q703`.

/// Appends the process TXC to the parts before it, and passes these to the next part.
macro_rules! transmission_control {
    ([$($before:literal)*] $next:ident $($rest:ident)*) => {
        $next!([$($before)*
"/* Transmission control: what goes out (Line), T6 for a congestion of the other side and T7 for an acknowledgement that doesn't come.
   run: T7 runs; cong: the other side is congested, and T6 runs. k: what goes out. * out: messages are out. */
PROCESS TXC (1, 1);
DCL k Integer := 0, m, out, run, cong Boolean := FALSE;
TIMER T6, T7;
START;
NEXTSTATE Idle;

STATE Idle;
INPUT Tx(k);
  OUTPUT Line(k);
  NEXTSTATE Sending;
ENDSTATE Idle;

STATE Sending;
INPUT Tx(k);
  OUTPUT Line(k);
  /* * while no message may go out neither T6 nor T7 runs; T7 begins anew behind that where messages are out (figure 13) */
  DECISION k;
  (9):
    DECISION out AND NOT run;
    (TRUE):
      SET(NOW + T7, T7);
      TASK run := TRUE;
    (FALSE):
    ENDDECISION;
  (0 : 3):
    RESET(T6);
    RESET(T7);
    TASK run := FALSE, cong := FALSE, out := FALSE;
  ELSE:
    RESET(T6);
    RESET(T7);
    TASK run := FALSE, cong := FALSE;
  ENDDECISION;
  NEXTSTATE Sending;
INPUT MsuSent;
  TASK out := TRUE;
  DECISION run;
  (TRUE):
  (FALSE):
    SET(NOW + T7, T7);
    TASK run := TRUE;
  ENDDECISION;
  NEXTSTATE Sending;
INPUT AckSeen(m);
  RESET(T6);
  RESET(T7);
  /* * T7 only where messages may go out (figure 13) */
  TASK cong := FALSE, out := m, run := m AND k = 9;
  DECISION run;
  (TRUE):
    SET(NOW + T7, T7);
  (FALSE):
  ENDDECISION;
  NEXTSTATE Sending;
/* * a SIB counts only where T7 runs, so where messages are out and more may go (9.3, figure 13) */
INPUT SibSeen;
  DECISION run;
  (TRUE):
    SET(NOW + T7, T7);
    DECISION cong;
    (TRUE):
    (FALSE):
      SET(NOW + T6, T6);
      TASK cong := TRUE;
    ENDDECISION;
  (FALSE):
  ENDDECISION;
  NEXTSTATE Sending;
INPUT T6;
  TASK cong := FALSE;
  OUTPUT Fail(7);
  NEXTSTATE Sending;
INPUT T7;
  TASK run := FALSE;
  OUTPUT Fail(6);
  NEXTSTATE Sending;
/* * SIBs go out between FISUs and messages alone (figure 13) */
INPUT SendSib;
  DECISION k >= 8;
  (TRUE):
    OUTPUT Line(5);
  (FALSE):
  ENDDECISION;
  NEXTSTATE Sending;
/* * the buffers are emptied; T6 and T7 are stopped by the AckSeen that this brings (figure 13) */
INPUT TxClear;
  OUTPUT Clear, Cleared;
  NEXTSTATE Sending;
ENDSTATE Sending;
ENDPROCESS TXC;

"] $($rest)*)
    };
}

pub(crate) use transmission_control;
