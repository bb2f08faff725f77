//! Transmission control (Q.703) in the text `standard`.

/// Appends the process TXC to the parts before it, and passes these to the next part.
macro_rules! transmission_control {
    ([$($before:literal)*] $next:ident $($rest:ident)*) => {
        $next!([$($before)*
"/* Transmission control: what goes out (Line), T6 for a congestion of the other side and T7 for an acknowledgement that doesn't come.
   run: T7 runs; cong: the other side is congested. */
PROCESS TXC (1, 1);
DCL k Integer := 0, m, run, cong Boolean := FALSE;
TIMER T6, T7;
START;
NEXTSTATE Idle;

STATE Idle;
INPUT Tx(k);
  OUTPUT Line(k);
  NEXTSTATE Sending;
ENDSTATE Idle;

STATE Sending;
INPUT Tx(k);
  OUTPUT Line(k);
  DECISION k;
  (3):
    RESET(T6);
    RESET(T7);
    TASK run := FALSE, cong := FALSE;
  ELSE:
  ENDDECISION;
  NEXTSTATE Sending;
INPUT MsuSent;
  DECISION run;
  (TRUE):
  (FALSE):
    SET(NOW + 1000, T7);
    TASK run := TRUE;
  ENDDECISION;
  NEXTSTATE Sending;
INPUT AckSeen(m);
  RESET(T6);
  RESET(T7);
  TASK cong := FALSE, run := m;
  DECISION m;
  (TRUE):
    SET(NOW + 1000, T7);
  (FALSE):
  ENDDECISION;
  NEXTSTATE Sending;
INPUT SibSeen;
  DECISION run;
  (TRUE):
    SET(NOW + 1000, T7);
  (FALSE):
  ENDDECISION;
  DECISION cong;
  (TRUE):
  (FALSE):
    SET(NOW + 5000, T6);
    TASK cong := TRUE;
  ENDDECISION;
  NEXTSTATE Sending;
INPUT T6;
  TASK cong := FALSE;
  OUTPUT Fail;
  NEXTSTATE Sending;
INPUT T7;
  TASK run := FALSE;
  OUTPUT Fail;
  NEXTSTATE Sending;
INPUT SendSib;
  OUTPUT Line(5);
  NEXTSTATE Sending;
ENDSTATE Sending;
ENDPROCESS TXC;

"] $($rest)*)
    };
}

pub(crate) use transmission_control;
