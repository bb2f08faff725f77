//! Processor outage control and congestion control (Q.703) in the text `q703`.

/// Appends the processes POC and CC and the end of the block to the parts before them, and passes these on.
macro_rules! outage_and_congestion {
    ([$($before:literal)*] $next:ident $($rest:ident)*) => {
        $next!([$($before)*
"/* Processor outage control: on which sides a processor is out. */
PROCESS POC (1, 1);
START;
NEXTSTATE Idle;

STATE Idle;
INPUT Lpo;
  NEXTSTATE Local;
INPUT Rpo;
  NEXTSTATE Remote;
ENDSTATE Idle;

STATE Local;
INPUT Rpo;
  NEXTSTATE Both;
INPUT Lpr;
  OUTPUT NoOutage;
  NEXTSTATE Idle;
ENDSTATE Local;

STATE Remote;
INPUT Lpo;
  NEXTSTATE Both;
INPUT Rpr;
  OUTPUT NoOutage;
  NEXTSTATE Idle;
ENDSTATE Remote;

STATE Both;
INPUT Lpr;
  NEXTSTATE Remote;
INPUT Rpr;
  NEXTSTATE Local;
ENDSTATE Both;

STATE Local, Remote, Both;
INPUT PocStop;
  NEXTSTATE Idle;
ENDSTATE Local;
ENDPROCESS POC;

/* Congestion control: while this side is busy a SIB goes out every T5. * Discarding: messages that come are discarded (9, figure 19). */
PROCESS CC (1, 1);
TIMER T5;
START;
NEXTSTATE Idle;

STATE Idle;
INPUT Busy;
  OUTPUT SendSib, Withhold(TRUE);
  SET(NOW + T5, T5);
  NEXTSTATE Congested;
INPUT Overload;
  OUTPUT SendSib, Withhold(TRUE), Reject(TRUE);
  SET(NOW + T5, T5);
  NEXTSTATE Discarding;
ENDSTATE Idle;

STATE Congested;
INPUT T5;
  OUTPUT SendSib;
  SET(NOW + T5, T5);
  NEXTSTATE Congested;
INPUT Free, CcStop;
  RESET(T5);
  OUTPUT Withhold(FALSE);
  NEXTSTATE Idle;
INPUT Overload;
  OUTPUT Reject(TRUE);
  NEXTSTATE Discarding;
ENDSTATE Congested;

STATE Discarding;
INPUT T5;
  OUTPUT SendSib;
  SET(NOW + T5, T5);
  NEXTSTATE Discarding;
INPUT Free, CcStop;
  RESET(T5);
  OUTPUT Withhold(FALSE), Reject(FALSE);
  NEXTSTATE Idle;
INPUT Busy;
  OUTPUT Reject(FALSE);
  NEXTSTATE Congested;
ENDSTATE Discarding;
ENDPROCESS CC;
ENDBLOCK Q703;
"] $($rest)*)
    };
}

pub(crate) use outage_and_congestion;
