//! Link state control (Q.703) in the text `q703`.

/// Appends the process LSC to the parts before it, and passes these to the next part.
macro_rules! link_state_control {
    ([$($before:literal)*] $next:ident $($rest:ident)*) => {
        $next!([$($before)*
"/* Link state control. em: the emergency is on; lpo, rpo: this side's and the other side's processor is out; r: why the link goes down.
   * r tells the causes apart that Q.752 counts (1.3 to 1.7): 0 it was stopped, 1 alignment failed, 2 too many errors, 3 the other side
   went out, 4 T1 ran out, 5 abnormal BSNs or FIBs, 6 T7 ran out, 7 T6 ran out.
   * ordered: level 3 gave one of its orders in this outage (figure 8: level 3 indication received). */
PROCESS LSC (1, 1);
DCL em, lpo, rpo, ordered Boolean := FALSE, k, r Integer := 0;
TIMER T1;
START;
NEXTSTATE PowerOff;

STATE PowerOff;
INPUT PowerOn;
  OUTPUT Tx(3);
  NEXTSTATE OutOfService;
ENDSTATE PowerOff;

STATE OutOfService;
INPUT StartLink;
  OUTPUT RcStart, IacStart(em);
  NEXTSTATE InitAlign;
INPUT Calm;
  TASK em := FALSE;
  NEXTSTATE OutOfService;
INPUT LocalOut;
  TASK lpo := TRUE;
  NEXTSTATE OutOfService;
INPUT LocalBack;
  TASK lpo := FALSE;
  NEXTSTATE OutOfService;
INPUT Emergency;
  TASK em := TRUE;
  NEXTSTATE OutOfService;
ENDSTATE OutOfService;

STATE InitAlign;
INPUT Calm;
  TASK em := FALSE;
  NEXTSTATE InitAlign;
INPUT LocalOut;
  TASK lpo := TRUE;
  NEXTSTATE InitAlign;
INPUT LocalBack;
  TASK lpo := FALSE;
  NEXTSTATE InitAlign;
INPUT Emergency;
  TASK em := TRUE;
  OUTPUT IacUrgent;
  NEXTSTATE InitAlign;
INPUT AlignDone;
  OUTPUT SuStart;
  SET(NOW + T1, T1);
  DECISION lpo;
  (TRUE):
    /* * units are judged here too, and messages rejected (figures 8 and 14) */
    OUTPUT Lpo, RcTake(FALSE), Tx(4);
    NEXTSTATE AlignedNotReady;
  (FALSE):
    OUTPUT RcTake(TRUE), Tx(8);
    NEXTSTATE AlignedReady;
  ENDDECISION;
INPUT AlignFail;
  TASK r := 1;
  JOIN down;
ENDSTATE InitAlign;

STATE InitAlign, AlignedReady, AlignedNotReady, InService, ProcOutage;
INPUT StopLink;
  TASK r := 0;
  JOIN down;
INPUT Fail(r);
  JOIN down;
ENDSTATE InitAlign;

STATE AlignedReady, AlignedNotReady;
INPUT T1;
  TASK r := 4;
  JOIN down;
ENDSTATE AlignedReady;

STATE AlignedReady;
INPUT Stat(k);
  DECISION k;
  (8):
    RESET(T1);
    OUTPUT InServiceNow, Tx(9);
    NEXTSTATE InService;
  (4):
    RESET(T1);
    OUTPUT InServiceNow;
    TASK rpo := TRUE;
    OUTPUT RemoteOut, Rpo;
    NEXTSTATE ProcOutage;
  (0, 3):
    TASK r := 3;
    JOIN down;
  ELSE:
    NEXTSTATE AlignedReady;
  ENDDECISION;
INPUT LocalOut;
  TASK lpo := TRUE;
  OUTPUT Lpo, RcTake(FALSE), Tx(4);
  NEXTSTATE AlignedNotReady;
ENDSTATE AlignedReady;

STATE AlignedNotReady;
INPUT Stat(k);
  DECISION k;
  (8):
    RESET(T1);
    OUTPUT InServiceNow;
    NEXTSTATE ProcOutage;
  (4):
    RESET(T1);
    OUTPUT InServiceNow;
    TASK rpo := TRUE;
    OUTPUT RemoteOut, Rpo;
    NEXTSTATE ProcOutage;
  (0, 3):
    TASK r := 3;
    JOIN down;
  ELSE:
    NEXTSTATE AlignedNotReady;
  ENDDECISION;
INPUT LocalBack;
  TASK lpo := FALSE;
  OUTPUT Lpr, RcTake(TRUE), Tx(8);
  NEXTSTATE AlignedReady;
ENDSTATE AlignedNotReady;

STATE InService;
INPUT Stat(k);
  DECISION k;
  (0 : 3):
    TASK r := 3;
    JOIN down;
  (4):
    TASK rpo := TRUE;
    OUTPUT RemoteOut, Rpo, Tx(8);
    NEXTSTATE ProcOutage;
  ELSE:
    NEXTSTATE InService;
  ENDDECISION;
INPUT LocalOut;
  TASK lpo := TRUE;
  OUTPUT Lpo, RcTake(FALSE), Tx(4);
  NEXTSTATE ProcOutage;
ENDSTATE InService;

STATE ProcOutage;
INPUT Stat(k);
  DECISION k;
  (0 : 3):
    TASK r := 3;
    JOIN down;
  (4):
    DECISION rpo;
    (TRUE):
    (FALSE):
      /* * a new outage forgets level 3's order (8, figure 8) */
      TASK rpo := TRUE, ordered := FALSE;
      OUTPUT RemoteOut, Rpo;
    ENDDECISION;
    NEXTSTATE ProcOutage;
  (8):
    DECISION rpo;
    (TRUE):
      TASK rpo := FALSE;
      OUTPUT RemoteBack, Rpr;
    (FALSE):
    ENDDECISION;
    NEXTSTATE ProcOutage;
  ELSE:
    NEXTSTATE ProcOutage;
  ENDDECISION;
INPUT LocalOut;
  DECISION lpo;
  (TRUE):
  (FALSE):
    /* * as above */
    TASK lpo := TRUE, ordered := FALSE;
    OUTPUT Lpo, RcTake(FALSE), Tx(4);
  ENDDECISION;
  NEXTSTATE ProcOutage;
INPUT LocalBack;
  DECISION lpo;
  (TRUE):
    TASK lpo := FALSE;
    OUTPUT Lpr, RcTake(TRUE), Tx(8);
  (FALSE):
  ENDDECISION;
  NEXTSTATE ProcOutage;
INPUT NoOutage;
  JOIN again;
/* * level 3's orders: the buffers are emptied, or traffic goes on where it stood (8, figure 8) */
INPUT Flush;
  OUTPUT TxClear;
  TASK ordered := TRUE;
  JOIN again;
INPUT Continue;
  TASK ordered := TRUE;
  JOIN again;
ENDSTATE ProcOutage;

/* * Messages go again once neither processor is out and level 3 has given an order; till then FISUs do (8, figure 8). */
CONNECTION again:
  DECISION lpo OR rpo OR NOT ordered;
  (TRUE):
    NEXTSTATE ProcOutage;
  (FALSE):
    TASK ordered := FALSE;
    OUTPUT Tx(9);
    NEXTSTATE InService;
  ENDDECISION;
ENDCONNECTION again;

/* * This side's outage is forgotten as well (figure 8). */
CONNECTION down:
  RESET(T1);
  OUTPUT Tx(3), RcStop, IacStop, SuStop, PocStop, CcStop, Down(r);
  TASK em := FALSE, lpo := FALSE, rpo := FALSE, ordered := FALSE;
  NEXTSTATE OutOfService;
ENDCONNECTION down;
ENDPROCESS LSC;

"] $($rest)*)
    };
}

pub(crate) use link_state_control;
