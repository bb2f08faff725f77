//! The declarations of the block `Q703`: its signals, and the processes that send them to one another.

/// Appends the declarations to the parts before them, and passes these to the next part.
macro_rules! declarations {
    ([$($before:literal)*] $next:ident $($rest:ident)*) => {
        $next!([$($before)*
"/* The signalling link terminal of Q.703 by the letter, as eight processes: link state control, initial alignment control, the two
   error rate monitors, transmission control, reception control, processor outage control and congestion control.
   A tick is a millisecond. Kinds of units: 0 SIO, 1 SIN, 2 SIE, 3 SIOS, 4 SIPO, 5 SIB, 8 FISU, 9 MSU.
   It is `standard` (examples/standard.sdl) but where a comment begins with a star; behind it stands the clause or figure of Q.703. */
BLOCK Q703;

/* Timers in milliseconds, with their ranges on a link of 64 kbit/s (12.3): T1 40 to 50 s, T2 5 to 50 s at the end with the shorter one and
   70 to 150 s at the other, T3 1 to 2 s, T4 by the proving period (T4n: Pn, 7.5 to 9.5 s; T4e: Pe, 400 to 600 ms), T5 80 to 120 ms, T6 3 to
   6 s, T7 0.5 to 2 s, with preventive cyclic retransmission 0.8 to 2 s. */
SYNONYM T1 = 45000, T2 = 25000, T3 = 1500, T4n = 8200, T4e = 500, T5 = 100, T6 = 5000, T7 = 1000;
/* How many unacknowledged messages and octets force preventive cyclic retransmission (6.4): N1 1 to 127, N2 300 to 8192. On a full line
   N2 octets take less time than the far side may take to acknowledge a message. */
SYNONYM N1 = 127, N2 = 3000;

/* from the environment; Errored: a signal unit with errors, or N = 16 octets without one */
SIGNAL PowerOn, StartLink, StopLink, Emergency, Calm, LocalOut, LocalBack;
SIGNAL Unit(Integer), Bad, Errored, Good, MsuSent, AckSeen(Boolean), Busy, Free;
/* * Flush, Continue: level 3's orders behind an outage (8, figure 8). Odd: a FISU or message was discarded, 1 for its BSN, 2 for its
   FIB (5.3.1, 5.3.2, 6.3.1). Overload: congestion in which messages are discarded (9, figure 19). Counting: octet counting begins or
   ends (4.1.4, figure 11) */
SIGNAL Flush, Continue, Odd(Integer), Overload, Counting(Boolean);
/* from link state control */
SIGNAL IacStart(Boolean), IacStop, IacUrgent, RcStart, RcStop, RcTake(Boolean), Tx(Integer), SuStart, SuStop, CcStop;
SIGNAL Lpo, Lpr, Rpo, Rpr, PocStop, InServiceNow, Down(Integer), RemoteOut, RemoteBack;
/* * TxClear: the buffers are to be emptied (figure 13) */
SIGNAL TxClear;
/* from the others */
/* * Fail says why, as Down does. CorrectUnit: the first unit without errors behind an aborted proving period (figure 9) */
SIGNAL AlignDone, AlignFail, AeStart(Integer), AeStop, Abort, CorrectUnit, Fail(Integer), NoOutage, Stat(Integer), SibSeen;
SIGNAL Fresh, Take(Boolean), Line(Integer), SendSib, Withhold(Boolean);
/* * Deliver: whether messages are accepted (figures 14 and 16). Reject: congestion control wants messages discarded (figure 19).
   Clear: the buffers are emptied; Cleared: level 3 is told so (figure 13) */
SIGNAL Deliver(Boolean), Reject(Boolean), Clear, Cleared;

SIGNALROUTE EnvLsc FROM ENV TO LSC WITH PowerOn, StartLink, StopLink, Emergency, Calm, LocalOut, LocalBack, Flush, Continue;
SIGNALROUTE EnvRc FROM ENV TO RC WITH Unit, Bad, Odd;
SIGNALROUTE EnvAerm FROM ENV TO AERM WITH Errored, Good, Counting;
SIGNALROUTE EnvSuerm FROM ENV TO SUERM WITH Errored, Good, Counting;
SIGNALROUTE EnvTxc FROM ENV TO TXC WITH MsuSent, AckSeen;
SIGNALROUTE EnvCc FROM ENV TO CC WITH Busy, Free, Overload;
SIGNALROUTE LscIac FROM LSC TO IAC WITH IacStart, IacStop, IacUrgent;
SIGNALROUTE LscRc FROM LSC TO RC WITH RcStart, RcStop, RcTake;
SIGNALROUTE LscTxc FROM LSC TO TXC WITH Tx, TxClear;
SIGNALROUTE IacTxc FROM IAC TO TXC WITH Tx;
SIGNALROUTE LscSuerm FROM LSC TO SUERM WITH SuStart, SuStop;
SIGNALROUTE LscCc FROM LSC TO CC WITH CcStop;
SIGNALROUTE LscPoc FROM LSC TO POC WITH Lpo, Lpr, Rpo, Rpr, PocStop;
SIGNALROUTE LscEnv FROM LSC TO ENV WITH InServiceNow, Down, RemoteOut, RemoteBack;
SIGNALROUTE IacLsc FROM IAC TO LSC WITH AlignDone, AlignFail;
SIGNALROUTE IacAerm FROM IAC TO AERM WITH AeStart, AeStop;
SIGNALROUTE AermIac FROM AERM TO IAC WITH Abort, CorrectUnit;
SIGNALROUTE SuermLsc FROM SUERM TO LSC WITH Fail;
SIGNALROUTE RcLsc FROM RC TO LSC WITH Fail, Stat;
SIGNALROUTE TxcLsc FROM TXC TO LSC WITH Fail;
SIGNALROUTE PocLsc FROM POC TO LSC WITH NoOutage;
SIGNALROUTE RcIac FROM RC TO IAC WITH Stat;
SIGNALROUTE RcTxc FROM RC TO TXC WITH SibSeen;
SIGNALROUTE RcEnv FROM RC TO ENV WITH Fresh, Take, Deliver, Clear;
SIGNALROUTE TxcEnv FROM TXC TO ENV WITH Line, Clear, Cleared;
SIGNALROUTE CcTxc FROM CC TO TXC WITH SendSib;
SIGNALROUTE CcRc FROM CC TO RC WITH Reject;
SIGNALROUTE CcEnv FROM CC TO ENV WITH Withhold;

"] $($rest)*)
    };
}

pub(crate) use declarations;
