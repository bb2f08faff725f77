//! The declarations of the block `Standard`: its signals, and the processes that send them to one another.

/// Appends the declarations to the parts before them, and passes these to the next part.
macro_rules! declarations {
    ([$($before:literal)*] $next:ident $($rest:ident)*) => {
        $next!([$($before)*
"/* The signalling link terminal of Q.703 as eight processes: link state control, initial alignment control, the two error
   rate monitors, transmission control, reception control, processor outage control and congestion control.
   A tick is a millisecond. Kinds of units: 0 SIO, 1 SIN, 2 SIE, 3 SIOS, 4 SIPO, 5 SIB, 8 FISU, 9 MSU. */
BLOCK Standard;

/* from the environment; Errored: a signal unit with errors, or N = 16 octets without one */
SIGNAL PowerOn, StartLink, StopLink, Emergency, Calm, LocalOut, LocalBack;
SIGNAL Unit(Integer), Bad, Errored, Good, MsuSent, AckSeen(Boolean), Busy, Free;
/* from link state control */
SIGNAL IacStart(Boolean), IacStop, IacUrgent, RcStart, RcStop, RcTake(Boolean), Tx(Integer), SuStart, SuStop, CcStop;
SIGNAL Lpo, Lpr, Rpo, Rpr, PocStop, InServiceNow, Down(Integer), RemoteOut, RemoteBack;
/* from the others */
SIGNAL AlignDone, AlignFail, AeStart(Integer), AeStop, Abort, Fail, NoOutage, Stat(Integer), SibSeen;
SIGNAL Fresh, Take(Boolean), Line(Integer), SendSib, Withhold(Boolean);

SIGNALROUTE EnvLsc FROM ENV TO LSC WITH PowerOn, StartLink, StopLink, Emergency, Calm, LocalOut, LocalBack;
SIGNALROUTE EnvRc FROM ENV TO RC WITH Unit, Bad;
SIGNALROUTE EnvAerm FROM ENV TO AERM WITH Errored, Good;
SIGNALROUTE EnvSuerm FROM ENV TO SUERM WITH Errored, Good;
SIGNALROUTE EnvTxc FROM ENV TO TXC WITH MsuSent, AckSeen;
SIGNALROUTE EnvCc FROM ENV TO CC WITH Busy, Free;
SIGNALROUTE LscIac FROM LSC TO IAC WITH IacStart, IacStop, IacUrgent;
SIGNALROUTE LscRc FROM LSC TO RC WITH RcStart, RcStop, RcTake;
SIGNALROUTE LscTxc FROM LSC TO TXC WITH Tx;
SIGNALROUTE IacTxc FROM IAC TO TXC WITH Tx;
SIGNALROUTE LscSuerm FROM LSC TO SUERM WITH SuStart, SuStop;
SIGNALROUTE LscCc FROM LSC TO CC WITH CcStop;
SIGNALROUTE LscPoc FROM LSC TO POC WITH Lpo, Lpr, Rpo, Rpr, PocStop;
SIGNALROUTE LscEnv FROM LSC TO ENV WITH InServiceNow, Down, RemoteOut, RemoteBack;
SIGNALROUTE IacLsc FROM IAC TO LSC WITH AlignDone, AlignFail;
SIGNALROUTE IacAerm FROM IAC TO AERM WITH AeStart, AeStop;
SIGNALROUTE AermIac FROM AERM TO IAC WITH Abort;
SIGNALROUTE SuermLsc FROM SUERM TO LSC WITH Fail;
SIGNALROUTE RcLsc FROM RC TO LSC WITH Fail, Stat;
SIGNALROUTE TxcLsc FROM TXC TO LSC WITH Fail;
SIGNALROUTE PocLsc FROM POC TO LSC WITH NoOutage;
SIGNALROUTE RcIac FROM RC TO IAC WITH Stat;
SIGNALROUTE RcTxc FROM RC TO TXC WITH SibSeen;
SIGNALROUTE RcEnv FROM RC TO ENV WITH Fresh, Take;
SIGNALROUTE TxcEnv FROM TXC TO ENV WITH Line;
SIGNALROUTE CcTxc FROM CC TO TXC WITH SendSib;
SIGNALROUTE CcEnv FROM CC TO ENV WITH Withhold;

"] $($rest)*)
    };
}

pub(crate) use declarations;
