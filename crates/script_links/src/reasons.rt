//! Why the words of a line don't belong to a script for `play`.

use script_lines::LineFault;
use std::fmt;

/// Why the words of a line don't belong to a script.
#[derive(Clone, Copy, PartialEq, Eq, Debug)]
pub enum PlayFault<'a> {
    /// A reason that scripts of all kinds have.
    Line(LineFault<'a>),
    /// The word isn't made of pairs of hexadecimal digits.
    NoOctets {
        word: &'a str,
    },
    /// The octets after the first word are fewer than `least` or more than `most`.
    Octets {
        word: &'a str,
        least: usize,
        most: usize,
        there: usize,
    },
    /// The length indicator of a unit is `says`, but `there` octets follow it.
    Indicator {
        says: u8,
        there: usize,
    },
    /// The word isn't an order to a terminal.
    NoOrder {
        word: &'a str,
    },
    /// The word isn't a kind of error correction.
    NoMode {
        word: &'a str,
    },
    /// The word is a kind of error correction that takes no N1 and N2.
    NoLimits {
        word: &'a str,
    },
    /// The words aren't a unit in the form for units in words.
    NoUnit {
        word: &'a str,
    },
    /// The word isn't a measurement.
    NoMeasure {
        word: &'a str,
    },
    /// The octets after the word aren't a message bound to a link.
    NotBound {
        word: &'a str,
    },
    /// The word is neither `yes` nor `no`.
    NoWay {
        word: &'a str,
    },
}

impl fmt::Display for PlayFault<'_> {
    fn fmt<W: fmt::Write>(&self, f: &mut fmt::Formatter<W>) -> fmt::Result {
        match self {
            Self::Line(fault) => fmt::Display::fmt(fault, f),
            Self::NoOctets { word } => {
                write!(f, "'{word}' isn't made of pairs of hexadecimal digits")
            }
            Self::Octets {
                word,
                least,
                most,
                there,
            } => write!(
                f,
                "'{word}' takes {least} to {most} octets, and has {there}"
            ),
            Self::Indicator { says, there } => write!(
                f,
                "the length indicator says {says}, and {there} octets follow it",
            ),
            Self::NoOrder { word } => write!(
                f,
                "'{word}' is none of power, start, stop, emergency, calm, outage, back, busy, free, flush, continue and overload",
            ),
            Self::NoMode { word } => write!(f, "'{word}' is neither basic nor cyclic"),
            Self::NoLimits { word } => write!(f, "'{word}' has no N1 and N2: cyclic has"),
            Self::NoUnit { word } => write!(
                f,
                "'{word}' takes pairs of hexadecimal digits, or FISU, LSSU or MSU with bsn N bib B fsn N fib B and status NAME, or sio HEX sif HEX",
            ),
            Self::NoMeasure { word } => {
                write!(
                    f,
                    "'{word}' is neither reset nor a measurement of docs/links.md"
                )
            }
            Self::NotBound { word } => write!(
                f,
                "'{word}' takes a message of changeover or changeback, a traffic restart or a test of the link, from point 1 to point 2",
            ),
            Self::NoWay { word } => write!(f, "'{word}' is neither yes nor no"),
        }
    }
}
