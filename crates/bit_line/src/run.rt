//! Runs of plain octets: no bit follows six 1s, and an octet has at most one inserted zero.
ghost use Rattle.std.specs.Prelude.{◌≡◌, ◌≤◌, ◌<◌, Bool, List, ◌++◌, reverse, length, take, IfSome};
ghost use Rattle.arrayvec.specs.ArrayVec.{array_vec_len};
ghost use Rattle.std.specs.Option.{option_to_list};
ghost use Rattle.su_octets.specs.Bits.{bits_of};

use crate::part::Part;
use crate::taken::{ones_after, taken_from};
use crate::window::is_plain;
use arrayvec::ArrayVec;

/// The fields of a deframer that plain octets change, except the octets of the content.
#[derive(Clone, Copy)]
pub struct Run {
    /// The newest seven bits, the newest one highest.
    pub recent: u8,
    /// How many 1s in a row the content ends with.
    pub ones: u8,
    /// The bits of the content's incomplete last octet.
    pub part: Part,
    ghost recent_fits: { recent < 128 },
    ghost few_ones: { ones ≤ 5 },
}

/// The effect of a plain octet.
#[derive(Clone, Copy)]
pub struct Step {
    /// The changed fields.
    pub run: Run,
    /// The octet that is added to the content, if the bits complete one.
    pub whole: Option<u8>,
}

/// Appends the octet, if there is one.
fn put(whole: Option<u8>, octets: &mut ArrayVec<u8, 278>)
    requires { array_vec_len octets.old < 278 }
    ensures { octets.new.items ≡ octets.old.items ++ option_to_list whole }
{
    if let Some(octet) = whole {
        octets.push(octet);
    }
}

impl Run {
    ghost use Rattle.bit_line.specs.Deframing.{StandsAt};
    ghost use Rattle.bit_line.specs.Running.{IsPlainStep, IsCalm, with_run};
    ghost use Rattle.bit_line.specs.declared.receiver.Receiver.{Receiver};
    ghost use Rattle.bit_line.specs.declared.events.LineEvent.{LineEvent};

    /// Takes an octet if no bit follows six 1s and at most one inserted zero enters the content.
    fn step(self, octet: u8) -> Option<Step>
        ensures { IfSome result (λ s. IsPlainStep self octet s.run (option_to_list s.whole)) }
    {
        let window = u16::from(self.recent) + u16::from(octet) * 128;
        if !is_plain(window) {
            return None;
        }
        let late = (window % 256) as u8;
        let recent = (window / 256) as u8;
        let mut part = self.part;
        if let Some(ones) = ones_after(late, self.ones) {
            let whole = part.push_eight(late);
            return Some(Step {
                run: Run { recent, ones, part },
                whole: Some(whole),
            });
        }
        let Some(taken) = taken_from(late, 8, self.ones) else {
            return None;
        };
        let whole = part.push_few(taken.bits, taken.len);
        Some(Step {
            run: Run {
                recent,
                ones: taken.ones,
                part,
            },
            whole,
        })
    }

    /// Takes plain octets from the front while there is room. Returns how many, and the changed fields.
    pub fn over(self, octets: &mut ArrayVec<u8, 278>, line: &[u8]) -> (usize, Run)
        ensures most { result.0 ≤ length line.now }
        ensures stands { (base : Receiver) (h : List Bool) (events : List LineEvent) → IsCalm base → StandsAt h events (with_run base self octets.old.items)
            → StandsAt (reverse (bits_of (take result.0 line.now)) ++ h) events (with_run base result.1 octets.new.items) }
    {
        let mut run = self;
        let mut taken = 0;
        for octet in line {
            if octets.len() >= 277 {
                return (taken, run);
            }
            match run.step(*octet) {
                Some(step) => {
                    put(step.whole, octets);
                    run = step.run;
                }
                None => return (taken, run),
            }
            taken += 1;
        }
        (taken, run)
    }
}
