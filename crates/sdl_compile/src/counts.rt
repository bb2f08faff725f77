//! Counts at the places of code, made from its end on.
ghost use Rattle.std.specs.Prelude.{◌≡◌, ℕ, ◌+◌, ◌≤◌, length, map, IfOk};
ghost use Rattle.turn_code.specs.Code.{successors};
ghost use Rattle.turn_code.specs.Rules.{greatest};
ghost use Rattle.sdl_compile.specs.PlaceCounts.{weight, number_at, AreCountsFrom, AreWithin};
ghost use Rattle.plain_laws.specs.Limits.{MOST_INSTRUCTIONS};

use turn_code::Instruction;

/// What to count.
#[derive(Clone, Copy)]
pub enum Counted {
    /// Each instruction.
    Instructions,
    /// Each output, and each setting or resetting of a timer.
    Effects,
}

/// How much an instruction adds to the count: 1 or 0.
fn weight(counted: Counted, instruction: Instruction) -> u32
    ensures value { result ≡ weight counted instruction }
    ensures one { result ≤ 1 }
{
    match counted {
        Counted::Instructions => 1,
        Counted::Effects => match instruction {
            Instruction::Output(..) | Instruction::Set(_) | Instruction::Reset(_) => 1,
            _ => 0,
        },
    }
}

/// The count of a place; 0 if there is none.
fn count_at(counts: &[u32], place: usize) -> u32
    ensures { result ≡ number_at counts.now place }
{
    match counts.get(place) {
        Some(count) => *count,
        None => 0,
    }
}

/// The greatest count of the places where the code goes on after the instruction at a place.
fn greatest_next(counts: &[u32], instruction: Instruction, place: usize) -> u32
    requires { place ≤ 65535 }
    ensures { result ≡ greatest (map (number_at counts.now) (successors instruction place)) }
{
    match instruction {
        Instruction::Case(_, _, to) => {
            count_at(counts, usize::from(to.0)).max(count_at(counts, place + 1))
        }
        Instruction::CaseWithin(to, _, _) => {
            count_at(counts, usize::from(to.0)).max(count_at(counts, place + 1))
        }
        Instruction::Pick(no, yes) => {
            count_at(counts, usize::from(no.0)).max(count_at(counts, usize::from(yes.0)))
        }
        Instruction::Jump(to) => count_at(counts, usize::from(to.0)),
        Instruction::Next(_) | Instruction::Stop => 0,
        _ => count_at(counts, place + 1),
    }
}

/// Counts from the end of the code on: for each place its own instruction and the greatest count of the places where
/// the code goes on. `known` has the counts of the places to which the code goes back.
pub fn count_places(counted: Counted, code: &[Instruction], known: Vec<u32>) -> Vec<u32>
    requires size { length known.items ≡ length code.now }
    requires short { length code.now ≤ MOST_INSTRUCTIONS }
    requires few { AreWithin MOST_INSTRUCTIONS known.items }
    ensures { AreCountsFrom (weight counted) known.items code.now result.items }
{
    let mut counts = known;
    let mut place = code.len();
    while place > 0 {
        place -= 1;
        let instruction = code[place];
        counts[place] = weight(counted, instruction) + greatest_next(&counts, instruction, place);
    }
    counts
}
