// Whether a state of the first part of a joined model behaves as one of the second: the pair judged, the states' parts, and their blocks.
#![tactic(auto)]

ghost use Rattle.std.specs.Prelude.{◌<◌, ◌≡◌, length, get_or};
ghost use Rattle.bisimulation.specs.definitions.Choice.{if_same};
ghost use Rattle.joined.specs.definitions.AlikeAnswer.{parts_number};
ghost use Rattle.alike.specs.Alike.{named, says_no, number_in, Compares, AlikeAnswered};

use answer::Answer;
use fault::Refusal;
use limits::{STATES, Terms};
use rule_kind::Kind;

// What the call answers, and what it says: 1 for yes, 0 for no.
#[repr(C)]
#[derive(Clone, Copy)]
pub struct AlikeAnswer {
    pub answer: Answer,
    pub alike: u32,
}

// 27 where the first's count is above n or a state is not in its part.
fn test_parts(
    n: usize,
    first_count: usize,
    first_state: usize,
    second_state: usize,
) -> Result<(), Refusal>
    ensures { number_in result ≡ parts_number n (named first_count first_state second_state) }
{
    if n < first_count {
        return Err(Refusal::NotInPart);
    }
    if first_count <= first_state {
        return Err(Refusal::NotInPart);
    }
    if second_state < first_count {
        return Err(Refusal::NotInPart);
    }
    if n <= second_state {
        return Err(Refusal::NotInPart);
    }
    Ok(())
}

fn same_block(blocks: &[u8], v: usize, u: usize) -> u32
    requires { (v < length blocks.now) × (u < length blocks.now) }
    ensures { result ≡ if_same (get_or blocks.now v 0) (get_or blocks.now u 0) 1 0 }
{
    if blocks[v] == blocks[u] {
        return 1;
    }
    0
}

// A refusal says nothing of the states.
fn unsaid(answer: Answer) -> AlikeAnswer
    ensures { result ≡ says_no answer }
{
    AlikeAnswer { answer, alike: 0 }
}

// What is said of two states by accepted blocks.
fn compare(blocks: &[u8], first_count: usize, first: usize, second: usize) -> AlikeAnswer
    ensures { Compares blocks.now (named first_count first second) result }
{
    match test_parts(blocks.len(), first_count, first, second) {
        Ok(()) => AlikeAnswer {
            answer: Answer::written(0),
            alike: same_block(blocks, first, second),
        },
        Err(refusal) => unsaid(Answer::refused(refusal)),
    }
}

// What the call that compares two states answers and says.
pub fn alike_answer(
    model: &[u8],
    first_count: u32,
    certificate: &[u8],
    first_state: u32,
    second_state: u32,
) -> AlikeAnswer
    ensures { AlikeAnswered model.now certificate.now (named first_count first_state second_state) result }
{
    if let Err(refused) = judgement::head_answer(model) {
        return unsaid(refused);
    }
    match judgement::judge_files(Kind::Plain, Terms::Lowest, model, certificate, STATES) {
        Ok(found) => {
            let at = found.blocks;
            let blocks = &certificate[at..at + found.states];
            compare(
                blocks,
                first_count as usize,
                first_state as usize,
                second_state as usize,
            )
        }
        Err(refused) => unsaid(refused),
    }
}
