//! The program without its input and output (layer 6): from the bytes of an input to the answers that are printed.
//!
//! `Room::new` makes all room, and is all that can want memory. `respond` then gives the one list of answers that
//! specs/Output.antt has for the input. Rests on `calls` and `answers` for what is read and said, on `text` for the
//! policy, and on `book` for the calls, here on the plain scale and a row table of 64 runs.
#![tactic(auto)]

ghost use Rattle.std.specs.Prelude.{◌≡◌, ◌≤◌, [], ◌∷◌, length, MatchResult};
ghost use Rattle.answers.specs.declared.answer.Answer.TheVariants.{Refused as refused};
ghost use Rattle.console.specs.Output.{Printed, OneOutput};
ghost use Rattle.console.specs.Answering.{sizes_of, PolicyRead, PolicyPrinted};

use answers::Answer;
use calls::{Lines, cut_input};
use lines::Policy;
use refusals::Refusal;

mod answering;
mod opening;
mod room;

use answering::answer_lines;
pub use room::Room;

/// The policy that the input's text is read into, and what stands behind the text.
fn read_policy(input: &[u8]) -> Result<(Policy, &[u8]), Refusal>
    ensures { MatchResult result (λ p. PolicyRead input.now p.0 p.1.now) (λ r. Printed input.now (refused r ∷ [])) }
{
    let (text, rest) = cut_input(input)?;
    let reading = text::read(text)?;
    Ok((reading.policy, rest))
}

/// A refusal as the only answer.
fn refuse(room: Room, refusal: Refusal) -> Vec<Answer>
    ensures { result.items ≡ refused refusal ∷ [] }
{
    let Room {
        memory: _,
        book: _,
        mut answers,
    } = room;
    answers.push_reserved(Answer::Refused(refusal));
    answers
}

/// How many atoms and lines the policy has.
fn sizes(policy: &Policy) -> Answer
    ensures { result ≡ sizes_of policy.now }
{
    let atoms = policy.atoms();
    let lines = policy.lines().len();
    Answer::Policy { atoms, lines }
}

/// The policy's sizes, and what the lines of `rest` are answered by a book of it.
fn answer_all(room: Room, policy: Policy, rest: &[u8]) -> Vec<Answer>
    requires { length rest.now ≤ 65536 }
    ensures { PolicyPrinted policy rest.now result.items }
{
    let (mut book, mut answers) = room.open(policy);
    answers.push_reserved(sizes(&policy));
    answer_lines(&mut book, Lines::new(rest), &mut answers);
    answers
}

/// What the program answers to an input: how it reads the policy, and one answer for each line that is not empty.
pub fn respond(room: Room, input: &[u8]) -> Vec<Answer>
    ensures { Printed input.now result.items }
{
    match read_policy(input) {
        Ok((policy, rest)) => answer_all(room, policy, rest),
        Err(refusal) => refuse(room, refusal),
    }
}

/// That an input has at most one list of answers.
pub fn output_is_unique()
    ensures { OneOutput }
{}
