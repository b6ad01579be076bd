// Joining as C takes it: a struct for the answer.

#![tactic(auto)]

ghost use Rattle.std.specs.Prelude.{◌≡◌};
ghost use Rattle.answers.specs.Answers.{answer_of};
ghost use Rattle.joined_sheets.specs.JoinCall.{join_call};

use answers::Answer;

// Writes the joined sheet of two. Counts bytes.
pub fn join(first: &[u8], second: &[u8], names: &[u64], out: &mut [u8]) -> Answer
    ensures { (result ≡ answer_of (join_call first.now second.now names.now out.old).answer)
        × (out.new ≡ (join_call first.now second.now names.now out.old).buffer) }
{
    Answer::of(joining::join(first, second, names, out))
}
