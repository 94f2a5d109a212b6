// The run of the cipher that is lent a state and an output, where its part of the output is measured and given up.
ghost use Rattle.std.specs.Prelude.{◌≡◌, ◌++◌, length, drop};
ghost use Rattle.cipher.specs.State.{run_number, run_state, run_part};
ghost use Rattle.cipher.specs.Machine.{state_of};

use cipher::State;

// The output ends as the part, with what stood behind it; how long the part is comes back.
pub fn measured(s: &mut State, answer: &mut u64, out: &mut [u8], n: usize, back: bool) -> usize
    ensures state { state_of s.new ≡ run_state back (state_of s.old) (length out.old) n }
    ensures answer { answer.new ≡ run_number back s.old.count (length out.old) n }
    ensures wrote { result ≡ length (run_part back (state_of s.old) (length out.old) n) }
    ensures out { out.new ≡ run_part back (state_of s.old) (length out.old) n ++ drop result out.old }
{
    let part = cipher::run(s, answer, out, n, back);
    part.len()
}
