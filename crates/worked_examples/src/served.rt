// The examples served: a machine starts on each, and what is answered to calls on it is what the definitions say.
ghost use Rattle.std.specs.Prelude.{◌≡◌, ℕ, [], ◌∷◌, map, Ok};
ghost use Rattle.transaction.specs.Faults.{refusal};
ghost use Rattle.image.specs.Reading.{good, bad};
ghost use Rattle.book.specs.Calls.Call.{Feed, Tick, Take, Peek};
ghost use Rattle.book.specs.Calls.Outcome.{done, packet, word};
ghost use Rattle.calls.specs.Asking.{call_in, answer_in};
ghost use Rattle.worked_examples.specs.Runs.{TenthsMarked, TenthMarked};

use crate::images::{COUNTDOWN, EMPTY, SAMPLING};
use atoms::Subtract;
use calls::{Asked, serve};
use choice::Choice;
use transaction::Refusal;
use word::{Clamp, Wrap};

// Makes calls on a machine that samples. Whatever they are, every tenth packet taken is marked; a peek that comes one tick
// after the first packet was fed shows that its atom has not counted it, and one that comes two ticks after, that it has.
pub fn serve_sampling(asked: &mut [Asked]) -> Result<(), Refusal>
    ensures starts { result ≡ Ok tt }
    ensures tenths { TenthsMarked (map call_in asked.old) (map answer_in asked.new) }
    ensures tenth { TenthMarked (map call_in asked.old) (map answer_in asked.new) }
    ensures told { (a b : ℕ) → map call_in asked.old ≡ Feed (a ∷ b ∷ []) ∷ Tick ∷ Peek 0 ∷ Tick ∷ Peek 0 ∷ [] → map answer_in asked.new ≡ good done ∷ good done ∷ good (word 0 0) ∷ good done ∷ good (word 1 1) ∷ [] }
{
    serve(Choice(Choice(Subtract(Wrap))), &SAMPLING, 30, 10, 8, asked)?;
    Ok(())
}

// Makes calls on a machine that counts down and wraps: one below 0 is the top word.
pub fn serve_countdown_wrapping(asked: &mut [Asked]) -> Result<(), Refusal>
    ensures starts { result ≡ Ok tt }
    ensures told { (a : ℕ) → map call_in asked.old ≡ Feed (a ∷ []) ∷ Tick ∷ Peek 0 ∷ [] → map answer_in asked.new ≡ good done ∷ good done ∷ good (word 4294967295 1) ∷ [] }
{
    serve(Subtract(Wrap), &COUNTDOWN, 30, 10, 8, asked)?;
    Ok(())
}

// Makes calls on a machine that counts down and stops at the ends: one below 0 is 0.
pub fn serve_countdown_clamping(asked: &mut [Asked]) -> Result<(), Refusal>
    ensures starts { result ≡ Ok tt }
    ensures told { (a : ℕ) → map call_in asked.old ≡ Feed (a ∷ []) ∷ Tick ∷ Peek 0 ∷ [] → map answer_in asked.new ≡ good done ∷ good done ∷ good (word 0 1) ∷ [] }
{
    serve(Subtract(Clamp), &COUNTDOWN, 30, 10, 8, asked)?;
    Ok(())
}

// Makes calls on a machine that does nothing: a packet leaves after one tick, and not before.
pub fn serve_nothing(asked: &mut [Asked]) -> Result<(), Refusal>
    ensures starts { result ≡ Ok tt }
    ensures told { (a : ℕ) → map call_in asked.old ≡ Feed (a ∷ []) ∷ Take 1 ∷ Tick ∷ Take 1 ∷ [] → map answer_in asked.new ≡ good done ∷ bad (refusal 15 1) ∷ good done ∷ good (packet (a ∷ [])) ∷ [] }
{
    serve(Choice(Choice(Subtract(Wrap))), &EMPTY, 30, 10, 8, asked)?;
    Ok(())
}
