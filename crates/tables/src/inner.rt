// The one loop that looks for a refusal.
ghost use Rattle.std.specs.Prelude.{◌≡◌, ℕ, ◌<◌};
ghost use Rattle.tables.specs.Answer.{Answer, answer_of};
ghost use Rattle.tables.specs.First.{first};

use crate::Answer;

// The first of answer 0, .. answer (n - 1) that refuses.
pub fn first<F: Fn(usize) -> Answer>(n: usize, answer: F) -> Answer
    requires { (i : ℕ) → i < n → F.pre answer i }
    ensures { (told : ℕ → Answer) → ((i : ℕ) (r : _) → i < n → F.post answer i r → answer_of r ≡ told i) → answer_of result ≡ first n told }
{
    for i in 0..n {
        answer(i)?;
    }
    Ok(())
}
