// N and K as told.
ghost use Rattle.std.specs.Prelude.{◌≡◌};
ghost use Rattle.std.specs.Result.{IfOk};
ghost use Rattle.tables.specs.Answer.{answer_of, sized};
ghost use Rattle.block.specs.Kinds.{Told};
ghost use Rattle.block.specs.Calls.{told_fits};

use tables::{Refusal, sized};

// N and K, both good.
#[derive(Clone, Copy)]
pub struct Size {
    pub links: u32,
    pub steps: u32,
    pub ghost told: { Told links steps },
}

// Whether N and K as told are good.
#[tactic(auto, unfolding(crate::specs::Calls::told_fits))]
pub fn told_fits(n: u32, k: u32) -> bool
    ensures { result ≡ told_fits n k }
{
    (1..=64).contains(&n) && (1..=1440).contains(&k)
}

// N and K as told, or refusal 1.
pub fn told(n: u32, k: u32) -> Result<Size, Refusal>
    ensures answered { answer_of result ≡ sized (told_fits n k) }
    ensures ok { IfOk result (λ size. (size.links ≡ n) × (size.steps ≡ k)) }
{
    sized(told_fits(n, k))?;
    Ok(Size { links: n, steps: k })
}
