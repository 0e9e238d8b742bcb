// Whether an identifier stands at an earlier node too.
ghost use Rattle.std.specs.Prelude.{◌≡◌, ◌≤◌};
ghost use Rattle.lists.specs.Words.{node_at};
ghost use Rattle.list_scans.specs.Refusals.{fresh};

use lists::inner::corridor::Corridor;

// Whether no node before node i has its identifier.
pub fn fresh(corridor: Corridor<'_>, i: usize) -> bool
    requires { i ≤ corridor.links }
    ensures { result ≡ fresh (λ j. (node_at corridor.entry.words.now j).identifier) i }
{
    let own = corridor.identifier(i);
    for j in 0..i {
        if corridor.identifier(j) == own {
            return false;
        }
    }
    true
}
