// The open brackets: the innermost, one more and one fewer.
ghost use Rattle.std.specs.Prelude.{◌≡◌, [], ◌∷◌, ◌≤◌, drop};
ghost use Rattle.literal.specs.Literal.{max_open};
ghost use Rattle.literal.specs.Means.{open_means, top_of, brackets_mean};

use crate::mode::{Bracket, Brackets};

impl Brackets {
    // Open arrays and objects.
    pub const DEPTH: usize = 32;

    #[tactic(auto, unfolding(crate::specs::Stack::stack_means, crate::specs::Stack::power_of2))]
    pub(crate) fn none() -> Brackets
        ensures { (result.depth ≤ max_open) × (brackets_mean result ≡ []) }
    {
        Brackets { depth: 0, bits: 0 }
    }

    #[tactic(auto, unfolding(crate::specs::Stack::stack_means))]
    pub(crate) fn top(self) -> Option<Bracket>
        ensures { result ≡ top_of (brackets_mean self) }
    {
        if self.depth == 0 {
            return None;
        }
        if self.bits % 2 == 1 {
            return Some(Bracket::Object);
        }
        Some(Bracket::Array)
    }

    pub(crate) fn push(self, bracket: Bracket) -> Brackets
        requires { self.depth ≤ max_open }
        ensures { brackets_mean result ≡ open_means bracket ∷ brackets_mean self }
    {
        match bracket {
            Bracket::Array => Brackets {
                depth: self.depth + 1,
                bits: self.bits * 2,
            },
            Bracket::Object => Brackets {
                depth: self.depth + 1,
                bits: self.bits * 2 + 1,
            },
        }
    }

    // Where none is open, none is left.
    pub(crate) fn pop(self) -> Brackets
        ensures { brackets_mean result ≡ drop 1 (brackets_mean self) }
    {
        Brackets {
            depth: self.depth.saturating_sub(1),
            bits: self.bits / 2,
        }
    }
}
