//! A text cut at its first `/`, or at its first `~`.

ghost use Rattle.std.specs.Prelude.{◌≡◌, ◌∷◌, ◌++◌, MatchOption};
ghost use Rattle.doc_pointer.specs.Lacks.{Lacks};
ghost use Rattle.doc_pointer.specs.Text.{slash, tilde};

/// What comes before the first `/` and what after it; `None` if there is no `/`.
pub fn cut_at_slash(text: &str) -> Option<(&str, &str)>
    ensures { MatchOption result (Lacks slash text.now)
        (λ p. (text.now ≡ p.0.now ++ slash ∷ p.1.now) × Lacks slash p.0.now) }
{
    text.split_once('/')
}

/// What comes before the first `~` and what after it; `None` if there is no `~`.
pub fn cut_at_tilde(text: &str) -> Option<(&str, &str)>
    ensures { MatchOption result (Lacks tilde text.now)
        (λ p. (text.now ≡ p.0.now ++ tilde ∷ p.1.now) × Lacks tilde p.0.now) }
{
    text.split_once('~')
}
