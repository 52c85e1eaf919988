//! A host without the brackets that it has where a port follows.
ghost use Rattle.std.specs.Prelude.{◌≡◌, ◌≢◌, ◌∷◌, ◌++◌, [], List, ℕ, MatchOption};
ghost use Rattle.feed_wire.specs.Brackets.{in_brackets};

/// What follows an opening bracket, where the text begins with one.
fn opened(text: &str) -> Option<&str>
    ensures { MatchOption result ((rest : List ℕ) → text.now ≢ 91 ∷ rest)
        (λ rest. text.now ≡ 91 ∷ rest.now) }
{
    text.strip_prefix('[')
}

/// What comes before a closing bracket, where the text ends in one.
fn closed(text: &str) -> Option<&str>
    ensures { MatchOption result ((front : List ℕ) → text.now ≢ front ++ (93 ∷ []))
        (λ front. text.now ≡ front.now ++ (93 ∷ [])) }
{
    text.strip_suffix(']')
}

/// A host without the brackets around it, where it has both.
pub fn without_brackets(host: &str) -> &str
    ensures inner { (inner : List ℕ) → host.now ≡ in_brackets inner → result.now ≡ inner }
    ensures same { ((inner : List ℕ) → host.now ≢ in_brackets inner) → result.now ≡ host.now }
{
    match opened(host) {
        Some(rest) => closed(rest).unwrap_or(host),
        None => host,
    }
}
