// Cuts a text in two.
ghost use Rattle.std.specs.Prelude.{◌≡◌, ◌≢◌, [], ◌∷◌, ◌++◌, ◌⊎◌, All};

// What stands before the first c, and what after it; where there is none, all and nothing. (std's `split_once` is of text alone.)
pub fn cut(text: &[u8], c: u8) -> (&[u8], &[u8])
    ensures first { All (λ d. d ≢ c) result.0.now }
    ensures parts { (text.now ≡ result.0.now ++ c ∷ result.1.now) ⊎ ((text.now ≡ result.0.now) × (result.1.now ≡ [])) }
{
    match text.iter().position(|d| *d == c) {
        Some(at) => (&text[..at], &text[at + 1..]),
        None => (text, &[]),
    }
}
