//! The first byte or the first word of a text.
ghost use Rattle.std.specs.Prelude.{◌≡◌, ◌∷◌, ◌++◌, [], ℕ, List, IfSome, IfNone, IsSomeAnd};

/// The first byte and what follows it.
#[inline(always)]
pub fn first_byte(text: &[u8]) -> Option<(u8, &[u8])>
    ensures found { IfSome result (λ r. text.now ≡ r.0 ∷ r.1.now) }
    ensures missed { IfNone result (text.now ≡ []) }
{
    match text {
        [first, rest @ ..] => Some((*first, rest)),
        [] => None,
    }
}

/// What follows a byte, where the text begins with it.
#[inline(always)]
pub fn after_byte(text: &[u8], byte: u8) -> Option<&[u8]>
    ensures found { IfSome result (λ rest. text.now ≡ byte ∷ rest.now) }
    ensures every { (rest : List ℕ) → text.now ≡ byte ∷ rest → IsSomeAnd result (λ r. r.now ≡ rest) }
{
    let (first, rest) = first_byte(text)?;
    if first == byte { Some(rest) } else { None }
}

/// What follows a word, where the text begins with it.
#[inline(always)]
pub fn after_word<'a>(text: &'a [u8], word: &[u8]) -> Option<&'a [u8]>
    ensures found { IfSome result (λ rest. text.now ≡ word.now ++ rest.now) }
    ensures every { (rest : List ℕ) → text.now ≡ word.now ++ rest → IsSomeAnd result (λ r. r.now ≡ rest) }
{
    let mut rest = text;
    for byte in word {
        let Some(behind) = after_byte(rest, *byte) else {
            return None;
        };
        rest = behind;
    }
    Some(rest)
}
