// The words of a line: what stands between its blanks.
// A word is lent from the line, and nothing is copied.
ghost use Rattle.std.specs.Prelude.{◌≡◌, ◌<◌, ◌≤◌, ◌==◌, [], ◌∷◌, length, IfSome, MatchOption};
ghost use Rattle.std.specs.List.{prefix_len, position};
ghost use Rattle.fields.specs.Words.{in_word, words};

pub const BLANK: u8 = b' ';

// Where a character stands first.
pub fn first_at(text: &[u8], mark: u8) -> Option<usize>
    ensures value { result ≡ position (λ c. c == mark) text.now }
    ensures bound { IfSome result (λ i. i < length text.now) }
{
    text.iter().position(|c| *c == mark)
}

// How many characters stand before the first blank.
fn word_length(text: &[u8]) -> usize
    ensures value { result ≡ prefix_len in_word text.now }
    ensures bound { result ≤ length text.now }
{
    first_at(text, BLANK).unwrap_or(text.len())
}

// Where the first word begins.
fn word_start(text: &[u8]) -> Option<usize>
    ensures value { result ≡ position in_word text.now }
    ensures bound { IfSome result (λ i. i < length text.now) }
{
    text.iter().position(|c| *c != BLANK)
}

// The first word, and what follows it.
pub fn first_word(text: &[u8]) -> Option<(&[u8], &[u8])>
    ensures { MatchOption result (words text.now ≡ []) (λ p. words text.now ≡ p.0.now ∷ words p.1.now) }
{
    let (_, rest) = text.split_at(word_start(text)?);
    Some(rest.split_at(word_length(rest)))
}
