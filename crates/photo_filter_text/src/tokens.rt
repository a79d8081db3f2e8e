//! Cutting a text into tokens.
ghost use Rattle.std.specs.Prelude.{◌≡◌, ◌+◌, ◌<◌, ◌≤◌, true, [], ◌∷◌, length, MatchOption, IfSome, min, max};
ghost use Rattle.std.specs.List.{position_or_len, position};
ghost use Rattle.photo_filter_text.specs.Tokens.{tokens_of};
ghost use Rattle.photo_filter_text.specs.Limits.{max_tokens};
ghost use Rattle.photo_filter_text.specs.Cuts.{ends_token, starts_token};

/// The most tokens of a filter.
pub(crate) const MAX_TOKENS: usize = 256;

/// The first token of a text and the text after it; `None` if there is no token.
pub(crate) fn next_token(text: &str) -> Option<(&str, &str)>
    ensures token { MatchOption result (tokens_of text.now ≡ []) (λ next. tokens_of text.now ≡ next.0.now ∷ tokens_of next.1.now) }
    ensures shorter { IfSome result (λ next. length next.1.now < length text.now) }
{
    let text = without_spaces(text);
    if text.is_empty() {
        return None;
    }
    Some(text.split_at(token_len(text)))
}

fn without_spaces(text: &str) -> &str
    ensures tokens { tokens_of result.now ≡ tokens_of text.now }
    ensures filled { starts_token result.now ≡ true }
    ensures shorter { length result.now ≤ length text.now }
{
    let mut rest = text;
    while let Some(more) = rest.strip_prefix(' ') {
        rest = more;
    }
    rest
}

// The length in bytes of the token at the text's front: one bracket, or all bytes before the next space or bracket.
fn token_len(text: &str) -> usize
    ensures { result ≡ max 1 (position_or_len ends_token text.now) }
{
    cut_place(text).unwrap_or(text.len()).max(1)
}

fn cut_place(text: &str) -> Option<usize>
    ensures { result ≡ position ends_token text.now }
{
    text.bytes().position(|b| ends_token(b))
}

fn ends_token(b: u8) -> bool
    ensures { result ≡ ends_token b }
{
    matches!(b, b' ' | b'(' | b')')
}

/// The number of a text's tokens; 257 if there are more than 256.
pub(crate) fn count_tokens(text: &str) -> usize
    ensures { result ≡ min (length (tokens_of text.now)) (max_tokens + 1) }
{
    let mut rest = text;
    for count in 0..=MAX_TOKENS {
        let Some((_, more)) = next_token(rest) else {
            return count;
        };
        rest = more;
    }
    MAX_TOKENS + 1
}
