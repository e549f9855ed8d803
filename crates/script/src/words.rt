//! The words of a line: what blanks part, up to the first `#`.
ghost use Rattle.std.specs.Prelude.{◌≡◌, [], ◌∷◌, MatchOption};
ghost use Rattle.script.specs.Words.{blank, solid, words as words_of};

/// Whether a byte parts words.
fn is_blank(byte: u8) -> bool
    ensures { result ≡ blank byte }
{
    matches!(byte, b' ' | b'\t' | b'\r' | b'\n')
}

/// Whether a byte belongs to a word.
fn is_solid(byte: u8) -> bool
    ensures { result ≡ solid byte }
{
    !is_blank(byte) && byte != b'#'
}

/// The first word of a line, and what follows it; none where the line has no word.
pub(crate) fn word(line: &[u8]) -> Option<(&[u8], &[u8])>
    ensures { MatchOption result (words_of line.now ≡ []) (λ x. words_of line.now ≡ x.0.now ∷ words_of x.1.now) }
{
    let start = line.iter().position(|byte| !is_blank(*byte))?;
    let rest = &line[start..];
    let length = rest
        .iter()
        .position(|byte| !is_solid(*byte))
        .unwrap_or(rest.len());
    if length == 0 {
        return None;
    }
    Some(rest.split_at(length))
}
