//! The lines of a text and the words of a line.

ghost use Rattle.std.specs.Prelude.{◌≡◌, ◌<◌, [], ◌∷◌, length, position, ◌==◌, option_map, IfSome, MatchOption};
ghost use Rattle.std.specs.List.{position_or_len};
ghost use Rattle.std.specs.Str.Lines.{strip_carriage_return};
ghost use Rattle.edit_lang.specs.Lines.{lines_of, words_of, is_blank, cut_at, BeginsWith};

/// What stands before the first such byte and what stands after it, or `None` where there is none.
#[tactic(auto, unfolding(crate::specs::Lines::cut_at))]
pub(crate) fn cut_at(bytes: &[u8], mark: u8) -> Option<(&[u8], &[u8])>
    ensures parts { option_map (λ parts. (parts.0.now, parts.1.now)) result ≡ cut_at mark bytes.now }
    ensures shorter { IfSome result (λ parts. length parts.1.now < length bytes.now) }
{
    let i = find(bytes, mark)?;
    Some((&bytes[..i], &bytes[i + 1..]))
}

/// Where the first such byte stands, or `None` where there is none.
fn find(bytes: &[u8], mark: u8) -> Option<usize>
    ensures place { result ≡ position (λ b. b == mark) bytes.now }
    ensures inside { IfSome result (λ i. i < length bytes.now) }
{
    bytes.iter().position(|byte| *byte == mark)
}

/// The first line, without its end, and the text after it.
pub(crate) fn first_line(text: &[u8]) -> (&[u8], &[u8])
    requires { 0 < length text.now }
    ensures lines { lines_of text.now ≡ result.0.now ∷ lines_of result.1.now }
    ensures shorter { length result.1.now < length text.now }
{
    match cut_at(text, b'\n') {
        Some((line, rest)) => (without_return(line), rest),
        None => (without_return(text), &[]),
    }
}

/// A line without one CR at its end.
fn without_return(line: &[u8]) -> &[u8]
    ensures { result.now ≡ strip_carriage_return line.now }
{
    line.strip_suffix(b"\r").unwrap_or(line)
}

/// The first word of a line and what stands after it, or `None` where the line has no word.
pub(crate) fn first_word(line: &[u8]) -> Option<(&[u8], &[u8])>
    ensures { MatchOption result (words_of line.now ≡ []) (λ found. BeginsWith line.now found.0.now found.1.now) }
{
    let rest = without_blanks(line);
    if rest.is_empty() {
        return None;
    }
    Some(rest.split_at(word_len(rest)))
}

/// What stands after the blanks and TABs at the front.
fn without_blanks(line: &[u8]) -> &[u8]
    ensures words { words_of result.now ≡ words_of line.now }
    ensures front { 0 < length result.now → 0 < position_or_len is_blank result.now }
{
    for (i, byte) in line.iter().enumerate() {
        if !is_blank(*byte) {
            return &line[i..];
        }
    }
    &[]
}

/// How many bytes stand before the first blank or TAB.
fn word_len(line: &[u8]) -> usize
    ensures { result ≡ position_or_len is_blank line.now }
{
    for (i, byte) in line.iter().enumerate() {
        if is_blank(*byte) {
            return i;
        }
    }
    line.len()
}

/// Whether the byte is a blank or a TAB.
fn is_blank(byte: u8) -> bool
    ensures { result ≡ is_blank byte }
{
    byte == b' ' || byte == b'\t'
}
