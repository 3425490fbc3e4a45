//! The pieces of a schedule's text: lines, words, numbers.
ghost use Rattle.std.specs.Prelude.{◌≡◌, ℕ, ◌<◌, ◌≤◌, ◌+◌, ◌==◌, [], ◌∷◌, not, length, MatchOption};
ghost use Rattle.std.specs.Prelude.{Some, None, if◌then◌else◌};
ghost use Rattle.std.specs.List.{position};
ghost use Rattle.std.specs.Str.Lines.{strip_carriage_return};
ghost use Rattle.cb_transcript.specs.Pieces.{lines_of, words_of, is_blank, is_text, is_text_byte};
ghost use Rattle.cb_transcript.specs.Pieces.{number_of, is_number};

use cb_page::MAX_NUMBER;

/// The first line of a text, and the text behind it.
pub fn split_line(text: &[u8]) -> Option<(&[u8], &[u8])>
    ensures { MatchOption result
        (lines_of text.now ≡ [])
        (λ r. (lines_of text.now ≡ r.0.now ∷ lines_of r.1.now)
        × (length r.1.now < length text.now)) }
{
    if text.is_empty() {
        return None;
    }
    let Some(end) = line_feed(text) else {
        return Some(text.split_at(text.len()));
    };
    let (line, rest) = text.split_at(end);
    let (_, after) = rest.split_at(1);
    Some((without_carriage_return(line), after))
}

/// The index of the first line feed.
fn line_feed(text: &[u8]) -> Option<usize>
    ensures { result ≡ position (λ b. b == 10) text.now }
{
    text.iter().position(|byte| *byte == b'\n')
}

fn without_carriage_return(line: &[u8]) -> &[u8]
    ensures { result.now ≡ strip_carriage_return line.now }
{
    match line {
        [front @ .., b'\r'] => front,
        _ => line,
    }
}

/// The first word of a line, and the line behind it.
pub fn split_word(line: &[u8]) -> Option<(&[u8], &[u8])>
    ensures { MatchOption result
        (words_of line.now ≡ [])
        (λ r. words_of line.now ≡ r.0.now ∷ words_of r.1.now) }
{
    let Some(start) = word_start(line) else {
        return None;
    };
    let (_, trimmed) = line.split_at(start);
    let end = word_end(trimmed).unwrap_or(trimmed.len());
    Some(trimmed.split_at(end))
}

/// The index of the first byte that is no blank.
fn word_start(line: &[u8]) -> Option<usize>
    ensures { result ≡ position (λ b. not (is_blank b)) line.now }
{
    line.iter().position(|byte| !is_blank(*byte))
}

/// The index of the first blank.
fn word_end(line: &[u8]) -> Option<usize>
    ensures { result ≡ position is_blank line.now }
{
    line.iter().position(|byte| is_blank(*byte))
}

fn is_blank(byte: u8) -> bool
    ensures { result ≡ is_blank byte }
{
    byte == b' ' || byte == b'\t'
}

/// Whether each byte is a tab or printable ASCII.
#[tactic(auto, unfolding(crate::specs::Pieces::is_text))]
pub fn is_text(line: &[u8]) -> bool
    ensures { result ≡ is_text line.now }
{
    line.iter()
        .all(|byte| *byte == b'\t' || (b' '..=b'~').contains(byte))
}

/// The number that a word spells, if it is one.
pub fn number_of(word: &[u8]) -> Option<u64>
    ensures { result ≡ (if is_number word.now then Some (number_of word.now) else None) }
{
    let mut value = 0;
    for byte in word {
        if !byte.is_ascii_digit() {
            return None;
        }
        if value > MAX_NUMBER / 10 {
            return None;
        }
        value = value * 10 + u64::from(*byte - b'0');
    }
    if value > MAX_NUMBER {
        return None;
    }
    Some(value)
}
