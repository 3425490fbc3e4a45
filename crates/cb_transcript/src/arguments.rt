//! The words behind a command, and the numbers that they spell.
ghost use Rattle.std.specs.Prelude.{◌≡◌, ◌==◌, true, false, [], ◌∷◌, length, map, slice_index};
ghost use Rattle.std.specs.Prelude.{nat_lt, IfOk, IfErr, OnOk};
ghost use Rattle.cb_transcript.specs.Commands.{Byte, Client, Page};
ghost use Rattle.cb_transcript.specs.LivesText.{life_arguments};
ghost use Rattle.cb_transcript.specs.ScheduleText.{Gives, argument_causes};
ghost use Rattle.cb_page.specs.Bounds.{Bounds};
ghost use Rattle.cb_page.specs.Faults.{first_fault};
ghost use Rattle.cb_page.specs.Numbers as numbers;
ghost use Rattle.cb_transcript.specs.Pieces.{is_number, number_of, words_of};

use crate::pieces::{number_of, split_word};
use crate::text::ScheduleFault;
use cb_page::{ClientNo, Incarnation, Limits, PageNo};

/// That there is no word.
pub(crate) fn no_words(line: u64, words: &[u8]) -> Result<(), ScheduleFault>
    ensures ok { OnOk result (words_of words.now ≡ []) }
    ensures fault { IfErr result (λ e. (e ≡ ScheduleFault.Count line)
        × ((length (words_of words.now) == 0) ≡ false)) }
{
    if split_word(words).is_some() {
        return Err(ScheduleFault::Count { line });
    }
    Ok(())
}

/// The one word of these.
pub(crate) fn one_word(line: u64, words: &[u8]) -> Result<&[u8], ScheduleFault>
    ensures ok { IfOk result (λ word. words_of words.now ≡ word.now ∷ []) }
    ensures fault { IfErr result (λ e. (e ≡ ScheduleFault.Count line)
        × ((length (words_of words.now) == 1) ≡ false)) }
{
    let Some((word, rest)) = split_word(words) else {
        return Err(ScheduleFault::Count { line });
    };
    no_words(line, rest)?;
    Ok(word)
}

/// The two words of these.
fn two_words(line: u64, words: &[u8]) -> Result<(&[u8], &[u8]), ScheduleFault>
    ensures ok { IfOk result (λ both. words_of words.now ≡ both.0.now ∷ both.1.now ∷ []) }
    ensures fault { IfErr result (λ e. (e ≡ ScheduleFault.Count line)
        × ((length (words_of words.now) == 2) ≡ false)) }
{
    let Some((first, rest)) = split_word(words) else {
        return Err(ScheduleFault::Count { line });
    };
    Ok((first, one_word(line, rest)?))
}

/// The three words of these.
fn three_words(line: u64, words: &[u8]) -> Result<(&[u8], &[u8], &[u8]), ScheduleFault>
    ensures ok { IfOk result (λ all.
        words_of words.now ≡ all.0.now ∷ all.1.now ∷ all.2.now ∷ []) }
    ensures fault { IfErr result (λ e. (e ≡ ScheduleFault.Count line)
        × ((length (words_of words.now) == 3) ≡ false)) }
{
    let Some((first, rest)) = split_word(words) else {
        return Err(ScheduleFault::Count { line });
    };
    let (second, third) = two_words(line, rest)?;
    Ok((first, second, third))
}

/// The number that a word spells.
pub(crate) fn spelled_number(line: u64, word: &[u8]) -> Result<u64, ScheduleFault>
    ensures ok { IfOk result (λ n. (is_number word.now ≡ true) × (n ≡ number_of word.now)) }
    ensures fault { IfErr result (λ e. (e ≡ ScheduleFault.Number line)
        × (is_number word.now ≡ false)) }
{
    number_of(word).ok_or(ScheduleFault::Number { line })
}

/// The client of this number.
fn client_of(limits: &Limits, line: u64, number: u64) -> Result<ClientNo, ScheduleFault>
    ensures ok { IfOk result (λ client. (client ≡ number)
        × (nat_lt number limits.now.clients ≡ true)) }
    ensures fault { IfErr result (λ e. (e ≡ ScheduleFault.Range line)
        × (nat_lt number limits.now.clients ≡ false)) }
{
    ClientNo::in_store(limits, number).ok_or(ScheduleFault::Range { line })
}

/// The page of this number.
fn page_of(limits: &Limits, line: u64, number: u64) -> Result<PageNo, ScheduleFault>
    ensures ok { IfOk result (λ page. (page ≡ number) × (nat_lt number limits.now.pages ≡ true)) }
    ensures fault { IfErr result (λ e. (e ≡ ScheduleFault.Range line)
        × (nat_lt number limits.now.pages ≡ false)) }
{
    PageNo::in_store(limits, number).ok_or(ScheduleFault::Range { line })
}

/// The byte of this number.
fn byte_of(line: u64, number: u64) -> Result<u8, ScheduleFault>
    ensures ok { IfOk result (λ byte. (byte ≡ number) × (nat_lt number 256 ≡ true)) }
    ensures fault { IfErr result (λ e. (e ≡ ScheduleFault.Range line)
        × (nat_lt number 256 ≡ false)) }
{
    u8::try_from(number)
        .ok()
        .ok_or(ScheduleFault::Range { line })
}

/// The floor of this number.
fn floor_of(line: u64, number: u64) -> Result<Incarnation, ScheduleFault>
    ensures ok { IfOk result (λ floor. (floor ≡ number) × (numbers.is_number number ≡ true)) }
    ensures fault { IfErr result (λ e. (e ≡ ScheduleFault.Range line)
        × (numbers.is_number number ≡ false)) }
{
    Incarnation::checked(number).ok_or(ScheduleFault::Range { line })
}

/// The one client behind a command.
pub(crate) fn client_argument(
    limits: &Limits,
    line: u64,
    words: &[u8],
) -> Result<ClientNo, ScheduleFault>
    ensures { Gives
        (first_fault (argument_causes limits.now line (Client ∷ []) (words_of words.now)))
        (slice_index (map number_of (words_of words.now)) 0)
        result }
{
    let number = spelled_number(line, one_word(line, words)?)?;
    client_of(limits, line, number)
}

/// The client and the page behind a command.
pub(crate) fn client_and_page(
    limits: &Limits,
    line: u64,
    words: &[u8],
) -> Result<(ClientNo, PageNo), ScheduleFault>
    ensures { Gives
        (first_fault (argument_causes limits.now line (Client ∷ Page ∷ []) (words_of words.now))) (
          slice_index (map number_of (words_of words.now)) 0,
          slice_index (map number_of (words_of words.now)) 1,
        )
        result }
{
    let (first, second) = two_words(line, words)?;
    let client = spelled_number(line, first)?;
    let page = spelled_number(line, second)?;
    Ok((
        client_of(limits, line, client)?,
        page_of(limits, line, page)?,
    ))
}

/// The client, the page and the byte behind a command.
pub(crate) fn client_page_and_byte(
    limits: &Limits,
    line: u64,
    words: &[u8],
) -> Result<(ClientNo, PageNo, u8), ScheduleFault>
    ensures { Gives
        (first_fault
        (argument_causes limits.now line (Client ∷ Page ∷ Byte ∷ []) (words_of words.now))) (
          slice_index (map number_of (words_of words.now)) 0,
          slice_index (map number_of (words_of words.now)) 1,
          slice_index (map number_of (words_of words.now)) 2,
        )
        result }
{
    let (first, second, third) = three_words(line, words)?;
    let client = spelled_number(line, first)?;
    let page = spelled_number(line, second)?;
    let byte = spelled_number(line, third)?;
    Ok((
        client_of(limits, line, client)?,
        page_of(limits, line, page)?,
        byte_of(line, byte)?,
    ))
}

/// The floor and the number of commits behind `life`.
pub(crate) fn floor_and_number(line: u64, words: &[u8]) -> Result<(Incarnation, u64), ScheduleFault>
    ensures { (limits : Bounds) → Gives
        (first_fault (argument_causes limits line life_arguments (words_of words.now))) (
          slice_index (map number_of (words_of words.now)) 0,
          slice_index (map number_of (words_of words.now)) 1,
        )
        result }
{
    let (first, number) = two_words(line, words)?;
    let floor = spelled_number(line, first)?;
    let number = spelled_number(line, number)?;
    Ok((floor_of(line, floor)?, number))
}
