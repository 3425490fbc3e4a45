//! What `play` prints.
ghost use Rattle.std.specs.Prelude.{◌≡◌, ◌==◌, [], ◌∷◌, ◌++◌, codes, OnOk};
ghost use Rattle.std.specs.Fmt.{decimal};
ghost use Rattle.std.specs.List.{flat_map, list_all};
ghost use Rattle.std.specs.Io.KnownBytes.{Appends};
ghost use Rattle.cb_console.specs.Output.{bytes_text, last_lines, line, lines_from, lives_line};
ghost use Rattle.cb_console.specs.Output.{lives_lines_from, only_byte, packet_text, restart_text};
ghost use Rattle.cb_console.specs.Output.{word_text};
ghost use Rattle.cb_console.specs.Escaped.{two_digits};

use cb_page::Page;
use cb_transcript::{Answer, AnswerWord, LivesEntry, RestartAnswer, SentPackets, TranscriptEntry};
use std::io;
use std::io::Write;

/// Prints a line for each event: its place from 1, its answer, and each packet sent as
/// `number:kind:client`.
pub fn put_entries<O: Write>(out: &mut O, entries: &[TranscriptEntry]) -> io::Result<()>
    ensures { OnOk result
        (Appends (O.contents out.old) (O.contents out.new) (lines_from 1 entries.now)) }
{
    for (index, entry) in entries.iter().enumerate() {
        put_line(out, index + 1, &entry.answer)?;
    }
    Ok(())
}

/// Prints the same of what happened over several lives of the server. The line of a restart has
/// `restarted`, or `refused` with the refusal's number and name.
pub fn put_lives_entries<O: Write>(out: &mut O, entries: &[LivesEntry]) -> io::Result<()>
    ensures { OnOk result
        (Appends (O.contents out.old) (O.contents out.new) (lives_lines_from 1 entries.now)) }
{
    for (index, entry) in entries.iter().enumerate() {
        put_lives_line(out, index + 1, entry)?;
    }
    Ok(())
}

/// Prints the number of commits and whether they are serial: the last two lines.
pub fn put_verdict<O: Write>(out: &mut O, commits: usize, serial: bool) -> io::Result<()>
    ensures { OnOk result
        (Appends (O.contents out.old) (O.contents out.new) (last_lines commits serial)) }
{
    let serial = if serial { "yes" } else { "no" };
    write!(out, "commits {commits}\nserial: {serial}\n")
}

fn put_line<O: Write>(out: &mut O, place: usize, answer: &Answer) -> io::Result<()>
    ensures { OnOk result
        (Appends (O.contents out.old) (O.contents out.new) (line place answer.now)) }
{
    write!(out, "{place} ")?;
    put_word(out, &answer.word)?;
    put_sent(out, &answer.sent)?;
    out.write_all(b"\n")
}

fn put_lives_line<O: Write>(out: &mut O, place: usize, entry: &LivesEntry) -> io::Result<()>
    ensures { OnOk result
        (Appends (O.contents out.old) (O.contents out.new) (lives_line place entry.now)) }
{
    match entry {
        LivesEntry::Within(told) => put_line(out, place, &told.answer),
        LivesEntry::ServerRestarts(told) => put_restart(out, place, told.answer),
    }
}

fn put_restart<O: Write>(out: &mut O, place: usize, answer: RestartAnswer) -> io::Result<()>
    ensures { OnOk result (Appends (O.contents out.old) (O.contents out.new)
        (decimal place ++ (codes " " ++ (restart_text answer ++ 10 ∷ [])))) }
{
    match answer {
        RestartAnswer::Restarted => writeln!(out, "{place} restarted"),
        RestartAnswer::Refused(refusal) => writeln!(out, "{place} refused {refusal}"),
    }
}

/// Prints the words of an answer, without the packets sent.
pub fn put_word<O: Write>(out: &mut O, word: &AnswerWord) -> io::Result<()>
    ensures { OnOk result (Appends (O.contents out.old) (O.contents out.new) (word_text word.now)) }
{
    match word {
        AnswerWord::Ok => out.write_all(b"ok"),
        AnswerWord::Bytes(page) => put_bytes(out, page),
        AnswerWord::Asked => out.write_all(b"asked"),
        AnswerWord::Permitted => out.write_all(b"permitted"),
        AnswerWord::Nothing => out.write_all(b"none"),
        AnswerWord::Flushed(number) => {
            let number = number.get();
            write!(out, "flushed {number}")
        }
        AnswerWord::Taken => out.write_all(b"taken"),
        AnswerWord::NoPacket => out.write_all(b"nopacket"),
        AnswerWord::Refused(fault) => write!(out, "refused {fault}"),
        AnswerWord::ServerExhausted => out.write_all(b"refused 1 Exhausted"),
        AnswerWord::NoClient => out.write_all(b"noclient"),
    }
}

fn put_sent<O: Write>(out: &mut O, sent: &SentPackets) -> io::Result<()>
    ensures { OnOk result
        (Appends (O.contents out.old) (O.contents out.new) (flat_map packet_text sent.now)) }
{
    for packet in sent.as_slice() {
        let number = packet.number;
        let kind = packet.kind;
        let client = packet.client.get();
        write!(out, " {number}:{kind}:{client}")?;
    }
    Ok(())
}

/// The byte that all of these are, if they are all the same.
#[tactic(auto, unfolding(crate::specs::Output::only_byte))]
pub fn only_byte(bytes: &[u8]) -> Option<u8>
    ensures { result ≡ only_byte bytes.now }
{
    match bytes {
        [first, rest @ ..] if are_all(rest, *first) => Some(*first),
        _ => None,
    }
}

/// Whether each byte is this one.
fn are_all(bytes: &[u8], byte: u8) -> bool
    ensures { result ≡ list_all (λ other. other == byte) bytes.now }
{
    bytes.iter().all(|other| *other == byte)
}

/// A page's bytes as two hexadecimal digits each; of a page of one byte throughout, that byte
/// alone.
fn put_bytes<O: Write>(out: &mut O, page: &Page) -> io::Result<()>
    ensures { OnOk result
        (Appends (O.contents out.old) (O.contents out.new) (bytes_text page.now)) }
{
    let bytes = page.as_slice();
    match only_byte(bytes) {
        Some(byte) => {
            out.write_all(b"bytes all ")?;
            put_byte(out, byte)
        }
        None => {
            out.write_all(b"bytes ")?;
            put_each_byte(out, bytes)
        }
    }
}

fn put_each_byte<O: Write>(out: &mut O, bytes: &[u8]) -> io::Result<()>
    ensures { OnOk result
        (Appends (O.contents out.old) (O.contents out.new) (flat_map two_digits bytes.now)) }
{
    for byte in bytes {
        put_byte(out, *byte)?;
    }
    Ok(())
}

#[tactic(auto, using(std::proofs::lemmas::Fmt::hex_byte), unfolding(crate::specs::Escaped::two_digits))]
fn put_byte<O: Write>(out: &mut O, byte: u8) -> io::Result<()>
    ensures { OnOk result (Appends (O.contents out.old) (O.contents out.new) (two_digits byte)) }
{
    write!(out, "{byte:02x}")
}
