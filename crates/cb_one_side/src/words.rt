//! The words of a line.

use cb_page::{Limits, PageNo};
use hex::FromHexError;
use std::alloc::{AllocError, Global};
use std::io;
use std::str::SplitWhitespace;

/// What a line begins with that opens a list of a client.
pub(crate) const CLIENT: &str = "client ";

/// What a line begins with that opens a list of a server.
pub(crate) const SERVER: &str = "server ";

/// Whether a line opens a list.
pub(crate) fn is_opening(line: &str) -> bool {
    line.starts_with(CLIENT) || line.starts_with(SERVER)
}

/// What a line that isn't of a list is answered.
fn not_a_line() -> io::Error {
    io::Error::from(io::ErrorKind::InvalidData)
}

/// The next word.
pub(crate) fn next_word<'a>(words: &mut SplitWhitespace<'a>) -> io::Result<&'a str> {
    match words.next() {
        Some(word) => Ok(word),
        None => Err(not_a_line()),
    }
}

/// The number that the next word spells, if it spells one.
fn spelled(words: &mut SplitWhitespace<'_>) -> Option<u64> {
    words.next()?.parse::<u64>().ok()
}

/// The number that the next word spells.
pub(crate) fn number(words: &mut SplitWhitespace<'_>) -> io::Result<u64> {
    match spelled(words) {
        Some(number) => Ok(number),
        None => Err(not_a_line()),
    }
}

/// The page that the next word names.
pub(crate) fn page(words: &mut SplitWhitespace<'_>) -> io::Result<PageNo> {
    match number(words)? {
        page @ 0..4096 => Ok(PageNo::new(page as u32)),
        _ => Err(not_a_line()),
    }
}

/// The page that a frame of these bytes names, if it is a Granted and there may be such a page.
pub(crate) fn page_at(bytes: &[u8]) -> Option<PageNo> {
    if *bytes.get(1)? != 0x42 {
        return None;
    }
    let [a, b, c, d] = *bytes.get(16..20)? else {
        return None;
    };
    let number = u32::from_be_bytes([a, b, c, d]);
    if number < 4096 {
        Some(PageNo::new(number))
    } else {
        None
    }
}

/// The bytes that a word of hexadecimal digits spells.
pub(crate) fn bytes(alloc: Global, digits: &str) -> io::Result<Vec<u8>> {
    match hex::decode(alloc, digits) {
        Ok(bytes) => Ok(bytes),
        Err(FromHexError::OutOfMemory) => Err(io::Error::from(AllocError)),
        Err(_) => Err(not_a_line()),
    }
}

/// The number behind the next word, which is its name.
fn named(words: &mut SplitWhitespace<'_>) -> Option<u64> {
    words.next()?;
    spelled(words)
}

/// The limits that the first line of a list names behind its side, if it names any.
fn limits_named(line: &str) -> Option<Limits> {
    let mut words = line.split_whitespace();
    words.next()?;
    let clients = named(&mut words)?;
    let pages = named(&mut words)?;
    let page_size = named(&mut words)?;
    let slots = named(&mut words)?;
    let kin = named(&mut words)?;
    let kout = named(&mut words)?;
    let limits = Limits::new(clients, pages, page_size, slots, kin, kout).ok()?;
    match named(&mut words)? {
        0 => Some(limits),
        _ => Some(limits.keeping()),
    }
}

/// The limits that the first line of a list names.
pub(crate) fn limits(line: &str) -> io::Result<Limits> {
    match limits_named(line) {
        Some(limits) => Ok(limits),
        None => Err(not_a_line()),
    }
}
