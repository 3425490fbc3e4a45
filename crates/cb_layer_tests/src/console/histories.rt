//! Histories, small and great, with the first operation that isn't legal.

use cb_commit::Store;
use cb_page::{ClientNo, Incarnation, Limits, PageNo, TxnNo};
use cb_test_parts::stores::page_of;
use cb_transcript::{
    Answer, AnswerWord, Call, Event, TransactionName, Transcript, TranscriptEntry, Verdict,
    check_serial,
};
use std::alloc::{AllocError, Global};
use std::test::Fail;

/// A call of the client of the transaction of that number, and the word that it was answered.
fn tell(
    alloc: Global,
    entries: &mut Vec<TranscriptEntry>,
    number: u16,
    call: Call,
    word: AnswerWord,
) -> Result<(), AllocError> {
    let client = ClientNo::new(number % 32);
    let event = Event::Call { client, call };
    let answer = Answer::silent(alloc, word);
    entries.push(TranscriptEntry { event, answer })?;
    Ok(())
}

/// The transaction of that number begins, and writes so many of its sixteen pages.
fn tell_writes(
    alloc: Global,
    entries: &mut Vec<TranscriptEntry>,
    number: u16,
    writes: u32,
) -> Result<(), AllocError> {
    tell(alloc, entries, number, Call::Begin, AnswerWord::Ok)?;
    for offset in 0..writes.min(16) {
        let page = PageNo::new((u32::from(number) * 16 + offset) % 4096);
        let bytes = page_of(alloc, 7, 16)?;
        let call = Call::Write { page, bytes };
        tell(alloc, entries, number, call, AnswerWord::Ok)?;
    }
    Ok(())
}

/// So many transactions of the clients in turn, of so many writes each, behind which one more reads
/// the first page, which one of them wrote, as it was.
fn entries_of(
    alloc: Global,
    (count, writes): (u16, u32),
) -> Result<Vec<TranscriptEntry>, AllocError> {
    let mut entries = Vec::new(alloc);
    for number in 0..count {
        tell_writes(alloc, &mut entries, number, writes)?;
    }
    let page = PageNo::new(0);
    let old = AnswerWord::Bytes(page_of(alloc, 0, 16)?);
    tell(alloc, &mut entries, count, Call::Begin, AnswerWord::Ok)?;
    tell(alloc, &mut entries, count, Call::Read { page }, old)?;
    Ok(entries)
}

/// The name of the transaction of that number.
fn name_of(number: u16) -> TransactionName {
    TransactionName {
        client: ClientNo::new(number % 32),
        incarnation: Incarnation::new(1),
        txn: TxnNo::new(u64::from(number / 32) + 1),
    }
}

/// The names of all of them, that of the last one first or last.
fn names_of(alloc: Global, count: u16, first: bool) -> Result<Vec<TransactionName>, AllocError> {
    let mut names = Vec::new(alloc);
    if first {
        names.push(name_of(count))?;
    }
    for number in 0..count {
        names.push(name_of(number))?;
    }
    if !first {
        names.push(name_of(count))?;
    }
    Ok(names)
}

/// The verdict where they committed in that order.
fn verdict_of(
    alloc: Global,
    limits: &Limits,
    told: (u16, u32),
    first: bool,
) -> Result<Verdict, AllocError> {
    let names = names_of(alloc, told.0, first)?;
    let entries = entries_of(alloc, told)?;
    let store = Store::zeros(alloc, limits)?;
    check_serial(alloc, &Transcript::from_parts(store, entries, names))
}

/// Whether what was read as it was before is legal if it committed before the others, and the first
/// that isn't legal if it committed behind them.
fn has_its_place(alloc: Global, limits: &Limits, told: (u16, u32)) -> Result<bool, AllocError> {
    let not = Verdict::Not {
        commit: u64::from(told.0) + 1,
        op: 1,
    };
    Ok(
        verdict_of(alloc, limits, told, true)? == Verdict::Serial
            && verdict_of(alloc, limits, told, false)? == not,
    )
}

/// After one transaction of one write.
#[test]
fn not_serial(rt: HostRuntime) -> Result<(), Fail> {
    let limits = Limits::new(2, 8, 16, 4, 1, 2)?;
    assert!(rt; has_its_place(rt.alloc(), &limits, (1, 1))?);
    Ok(())
}

/// After many at the greatest limits, of sixteen writes each.
#[test]
fn not_serial_behind_many(rt: HostRuntime) -> Result<(), Fail> {
    let limits = Limits::new(32, 4096, 16, 1024, 1023, 4096)?;
    assert!(rt; has_its_place(rt.alloc(), &limits, (2047, 16))?);
    Ok(())
}
