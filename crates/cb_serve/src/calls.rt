//! Calls of a service's input and output, each made again if a signal interrupted it.
ghost use Rattle.std.specs.Prelude.{◌≡◌, ◌≤◌, ◌<◌, ◌+◌, [], length, take, true, false, IfErr, IfOk};
ghost use Rattle.std.specs.Prelude.{IfSome};
ghost use Rattle.std.specs.Prelude.{OnErr, OnOk};
ghost use Rattle.std.specs.IoError.{error_kind};
ghost use Rattle.std.specs.Io.KnownBytes.{Appends, Consumes};
ghost use Rattle.cb_serve.specs.Endings.{input_line, input_status};
ghost use Rattle.cb_serve.specs.Calls.{IsFinal, IsPassing, Reads, calls_of, lacks_memory};

use std::io;
use std::io::{ErrorKind, Read, Write};

/// Says that a call of an input or output was refused, and by which error. Only the calls of this
/// module make one, and nobody can copy it. A call that a signal interrupted is made again, and
/// takes the refusal.
#[derive(Debug, Drop)]
pub struct RefusedCall {
    error: io::Error,
    /// How many calls in a row were refused, this one among them.
    calls: u64,
}

impl RefusedCall {
    /// The error of the call.
    pub fn error(&self) -> io::Error
        ensures { result ≡ self.now.error }
    {
        self.error
    }

    /// Whether the error is want of memory.
    pub fn lacks_memory(&self) -> bool
        ensures { result ≡ lacks_memory (error_kind self.now.error) }
    {
        match self.error.kind() {
            ErrorKind::OutOfMemory => true,
            _ => false,
        }
    }

    /// What is said of an input of which this call was a read.
    pub(crate) fn input_line(&self) -> &str
        ensures { result.now ≡ input_line self.now }
    {
        if self.lacks_memory() {
            "memory"
        } else {
            "input: cannot read"
        }
    }

    /// The program's status at the end of such an input.
    pub(crate) fn input_status(&self) -> u8
        ensures { result ≡ input_status self.now }
    {
        if self.lacks_memory() { 4 } else { 3 }
    }

    /// Whether the call isn't made again: no signal interrupted it, or too many did.
    fn is_final(&self) -> bool
        ensures ends { result ≡ true → IsFinal self.now }
        ensures goes_on { result ≡ false → IsPassing self.now }
    {
        if self.error.kind() != ErrorKind::Interrupted {
            return true;
        }
        self.calls == u64::MAX
    }
}

/// The refusal of a call behind an interrupted one, if there was one.
fn behind(before: Option<RefusedCall>, error: io::Error) -> RefusedCall
    requires { IfSome before IsPassing }
    ensures error { result.error ≡ error }
    ensures calls { result.calls ≡ calls_of before + 1 }
{
    let calls = match before {
        Some(RefusedCall { error: _, calls }) => calls + 1,
        None => 1,
    };
    RefusedCall { error, calls }
}

/// One read into the room: how many bytes came, none if the input has ended.
fn read_once<R: Read>(
    input: &mut R,
    room: &mut [u8],
    before: Option<RefusedCall>,
) -> Result<usize, RefusedCall>
    requires room { 0 < length room.old }
    requires passing { IfSome before IsPassing }
    ensures ok { IfOk result (λ count. Reads (R.remaining input.old) (R.remaining input.new)
        count room.new) }
    ensures err { OnErr result (Consumes (R.remaining input.old) (R.remaining input.new)
        (take 0 room.new)) }
    ensures calls { IfErr result (λ refused. refused.calls ≡ calls_of before + 1) }
{
    match input.read(room) {
        Ok(count) => Ok(count),
        Err(error) => Err(behind(before, error)),
    }
}

/// Reads what is there: how many bytes came, none if the input has ended.
pub(crate) fn read_some<R: Read>(input: &mut R, room: &mut [u8]) -> Result<usize, RefusedCall>
    requires { 0 < length room.old }
    ensures ok { IfOk result (λ count. Reads (R.remaining input.old) (R.remaining input.new)
        count room.new) }
    ensures err { OnErr result (Consumes (R.remaining input.old) (R.remaining input.new)
        (take 0 room.new)) }
    ensures last { IfErr result IsFinal }
{
    let mut before = None;
    loop {
        match read_once(input, room, before) {
            Ok(count) => return Ok(count),
            Err(refused) => {
                if refused.is_final() {
                    return Err(refused);
                }
                before = Some(refused);
            }
        }
    }
}

/// One write: how many bytes went out.
fn write_once<W: Write>(
    output: &mut W,
    bytes: &[u8],
    before: Option<RefusedCall>,
) -> Result<usize, RefusedCall>
    requires { IfSome before IsPassing }
    ensures ok { IfOk result (λ count. (0 < count) × (count ≤ length bytes.now)
        × Appends (W.contents output.old) (W.contents output.new) (take count bytes.now)) }
    ensures err { OnErr result (Appends (W.contents output.old) (W.contents output.new)
        (take 0 bytes.now)) }
    ensures calls { IfErr result (λ refused. refused.calls ≡ calls_of before + 1) }
{
    match output.write(bytes) {
        Ok(0) => Err(behind(before, io::Error::from(ErrorKind::WriteZero))),
        Ok(count) => Ok(count),
        Err(error) => Err(behind(before, error)),
    }
}

/// Puts some of the bytes out: how many.
pub(crate) fn write_some<W: Write>(output: &mut W, bytes: &[u8]) -> Result<usize, RefusedCall>
    ensures ok { IfOk result (λ count. (0 < count) × (count ≤ length bytes.now)
        × Appends (W.contents output.old) (W.contents output.new) (take count bytes.now)) }
    ensures err { OnErr result (Appends (W.contents output.old) (W.contents output.new)
        (take 0 bytes.now)) }
    ensures last { IfErr result IsFinal }
{
    let mut before = None;
    loop {
        match write_once(output, bytes, before) {
            Ok(count) => return Ok(count),
            Err(refused) => {
                if refused.is_final() {
                    return Err(refused);
                }
                before = Some(refused);
            }
        }
    }
}

/// One flush.
fn flush_once<W: Write>(output: &mut W, before: Option<RefusedCall>) -> Result<(), RefusedCall>
    requires { IfSome before IsPassing }
    ensures keeps { Appends (W.contents output.old) (W.contents output.new) [] }
    ensures calls { IfErr result (λ refused. refused.calls ≡ calls_of before + 1) }
{
    match output.flush() {
        Ok(()) => Ok(()),
        Err(error) => Err(behind(before, error)),
    }
}

/// Leaves none of the bytes in a buffer of the writer's.
pub(crate) fn flush<W: Write>(output: &mut W) -> Result<(), RefusedCall>
    ensures keeps { Appends (W.contents output.old) (W.contents output.new) [] }
    ensures last { IfErr result IsFinal }
{
    let mut before = None;
    loop {
        match flush_once(output, before) {
            Ok(()) => return Ok(()),
            Err(refused) => {
                if refused.is_final() {
                    return Err(refused);
                }
                before = Some(refused);
            }
        }
    }
}
