//! Reads a file whole.
ghost use Rattle.std.specs.Prelude.{◌≡◌, ◌≢◌, ◌+◌, ◌^◌, ◌<◌, ◌≤◌, ◌⊎◌, length, IfOk, IfErr, IfSome, IsErrOf, OnOk};
ghost use Rattle.std.specs.Io.KnownBytes.{IsAtEnd, Consumes};
ghost use Rattle.dds_answers.specs.Reading.{IsReadingFault, most_bytes};

use crate::counted::{Counted, MAX_INTERRUPTED};
use crate::fault::ToolFault;
use std::alloc::Global;
use std::io::{ErrorKind, Read};

/// The most bytes that a file may have.
pub const MAX_FILE: usize = 1_048_576;

const CHUNK: usize = 4_096;

/// All bytes that the reader has left, at most `MAX_FILE`, as `read_up_to` reads them.
pub fn read_all<R: Read>(alloc: Global, reader: &mut Counted<R>) -> Result<Vec<u8>, ToolFault>
    requires failed { reader.old.failed < 2 ^ 63 }
    requires interrupted { reader.old.interrupted < 2 ^ 63 }
    ensures whole { IfOk result (λ bytes. IfSome (R.remaining reader.old.reader) (λ left. bytes.items ≡ left)) }
    ensures end { OnOk result (IsAtEnd (R.remaining reader.new.reader)) }
    ensures bounded { IfOk result (λ bytes. length bytes.items ≤ most_bytes) }
    ensures faults { IfErr result IsReadingFault }
    ensures too_large { IsErrOf result ToolFault.TooLarge
        → IfSome (R.remaining reader.old.reader) (λ left. most_bytes < length left) }
    ensures read { IsErrOf result ToolFault.Read
        → ((reader.new.failed ≡ reader.old.failed + 1) × (reader.new.interrupted ≤ reader.old.interrupted + 1000))
        ⊎ ((reader.new.failed ≡ reader.old.failed) × (reader.new.interrupted ≡ reader.old.interrupted + 1001)) }
    ensures borne { OnOk result ((reader.new.failed ≡ reader.old.failed)
        × (reader.new.interrupted ≤ reader.old.interrupted + 1000)) }
    ensures borne_err { IfErr result
        (λ e. e ≢ ToolFault.Read
        → (reader.new.failed ≡ reader.old.failed) × (reader.new.interrupted ≤ reader.old.interrupted + 1000)) }
{
    read_up_to(alloc, reader, MAX_FILE)
}

/// All bytes that the reader has left, at most `most`. More are `TooLarge`. A failed read is `Read`, and so is the
/// 1,001st interrupted one: no read is made after either. `NoMemory` comes where there is no room for the bytes. After
/// an error the reader stands where its reads left it.
pub fn read_up_to<R: Read>(
    alloc: Global,
    reader: &mut Counted<R>,
    most: usize,
) -> Result<Vec<u8>, ToolFault>
    requires few { most < 2 ^ 63 }
    requires failed { reader.old.failed < 2 ^ 63 }
    requires interrupted { reader.old.interrupted < 2 ^ 63 }
    ensures whole { IfOk result (λ bytes. IfSome (R.remaining reader.old.reader) (λ left. bytes.items ≡ left)) }
    ensures end { OnOk result (IsAtEnd (R.remaining reader.new.reader)) }
    ensures bounded { IfOk result (λ bytes. length bytes.items ≤ most) }
    ensures faults { IfErr result IsReadingFault }
    ensures too_large { IsErrOf result ToolFault.TooLarge
        → IfSome (R.remaining reader.old.reader) (λ left. most < length left) }
    ensures read { IsErrOf result ToolFault.Read
        → ((reader.new.failed ≡ reader.old.failed + 1) × (reader.new.interrupted ≤ reader.old.interrupted + 1000))
        ⊎ ((reader.new.failed ≡ reader.old.failed) × (reader.new.interrupted ≡ reader.old.interrupted + 1001)) }
    ensures borne { OnOk result ((reader.new.failed ≡ reader.old.failed)
        × (reader.new.interrupted ≤ reader.old.interrupted + 1000)) }
    ensures borne_err { IfErr result
        (λ e. e ≢ ToolFault.Read
        → (reader.new.failed ≡ reader.old.failed) × (reader.new.interrupted ≤ reader.old.interrupted + 1000)) }
{
    let mut bytes = Vec::new(alloc);
    let mut chunk = [0u8; CHUNK];
    let mut interrupted = 0u64;
    while interrupted <= MAX_INTERRUPTED && bytes.len() <= most {
        match reader.read(&mut chunk) {
            Ok(0) => return Ok(bytes),
            Ok(count) => {
                if bytes.extend_from_slice(&chunk[..count]).is_err() {
                    return Err(ToolFault::NoMemory);
                }
            }
            Err(error) => {
                if error.kind() != ErrorKind::Interrupted {
                    return Err(ToolFault::Read);
                }
                interrupted += 1;
            }
        }
    }
    if bytes.len() > most {
        return Err(ToolFault::TooLarge);
    }
    Err(ToolFault::Read)
}
