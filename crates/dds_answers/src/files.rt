//! The files of a command, each of which is read whole before any is parsed.
ghost use Rattle.std.specs.Prelude.{◌≡◌, ℕ, List, [], ◌∷◌, ◌≤◌, ◌<◌, ◌^◌, ◌⊎◌, Some, IfOk, IfErr, IfSome};
ghost use Rattle.std.specs.Prelude.{IsErrOf, OnOk, length};
ghost use Rattle.dds_answers.specs.Causes.{IsFileFault};
ghost use Rattle.dds_answers.specs.Opened.{Opens, OpensAll};
ghost use Rattle.dds_answers.specs.Reading.{IsReadingFault, most_bytes};

use crate::counted::Counted;
use crate::fault::ToolFault;
use crate::reading::{MAX_FILE, read_up_to};
use crate::sources::Sources;
use std::alloc::Global;

/// The bytes of the file at a path, at most `MAX_FILE`, as `read_file_up_to` reads them.
pub fn read_file<S: Sources>(alloc: Global, files: &mut S, path: &str) -> Result<Vec<u8>, ToolFault>
    ensures bytes { IfOk result
        (λ bytes. IfSome (S.holds files.old path.now) (λ xs. (bytes.items ≡ xs) × (length xs ≤ most_bytes))) }
    ensures faults { IfErr result IsReadingFault }
    ensures causes { IfErr result (IsFileFault (S.has_failed files.new)) }
    ensures too_large { IsErrOf result ToolFault.TooLarge
        → IfSome (S.holds files.old path.now) (λ xs. most_bytes < length xs) }
    ensures others { S.holds files.new ≡ S.holds files.old }
    ensures opened { OpensAll (S.opened files.old) (S.opened files.new) (path.now ∷ []) }
{
    read_file_up_to(alloc, files, path, MAX_FILE)
}

/// The bytes of the file at a path, at most `most`: more are `TooLarge`. `Read` comes only where the file has failed.
/// The file is given back before the answer.
pub fn read_file_up_to<S: Sources>(
    alloc: Global,
    files: &mut S,
    path: &str,
    most: usize,
) -> Result<Vec<u8>, ToolFault>
    requires few { most < 2 ^ 63 }
    ensures bytes { IfOk result
        (λ bytes. IfSome (S.holds files.old path.now) (λ xs. (bytes.items ≡ xs) × (length xs ≤ most))) }
    ensures faults { IfErr result IsReadingFault }
    ensures causes { IfErr result (IsFileFault (S.has_failed files.new)) }
    ensures too_large { IsErrOf result ToolFault.TooLarge
        → IfSome (S.holds files.old path.now) (λ xs. most < length xs) }
    ensures others { S.holds files.new ≡ S.holds files.old }
    ensures opened { OpensAll (S.opened files.old) (S.opened files.new) (path.now ∷ []) }
{
    let Some(reader) = files.open(path) else {
        return Err(ToolFault::Read);
    };
    let mut counted = Counted::new(reader);
    let bytes = read_up_to(alloc, &mut counted, most);
    files.close(counted);
    bytes
}

/// The bytes of the files at two paths: at most `MAX_FILE` of the first, and at most `most` of the second. The first is
/// read whole and given back before the second is opened. `Read` comes only where a file has failed.
#[tactic(auto, using(crate::proofs::Opened::both_open))]
pub fn read_files<S: Sources>(
    alloc: Global,
    files: &mut S,
    first: &str,
    second: &str,
    most: usize,
) -> Result<(Vec<u8>, Vec<u8>), ToolFault>
    requires few { most < 2 ^ 63 }
    ensures first { IfOk result
        (λ both. IfSome (S.holds files.old first.now) (λ xs. (both.0.items ≡ xs) × (length xs ≤ most_bytes))) }
    ensures second { IfOk result
        (λ both. IfSome (S.holds files.old second.now) (λ xs. (both.1.items ≡ xs) × (length xs ≤ most))) }
    ensures faults { IfErr result IsReadingFault }
    ensures causes { IfErr result (IsFileFault (S.has_failed files.new)) }
    ensures too_large { (x y : List ℕ) → S.holds files.old first.now ≡ Some x → S.holds files.old second.now ≡ Some y
        → IsErrOf result ToolFault.TooLarge → (most_bytes < length x) ⊎ (most < length y) }
    ensures opened { Opens (S.opened files.old) (S.opened files.new) (first.now ∷ second.now ∷ []) }
    ensures all_opened { OnOk result (OpensAll (S.opened files.old) (S.opened files.new)
        (first.now ∷ second.now ∷ [])) }
{
    let first = read_file(alloc, files, first)?;
    let second = read_file_up_to(alloc, files, second, most)?;
    Ok((first, second))
}
