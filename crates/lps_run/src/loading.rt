ghost use Rattle.std.specs.Prelude.{◌≡◌, ◌≤◌, ◌<◌, ◌+◌, ◌++◌, ℕ, List, Some, length, MatchResult, IfOk};
ghost use Rattle.lps_run.specs.Loading.{FailsOnlyLong, IsMore, LoadCounted};
ghost use Rattle.lps_run.specs.declared.loading.LoadError.TheVariants.{NoMemory};

use lps_outside::Texts;
use lps_reader::LONGEST_TEXT;
use std::alloc::{AllocError, AllocFailed, Global};

/// How many reads reach the end of the longest text or pass its limit.
const MOST_READS: usize = LONGEST_TEXT + 1;

/// Why the bytes of a text were not read.
#[derive(Clone, Copy, Debug)]
pub enum LoadError {
    NoMemory,
    TooLong,
    Fault,
}

impl From<AllocError> for LoadError {
    ghost from_gives = { λ _ error. error ≡ NoMemory };

    fn from(_: AllocError) -> Self {
        LoadError::NoMemory
    }
}

impl<T: Drop> From<AllocFailed<T>> for LoadError {
    ghost from_gives = { λ _ error. error ≡ NoMemory };

    fn from(_: AllocFailed<T>) -> Self {
        LoadError::NoMemory
    }
}

/// Reads the next bytes after those that were read. Answers how many there were, which is 0 at the end.
fn load_more<T: Texts>(texts: &mut T, name: &str, bytes: &mut Vec<u8>) -> Result<usize, LoadError>
    requires { length bytes.old.items ≤ 1048576 }
    ensures within { IfOk result (λ count. length bytes.new.items ≤ 1048576) }
    ensures grows { IfOk result (λ count. length bytes.new.items ≡ length bytes.old.items + count) }
    ensures same { (other : List ℕ) → T.text texts.new other ≡ T.text texts.old other }
    ensures told { (all rest : List ℕ) → T.text texts.old name.now ≡ Some all → all ≡ bytes.old.items ++ rest →
        MatchResult result (λ count. IsMore all bytes.new.items count) (λ error. FailsOnlyLong all error) }
    ensures counted { LoadCounted result (T.faults texts.old name.now) (T.faults texts.new name.now) }
{
    let mut buffer = [0u8; 16384];
    let count = match texts.read(name, bytes.len() as u64, &mut buffer) {
        Ok(count) => count,
        Err(_) => return Err(LoadError::Fault),
    };
    if count > LONGEST_TEXT - bytes.len() {
        return Err(LoadError::TooLong);
    }
    let (piece, _) = buffer.split_at(count);
    bytes.extend_from_slice(piece)?;
    Ok(count)
}

/// The bytes of a text, which are at most 1,048,576.
pub fn load<T: Texts>(alloc: Global, texts: &mut T, name: &str) -> Result<Vec<u8>, LoadError>
    ensures told { (all : List ℕ) → T.text texts.old name.now ≡ Some all →
        MatchResult result (λ bytes. bytes.items ≡ all) (λ error. FailsOnlyLong all error) }
    ensures counted { LoadCounted result (T.faults texts.old name.now) (T.faults texts.new name.now) }
{
    let mut bytes = Vec::new(alloc);
    for turn in 0..MOST_READS {
        let count = load_more(texts, name, &mut bytes)?;
        if count == 0 {
            return Ok(bytes);
        }
    }
    Err(LoadError::TooLong)
}
