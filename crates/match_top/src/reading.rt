// Reads a file to its end, or to the greatest number of bytes that are taken of it.
ghost use Rattle.std.specs.Prelude.{◌≡◌, List, ℕ, ◌≤◌, ◌<◌, ◌⊎◌, Some, IsSome, IfOk, take, length, vec_len};
ghost use Rattle.std.specs.Result.{IsErrOf};
ghost use Rattle.match_io.specs.Causes.{Rose};
ghost use Rattle.match_top.specs.Reading.{TakesFront, TakesAtMost, HasTaken};
ghost use Rattle.match_top.specs.Answers.{taken, most_taken};
ghost use Rattle.match_top.specs.declared.reading.ReadError.TheVariants.{Failed as ReadFailed, NoMemory as NoRoom};

use match_io::{Failed, Files};
use std::alloc::{AllocError, Global};

/// The greatest length of a source, in bytes.
pub(crate) const LONGEST_SOURCE: usize = 16_777_216;

// How many bytes are asked for at once.
const BUFFER: usize = 65_536;

#[derive(Clone, Copy, Debug, PartialEq, Eq)]
pub enum ReadError {
    Failed,
    NoMemory,
}

impl From<Failed> for ReadError {
    ghost from_gives = { λ _ e. e ≡ ReadFailed };

    fn from(_: Failed) -> Self {
        ReadError::Failed
    }
}

impl From<AllocError> for ReadError {
    ghost from_gives = { λ _ e. e ≡ NoRoom };

    fn from(_: AllocError) -> Self {
        ReadError::NoMemory
    }
}

/// What is taken of a file: all its bytes, or one more than a source may have.
#[tactic(auto, unfolding(crate::specs::Answers::taken, crate::specs::Answers::longest_source))]
pub(crate) fn read_source<F: Files>(
    alloc: Global,
    files: &mut F,
    name: &str,
) -> Result<Vec<u8>, ReadError>
    ensures content { IfOk result (λ read. (bytes : List ℕ) → F.holds files.old name.now ≡ Some bytes
        → read.items ≡ taken bytes) }
    ensures short { IfOk result (λ read. length read.items ≤ most_taken) }
    ensures few { (bytes : List ℕ) → F.holds files.old name.now ≡ Some bytes
        → (F.left files.new ≡ F.left files.old) ⊎ HasTaken most_taken bytes (F.left files.new) }
    ensures holds { F.holds files.new ≡ F.holds files.old }
    ensures still_sure { F.sure files.old → F.sure files.new }
    ensures later { F.faults files.old ≤ F.faults files.new }
    ensures failed { IsErrOf result ReadError.Failed → Rose (F.faults files.old) (F.faults files.new) }
    ensures sure { F.sure files.old → IsSome (F.holds files.old name.now) → IsErrOf result ReadError.Failed → ⊥ }
{
    read_file(alloc, files, name, LONGEST_SOURCE + 1)
}

// The bytes of a file, up to a number of bytes.
fn read_file<F: Files>(
    alloc: Global,
    files: &mut F,
    name: &str,
    most: usize,
) -> Result<Vec<u8>, ReadError>
    ensures content { IfOk result (λ read. (bytes : List ℕ) → F.holds files.old name.now ≡ Some bytes
        → read.items ≡ take most bytes) }
    ensures short { IfOk result (λ read. length read.items ≤ most) }
    ensures few { (bytes : List ℕ) → F.holds files.old name.now ≡ Some bytes
        → (F.left files.new ≡ F.left files.old) ⊎ HasTaken most bytes (F.left files.new) }
    ensures holds { F.holds files.new ≡ F.holds files.old }
    ensures still_sure { F.sure files.old → F.sure files.new }
    ensures later { F.faults files.old ≤ F.faults files.new }
    ensures failed { IsErrOf result ReadError.Failed → Rose (F.faults files.old) (F.faults files.new) }
    ensures sure { F.sure files.old → IsSome (F.holds files.old name.now) → IsErrOf result ReadError.Failed → ⊥ }
{
    let mut buffer = new_buffer(alloc)?;
    files.begin(name)?;
    read_rest(alloc, files, &mut buffer, most)
}

// Room for one read.
fn new_buffer(alloc: Global) -> Result<Vec<u8>, AllocError>
    ensures { IfOk result (λ buffer. 0 < vec_len buffer) }
{
    vec![in alloc; 0u8; BUFFER]
}

// Reads what is left, up to a number of bytes, through a buffer.
fn read_rest<F: Files>(
    alloc: Global,
    files: &mut F,
    buffer: &mut [u8],
    most: usize,
) -> Result<Vec<u8>, ReadError>
    requires { 0 < length buffer.old }
    ensures content { IfOk result (λ read. (bytes : List ℕ) → F.left files.old ≡ Some bytes
        → read.items ≡ take most bytes) }
    ensures short { IfOk result (λ read. length read.items ≤ most) }
    ensures few { TakesAtMost most (F.left files.old) (F.left files.new) }
    ensures holds { F.holds files.new ≡ F.holds files.old }
    ensures still_sure { F.sure files.old → F.sure files.new }
    ensures later { F.faults files.old ≤ F.faults files.new }
    ensures failed { IsErrOf result ReadError.Failed → Rose (F.faults files.old) (F.faults files.new) }
    ensures sure { F.sure files.old → IsErrOf result ReadError.Failed → ⊥ }
{
    let mut read = Vec::new(alloc);
    while read.len() < most {
        let room = buffer.len().min(most - read.len());
        let count = read_some(files, &mut buffer[..room], &mut read)?;
        if count == 0 {
            return Ok(read);
        }
    }
    Ok(read)
}

// Reads once, and keeps what came. At the end of the file it keeps nothing more.
fn read_some<F: Files>(
    files: &mut F,
    into: &mut [u8],
    read: &mut Vec<u8>,
) -> Result<usize, ReadError>
    ensures holds { F.holds files.new ≡ F.holds files.old }
    ensures sure { F.sure files.old → F.sure files.new }
    ensures few { TakesAtMost (length into.old) (F.left files.old) (F.left files.new) }
    ensures later { F.faults files.old ≤ F.faults files.new }
    ensures taken { IfOk result (λ count. TakesFront (F.left files.old) (F.left files.new)
        read.old.items read.new.items count (length into.old)) }
    ensures failed { IsErrOf result ReadError.Failed → Rose (F.faults files.old) (F.faults files.new) }
    ensures unsure { F.sure files.old → IsErrOf result ReadError.Failed → ⊥ }
{
    let count = files.read(into)?;
    read.extend_from_slice(&into[..count])?;
    Ok(count)
}
