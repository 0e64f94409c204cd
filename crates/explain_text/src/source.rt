// The source file.
ghost use Rattle.std.specs.Prelude.{◌≡◌, ◌≤◌, length};
ghost use Rattle.explain_text.specs.Sources.{mark_length, is_place};

use explain_lines::{Spot, begins_character};

/// A source file as it is shown.
#[derive(Clone, Copy)]
pub struct Source<'s> {
    /// Its name.
    pub name: &'s str,
    /// Its bytes behind a byte order mark.
    pub text: &'s [u8],
    /// How many bytes that mark has.
    pub mark: usize,
    /// Spots along the bytes (`explain_lines::checkpoints`).
    pub spots: &'s [Spot],
    /// Whether colours of a terminal are written.
    pub paint: bool,
}

/// How many bytes the byte order mark has with which a file begins: 3, or 0 where it begins with none.
pub fn mark_length(file: &[u8]) -> usize
    ensures exact { result ≡ mark_length file.now }
    ensures within { result ≤ length file.now }
{
    match file {
        [0xEF, 0xBB, 0xBF, ..] => 3,
        _ => 0,
    }
}

// Whether a finding may stand there: within the file or at its end, and not inside a character. The first byte that is no
// UTF-8 (rule 1) is looked at by itself.
pub(crate) fn is_place(file: &[u8], at: u64, any: bool) -> bool
    ensures { result ≡ is_place file.now at any }
{
    if at == file.len() as u64 {
        return true;
    }
    if at > file.len() as u64 {
        return false;
    }
    any || begins_character(file[at as usize])
}
