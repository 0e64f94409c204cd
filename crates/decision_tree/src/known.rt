// Submatrices whose trees are finished, by what tells them from the others of a match.
ghost use Rattle.std.specs.Prelude.{◌≡◌, ◌==◌, ◌++◌, ◌⊎◌, ℕ, [], true, false, IfSome, OnOk};
ghost use Rattle.std.proofs.Common.{rules};
ghost use Rattle.std.specs.Hash as fed;
ghost use Rattle.std.specs.Cmp.Lexicographic.{pointwise};
ghost use Rattle.std.specs.Cmp.Rules.{comparing, hashing};
ghost use Rattle.match_model.specs.Lists.{Among};
ghost use Rattle.decision_tree.specs.Known.{MKnownMatrix};
ghost use Rattle.decision_tree.specs.KnownViews.{plain_known_matrix, known_entries};

use indexmap::IndexMap;
use match_model::Mode;
use no_memory::NoMemory;
use pat_context::{Step, Validity};
use std::alloc::Global;

// What tells columns side by side: one, or columns of one validity whose places follow one another. These are the parts of
// one variant, or the items from the front of one row, each with the next number. At a place the match has one type.
#[derive(PartialEq, Eq, Drop)]
pub(crate) struct KnownColumns<'a> {
    // The place of the first.
    pub(crate) place: &'a [Step],
    // How many there are.
    pub(crate) count: u64,
    pub(crate) validity: Validity,
}

// What tells a name that a row has caught.
#[derive(PartialEq, Eq, Drop)]
pub(crate) struct KnownName<'a> {
    pub(crate) name: &'a str,
    pub(crate) mode: Mode,
    // The place of the column where it was caught.
    pub(crate) place: &'a [Step],
    // How many items at each end it leaves out, where it holds the others of a row.
    pub(crate) sides: Option<(u64, u64)>,
}

// Heads that stand side by side: wildcards that no pattern wrote, or patterns of which each has the next uid.
#[derive(PartialEq, Eq, Clone, Copy)]
pub(crate) struct KnownHeads {
    // The uid of the first, where a pattern wrote it.
    pub(crate) first: Option<u64>,
    // How many there are.
    pub(crate) count: u64,
}

// What tells a row beside its heads, which stand in its matrix.
#[derive(PartialEq, Eq, Drop)]
pub(crate) struct KnownRow<'a> {
    // How many of what the matrix lists are the row's heads.
    pub(crate) size: usize,
    pub(crate) arm: u32,
    pub(crate) guarded: bool,
    pub(crate) chosen: Vec<u64>,
    pub(crate) caught: Vec<KnownName<'a>>,
}

// What tells a matrix.
#[derive(PartialEq, Eq, Drop)]
#[derive_where(Hash)]
pub(crate) struct KnownMatrix<'a> {
    // A number made of the places of the columns and, row by row, of the arm, the alternatives, the places of names and the
    // heads that patterns wrote. By it alone the matrix is looked for among the others; two that share it are compared.
    pub(crate) digest: u64,
    #[derive_where(skip(Hash))]
    pub(crate) columns: Vec<KnownColumns<'a>>,
    // The heads of the rows, those of one behind those of the other.
    #[derive_where(skip(Hash))]
    pub(crate) heads: Vec<KnownHeads>,
    #[derive_where(skip(Hash))]
    pub(crate) rows: Vec<KnownRow<'a>>,
}

// How many words of eight bytes are noted at most, so that they take a quarter of a gigabyte. What is not noted is only
// lowered again.
const MOST_WORDS: usize = 1 << 25;

// What a matrix takes beside its columns and rows, in words.
const MATRIX_WORDS: usize = 16;

// What a row takes beside what it lists, in words.
const ROW_WORDS: usize = 16;

// Matrices whose trees are finished, with the indices of these.
#[derive(Drop)]
pub(crate) struct KnownTrees<'a> {
    pub(crate) of: IndexMap<KnownMatrix<'a>, u64>,
    // How many words there is room for.
    pub(crate) room: usize,
}

// No tree yet.
pub(crate) fn none_known<'a>(alloc: Global) -> KnownTrees<'a>
    ensures { known_entries result ≡ [] }
{
    KnownTrees {
        of: IndexMap::new(alloc),
        room: MOST_WORDS,
    }
}

// The index of the tree of the matrix, where it is known.
pub(crate) fn find_known<'a>(known: &KnownTrees<'a>, matrix: &KnownMatrix<'a>) -> Option<u64>
    ensures { IfSome result (λ i. Among (plain_known_matrix matrix.now, i) (known_entries known.now)) }
{
    match known.of.get(matrix) {
        Some(index) => Some(*index),
        None => None,
    }
}

// About how many words the row takes: one for an alternative, and eight for a name.
fn row_words<'a>(row: &KnownRow<'a>) -> usize {
    let names = row.caught.len().saturating_mul(8);
    names
        .saturating_add(row.chosen.len())
        .saturating_add(ROW_WORDS)
}

// About how many words the matrix takes: four for columns side by side, three for heads side by side, and those of the
// rows.
fn matrix_words<'a>(matrix: &KnownMatrix<'a>) -> usize {
    let columns = matrix.columns.len().saturating_mul(4);
    let heads = matrix.heads.len().saturating_mul(3);
    let mut words = columns.saturating_add(heads).saturating_add(MATRIX_WORDS);
    for row in &matrix.rows {
        words = words.saturating_add(row_words(row));
    }
    words
}

// Notes the index of the tree of the matrix, where there is room.
pub(crate) fn note_known<'a>(
    known: &mut KnownTrees<'a>,
    matrix: KnownMatrix<'a>,
    index: u64,
) -> Result<(), NoMemory>
    ensures { OnOk result ((e : MKnownMatrix × ℕ) → Among e (known_entries known.new)
        → Among e (known_entries known.old) ⊎ (e ≡ (plain_known_matrix matrix.entry, index))) }
{
    let needed = matrix_words(&matrix);
    if needed > known.room {
        return Ok(());
    }
    known.room -= needed;
    known.of.insert(matrix, index)?;
    Ok(())
}
