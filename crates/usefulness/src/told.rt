// The submatrices that were looked at, by the words that tell them, and what their rows had chosen.
//
// Words do not tell which alternatives the rows of a submatrix have chosen. Where words of two submatrices are equal, a
// value reaches a row in one where it reaches the row in its place in the other. Then it reaches that row's arm, and what
// the row has chosen, in both. So beside the words of a submatrix stands each alternative that one of its rows had chosen.
// A submatrix brings nothing new where its words were noted, and beside them each unmarked alternative of its rows.
ghost use Rattle.std.specs.Prelude.{◌≡◌, ◌≤◌, ◌⊎◌, [], true, List, ℕ, OnOk, IfOk};
ghost use Rattle.std.specs.List.{All, Contains};
ghost use Rattle.usefulness.specs.Keys.{told_keys};
ghost use Rattle.usefulness.specs.Memo.{memo_of, no_memo, told_beside, AreAllNoted, AreNotedBeside, AreWordsNoted, IsNotedIn};

use crate::chosen::ChosenIn;
use indexmap::IndexSet;
use no_memory::NoMemory;
use std::alloc::Global;

// How many submatrices are looked at before the first one is noted: on small matches to tell them takes longer than to
// look at them again.
const UNTOLD: usize = 128;

// How many words are noted at most, so that they and their lists take less than half a gigabyte. What is not noted is
// only looked at again.
const MOST_WORDS: usize = 1 << 24;

// How many words are noted at most of what is only worth little.
const FEW_WORDS: usize = 1 << 20;

// What one list of words takes beside them, in words.
const LIST_WORDS: usize = 8;

// What one alternative takes beside a list, in words.
const CHOSEN_WORDS: usize = 6;

// An alternative that was noted beside a list of words: the number of the list, that of the row, and the alternative's uid.
#[derive(Clone, Copy, Debug, PartialEq, Eq, Hash)]
pub(crate) struct ToldChosen {
    pub(crate) list: usize,
    pub(crate) row: usize,
    pub(crate) uid: u64,
}

// Lists of words, and what was noted beside them.
#[derive(Drop)]
pub(crate) struct Told {
    pub(crate) lists: IndexSet<Vec<u64>>,
    pub(crate) chosen: IndexSet<ToldChosen>,
    // How many submatrices are looked at before the first one is noted.
    pub(crate) untold: usize,
    // Whether one submatrix alone was left of the one that was looked at last. Where nothing new comes of that one, another is
    // looked at next, and is not noted either.
    pub(crate) alone: bool,
    // How many words there is room for.
    pub(crate) room: usize,
}

// No words yet.
pub(crate) fn none_told(alloc: Global) -> Told
    ensures keys { told_keys result ≡ [] }
    ensures memo { memo_of result ≡ no_memo }
{
    Told {
        lists: IndexSet::new(alloc),
        chosen: IndexSet::new(alloc),
        untold: UNTOLD,
        alone: false,
        room: MOST_WORDS,
    }
}

// No words yet, and room for fewer.
pub(crate) fn few_told(alloc: Global) -> Told
    ensures { told_keys result ≡ [] }
{
    Told {
        lists: IndexSet::new(alloc),
        chosen: IndexSet::new(alloc),
        untold: UNTOLD,
        alone: false,
        room: FEW_WORDS,
    }
}

// Tells whether the submatrix that is looked at next is one of those that are not noted, and counts it. One that is all
// that was left of the one before is not: it is seldom come to in another way, and a row of many heads would be noted
// once for each of them.
pub(crate) fn is_untold(told: &mut Told) -> bool
    ensures { memo_of told.new ≡ memo_of told.old }
{
    if told.alone {
        return true;
    }
    if told.untold == 0 {
        return false;
    }
    told.untold -= 1;
    true
}

// Keeps whether one submatrix alone is left of the one that was looked at, of which at most so many are.
pub(crate) fn keep_count(told: &mut Told, left: usize)
    ensures { memo_of told.new ≡ memo_of told.old }
{
    told.alone = left == 1;
}

// Tells whether the words were noted.
pub(crate) fn is_told(told: &Told, words: &Vec<u64>) -> bool
    ensures { result ≡ true → Contains (told_keys told.now) words.now.items }
{
    told.lists.contains(words)
}

// The alternative as it is noted beside the list with the number.
fn told_beside(list: usize, one: &ChosenIn) -> ToldChosen
    ensures { result ≡ told_beside list one.now }
{
    ToldChosen {
        list,
        row: one.row,
        uid: one.uid,
    }
}

// Tells whether the alternative was noted beside the list with the number.
fn is_told_beside(told: &Told, list: usize, one: &ChosenIn) -> bool
    ensures { result ≡ true → Contains told.now.chosen.keys (told_beside list one.now) }
{
    told.chosen.contains(&told_beside(list, one))
}

// Tells whether each of the alternatives was.
fn are_told_beside(told: &Told, list: usize, chosen: &[ChosenIn]) -> bool
    ensures { result ≡ true → All (λ c. Contains told.now.chosen.keys (told_beside list c)) chosen.now }
{
    for one in chosen {
        if !is_told_beside(told, list, one) {
            return false;
        }
    }
    true
}

// Tells whether the words were noted, and beside them each of the alternatives.
pub(crate) fn are_told(told: &Told, words: &Vec<u64>, chosen: &[ChosenIn]) -> bool
    ensures { result ≡ true → AreAllNoted (memo_of told.now) words.now.items chosen.now }
{
    match told.lists.get_index_of(words) {
        None => false,
        Some(list) => are_told_beside(told, list, chosen),
    }
}

// Notes the words, where there is room.
pub(crate) fn note_told(told: &mut Told, words: Vec<u64>) -> Result<(), NoMemory>
    ensures { (v : List ℕ) → Contains (told_keys told.new) v → Contains (told_keys told.old) v ⊎ (v ≡ words.items) }
{
    let needed = words.len().saturating_add(LIST_WORDS);
    if needed > told.room {
        return Ok(());
    }
    told.room -= needed;
    told.lists.insert(words)?;
    Ok(())
}

// Tells whether there is room for so many words.
fn has_room(told: &Told, needed: usize) -> bool
    ensures { result ≡ true → needed ≤ told.now.room }
{
    needed <= told.room
}

// Notes the words, where there is room: the number of their list.
fn note_words(told: &mut Told, words: Vec<u64>) -> Result<Option<usize>, NoMemory>
    ensures { IfOk result (λ o. AreWordsNoted words.items (memo_of told.old) (memo_of told.new) o) }
{
    let needed = words.len().saturating_add(LIST_WORDS);
    if !has_room(told, needed) {
        return Ok(None);
    }
    let (list, new) = told.lists.insert_full(words)?;
    told.room -= if new { needed } else { 0 };
    Ok(Some(list))
}

// Notes the alternative, where there is room.
fn note_one(told: &mut Told, one: ToldChosen) -> Result<(), NoMemory>
    ensures keys { OnOk result (told_keys told.new ≡ told_keys told.old) }
    ensures chosen { OnOk result ((c : ToldChosen) → Contains told.new.chosen.keys c → Contains told.old.chosen.keys c ⊎ (c ≡ one)) }
{
    if !has_room(told, CHOSEN_WORDS) {
        return Ok(());
    }
    let new = told.chosen.insert(one)?;
    told.room -= if new { CHOSEN_WORDS } else { 0 };
    Ok(())
}

// Notes the alternatives beside the list with the number, where there is room.
fn note_beside(told: &mut Told, list: usize, chosen: &[ChosenIn]) -> Result<(), NoMemory>
    ensures { OnOk result (AreNotedBeside list chosen.now (memo_of told.old) (memo_of told.new)) }
{
    for one in chosen {
        note_one(told, told_beside(list, one))?;
    }
    Ok(())
}

// Notes the words, and beside them the alternatives, where there is room.
pub(crate) fn note_all(
    told: &mut Told,
    words: Vec<u64>,
    chosen: &[ChosenIn],
) -> Result<(), NoMemory>
    ensures { OnOk result (IsNotedIn words.items chosen.now (memo_of told.old) (memo_of told.new)) }
{
    match note_words(told, words)? {
        None => Ok(()),
        Some(list) => note_beside(told, list, chosen),
    }
}
