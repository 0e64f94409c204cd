// Words that tell a submatrix, but for the alternatives that its rows have chosen.
ghost use Rattle.std.specs.Prelude.{◌≡◌, ◌<◌, ◌++◌, ◌∷◌, [], ℕ, get_or, map, length, IfOk, OnOk};
ghost use Rattle.std.specs.List.{All, flat_map};
ghost use Rattle.pat_context.specs.Views.{is_sure};
ghost use Rattle.pattern_matrix.specs.Sparse.{AreHeadsBelow};
ghost use Rattle.pattern_matrix.specs.Views.{plain_head, plain_heads};
ghost use Rattle.usefulness.specs.Frames.{numbers, AreOpen};
ghost use Rattle.usefulness.specs.States.{plain_opens, plain_asked, plain_askeds};
ghost use Rattle.usefulness.specs.Words.{AreNumbered, head_words, wanted_words, row_words, column_words, words, bit};

use crate::frames::{Asked, Frame, OpenColumn};
use no_memory::NoMemory;
use pat_context::Validity;
use pattern_matrix::Head;
use std::alloc::Global;

// The places of the columns among the open ones, by their numbers.
fn places<T: Copy>(
    alloc: Global,
    columns: &[OpenColumn<T>],
    next: usize,
) -> Result<Vec<usize>, NoMemory>
    requires { AreOpen next (numbers (plain_opens columns.now)) }
    ensures long { IfOk result (λ v. length v.items ≡ next) }
    ensures numbered { IfOk result (λ v. AreNumbered (λ c. get_or v.items c 0) 0 (numbers (plain_opens columns.now))) }
{
    let mut places = vec![in alloc; 0usize; next]?;
    for (i, column) in columns.iter().enumerate() {
        places[column.number] = i;
    }
    Ok(places)
}

// Adds a word.
fn put(words: &mut Vec<u64>, word: u64) -> Result<(), NoMemory>
    ensures { OnOk result (words.new.items ≡ words.old.items ++ word ∷ []) }
{
    words.push(word)?;
    Ok(())
}

// The place of the column with the number.
fn place_at(places: &[usize], number: usize) -> u64
    requires { number < length places.now }
    ensures { result ≡ get_or places.now number 0 }
{
    places[number] as u64
}

// Adds what tells a head: the place of its column, and its uid.
fn add_head<'a, T: Copy>(
    words: &mut Vec<u64>,
    places: &[usize],
    head: &Head<'a, T>,
) -> Result<(), NoMemory>
    requires { head.now.column < length places.now }
    ensures { OnOk result (words.new.items ≡ words.old.items ++ head_words (λ c. get_or places.now c 0) (plain_head head.now)) }
{
    put(words, place_at(places, head.column))?;
    put(words, head.pat.uid)?;
    Ok(())
}

// Adds what tells the heads.
fn add_heads<'a, T: Copy>(
    words: &mut Vec<u64>,
    places: &[usize],
    heads: &[Head<'a, T>],
) -> Result<(), NoMemory>
    requires { AreHeadsBelow (length places.now) (plain_heads heads.now) }
    ensures { OnOk result (words.new.items ≡ words.old.items ++ flat_map (head_words (λ c. get_or places.now c 0)) (plain_heads heads.now)) }
{
    for head in heads {
        add_head(words, places, head)?;
    }
    Ok(())
}

// Adds the arm of a row that is wanted.
fn add_wanted<'a, T: Copy>(words: &mut Vec<u64>, asked: &Asked<'a, T>) -> Result<(), NoMemory>
    ensures { OnOk result (words.new.items ≡ words.old.items ++ wanted_words (plain_asked asked.now)) }
{
    if asked.wanted {
        put(words, asked.row.arm as u64)
    } else {
        Ok(())
    }
}

// 1 for what is so, else 0.
fn bit(so: bool) -> u64
    ensures { result ≡ bit so }
{
    if so { 1 } else { 0 }
}

// Adds whether the row has a guard, and whether it is wanted.
fn add_flags<'a, T: Copy>(words: &mut Vec<u64>, asked: &Asked<'a, T>) -> Result<(), NoMemory>
    ensures { OnOk result (words.new.items ≡ words.old.items ++ bit (plain_asked asked.now).row.guarded ∷ bit (plain_asked asked.now).wanted ∷ []) }
{
    put(words, bit(asked.row.guarded))?;
    put(words, bit(asked.wanted))?;
    Ok(())
}

// How many heads these are.
fn count_of<'a, T: Copy>(heads: &[Head<'a, T>]) -> u64
    ensures { result ≡ length (plain_heads heads.now) }
{
    heads.len() as u64
}

// Adds how many heads the row lists, and what tells them.
fn add_count_and_heads<'a, T: Copy>(
    words: &mut Vec<u64>,
    places: &[usize],
    heads: &[Head<'a, T>],
) -> Result<(), NoMemory>
    requires { AreHeadsBelow (length places.now) (plain_heads heads.now) }
    ensures { OnOk result (words.new.items ≡ words.old.items ++ length (plain_heads heads.now) ∷ flat_map (head_words (λ c. get_or places.now c 0)) (plain_heads heads.now)) }
{
    put(words, count_of(heads))?;
    add_heads(words, places, heads)?;
    Ok(())
}

// Adds what tells the row.
fn add_row<'a, T: Copy>(
    words: &mut Vec<u64>,
    places: &[usize],
    asked: &Asked<'a, T>,
) -> Result<(), NoMemory>
    requires { AreHeadsBelow (length places.now) (plain_asked asked.now).row.heads }
    ensures { OnOk result (words.new.items ≡ words.old.items ++ row_words (λ c. get_or places.now c 0) (plain_asked asked.now)) }
{
    add_count_and_heads(words, places, asked.row.heads.as_slice())?;
    add_flags(words, asked)?;
    add_wanted(words, asked)?;
    Ok(())
}

// 1 for a sure place, else 0.
fn sure_bit(validity: Validity) -> u64
    ensures { result ≡ bit (is_sure validity) }
{
    match validity {
        Validity::Sure => 1,
        Validity::Unsure => 0,
    }
}

// Adds which of the open columns are sure.
fn add_sure<T: Copy>(words: &mut Vec<u64>, columns: &[OpenColumn<T>]) -> Result<(), NoMemory>
    ensures { OnOk result (words.new.items ≡ words.old.items ++ map (λ o. bit o.1.sure) (plain_opens columns.now)) }
{
    for column in columns {
        put(words, sure_bit(column.column.validity))?;
    }
    Ok(())
}

// How many columns these are.
fn width_of<T: Copy>(columns: &[OpenColumn<T>]) -> u64
    ensures { result ≡ length (plain_opens columns.now) }
{
    columns.len() as u64
}

// Adds what tells the open columns: how many they are, and which are sure.
fn add_columns<T: Copy>(words: &mut Vec<u64>, columns: &[OpenColumn<T>]) -> Result<(), NoMemory>
    ensures { OnOk result (words.new.items ≡ words.old.items ++ column_words (plain_opens columns.now)) }
{
    put(words, width_of(columns))?;
    add_sure(words, columns)?;
    Ok(())
}

// Adds what tells the rows.
fn add_rows<'a, T: Copy>(
    words: &mut Vec<u64>,
    places: &[usize],
    rows: &[Asked<'a, T>],
) -> Result<(), NoMemory>
    requires { All (λ x. AreHeadsBelow (length places.now) x.row.heads) (plain_askeds rows.now) }
    ensures { OnOk result (words.new.items ≡ words.old.items ++ flat_map (row_words (λ c. get_or places.now c 0)) (plain_askeds rows.now)) }
{
    for asked in rows {
        add_row(words, places, asked)?;
    }
    Ok(())
}

// Words that tell the rows, but for what these have chosen.
pub(crate) fn tell<'a, T: Copy>(alloc: Global, frame: &Frame<'a, T>) -> Result<Vec<u64>, NoMemory>
    requires open { AreOpen frame.now.next (numbers (plain_opens frame.now.columns.items)) }
    requires below { All (λ x. AreHeadsBelow frame.now.next x.row.heads) (plain_askeds frame.now.rows.items) }
    ensures { IfOk result (λ v. (at : ℕ → ℕ) × AreNumbered at 0 (numbers (plain_opens frame.now.columns.items))
        × (v.items ≡ words at (plain_opens frame.now.columns.items) (plain_askeds frame.now.rows.items))) }
{
    let places = places(alloc, frame.columns.as_slice(), frame.next)?;
    let mut words = Vec::new(alloc);
    add_columns(&mut words, frame.columns.as_slice())?;
    add_rows(&mut words, places.as_slice(), frame.rows.as_slice())?;
    Ok(words)
}
