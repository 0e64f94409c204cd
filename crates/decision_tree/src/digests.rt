// A number made of what tells a matrix, by which it is looked for: equal matrices have one, and others seldom the same.
use crate::known::{KnownColumns, KnownHeads, KnownName, KnownRow};
use pat_context::Step;

// The digest with one number more: an odd number near 2^64 divided by the golden ratio spreads it upwards, and the turn
// brings that down again.
fn mixed(digest: u64, number: u64) -> u64 {
    (digest ^ number)
        .wrapping_mul(0x9E37_79B9_7F4A_7C15)
        .rotate_left(29)
}

// A number of the step, in one word: its two numbers where it has two, and a mark of its kind in all but parts. Steps with
// the same number are rare and do no harm.
fn step_number(step: &Step) -> u64 {
    match step {
        Step::Through => 1,
        Step::Field { variant, part } => (*variant as u64).rotate_left(32) ^ *part as u64,
        Step::Front(k) => *k ^ 0x2000_0000_0000_0000,
        Step::Back(k) => *k ^ 0x3000_0000_0000_0000,
        Step::Middle { front, back } => front.rotate_left(32) ^ *back ^ 0x5000_0000_0000_0000,
    }
}

// The digest with the place.
fn with_place(digest: u64, place: &[Step]) -> u64 {
    let mut digest = digest;
    for step in place {
        digest = mixed(digest, step_number(step));
    }
    digest
}

// The digest with the places of the names.
fn with_names<'a>(digest: u64, names: &[KnownName<'a>]) -> u64 {
    let mut digest = digest;
    for name in names {
        digest = with_place(digest, name.place);
    }
    digest
}

// The digest with the alternatives.
fn with_chosen(digest: u64, chosen: &[u64]) -> u64 {
    let mut digest = digest;
    for uid in chosen {
        digest = mixed(digest, *uid);
    }
    digest
}

// The digest with the heads that patterns wrote. In rows of one match over the same columns these tell nearly always where
// wildcards stand between them.
fn with_heads(digest: u64, heads: &[KnownHeads]) -> u64 {
    let mut digest = digest;
    for some in heads {
        if let Some(first) = some.first {
            digest = mixed(digest, first ^ some.count.rotate_left(32));
        }
    }
    digest
}

// The digest with the row.
fn with_row<'a>(digest: u64, row: &KnownRow<'a>) -> u64 {
    let arm = mixed(digest, row.arm as u64 ^ (row.size as u64).rotate_left(32));
    let chosen = with_chosen(arm, &row.chosen);
    with_names(chosen, &row.caught)
}

// The digest of the columns.
fn columns_digest<'a>(columns: &[KnownColumns<'a>]) -> u64 {
    let mut digest = 0;
    for some in columns {
        digest = with_place(mixed(digest, some.count), some.place);
    }
    digest
}

// The digest of the matrix.
pub(crate) fn digest_of<'a>(
    columns: &[KnownColumns<'a>],
    heads: &[KnownHeads],
    rows: &[KnownRow<'a>],
) -> u64 {
    let mut digest = with_heads(columns_digest(columns), heads);
    for row in rows {
        digest = with_row(digest, row);
    }
    digest
}
