// The words that ask for the counts of a generated file.
ghost use Rattle.std.specs.Prelude.{◌≡◌, ◌↔◌, ◌≤◌, ◌<◌, ℕ, Some, get_or, nat_lt};
ghost use Rattle.match_top.specs.DemoWords.{IsDemo, IsDemoNumber, most_items};

// The most items of a generated file.
const MOST_ITEMS: u32 = 200;

// The number of the items of the generated file that the words ask for, where they ask for one.
pub(crate) fn demo_by(words: &[String]) -> Option<u32>
    ensures number { (n : ℕ) → (result ≡ Some n) ↔ IsDemo words.now n }
    ensures within { (n : ℕ) → result ≡ Some n → (0 < n) × (n ≤ most_items) }
{
    match words {
        [name, number] if name.as_str() == "demo" => demo_number(number.as_str()),
        _ => None,
    }
}

// The number of items that a word is, where it is one.
fn demo_number(word: &str) -> Option<u32>
    ensures { (n : ℕ) → (result ≡ Some n) ↔ IsDemoNumber word.now n }
{
    if !begins_above_zero(word) {
        return None;
    }
    match word.parse::<u32>() {
        Ok(n) => within(n),
        Err(_) => None,
    }
}

// Whether a first byte is there, above that of the digit 0.
fn begins_above_zero(word: &str) -> bool
    ensures { result ≡ nat_lt 48 (get_or word.now 0 0) }
{
    match word.as_bytes().first() {
        Some(byte) => *byte > b'0',
        None => false,
    }
}

// The number, where a generated file may have so many items.
fn within(n: u32) -> Option<u32>
    ensures { (m : ℕ) → (result ≡ Some m) ↔ (n ≡ m) × (m ≤ most_items) }
{
    if n <= MOST_ITEMS { Some(n) } else { None }
}
