// The part of a line that is shown around a place.
ghost use Rattle.std.specs.Prelude.{◌≡◌, ◌≤◌, ◌-◌, ◌==◌, ◌&&◌, length, if◌then◌else◌};
ghost use Rattle.explain_lines.specs.Lines.{begins_character, shown_before, shown_after};
ghost use Rattle.explain_lines.specs.Windows.{IsPart};

use crate::spots::begins_character;

// How many characters there is room for, once this byte is shown.
fn room_after(left: usize, byte: u8) -> usize
    ensures { result ≡ (if begins_character byte then left - 1 else left) }
{
    if begins_character(byte) {
        left.saturating_sub(1)
    } else {
        left
    }
}

// Whether the byte begins a character for which there is no room.
fn is_full(left: usize, byte: u8) -> bool
    ensures { result ≡ (left == 0 && begins_character byte) }
{
    left == 0 && begins_character(byte)
}

/// Where the part of a line begins that is shown before a place: the line's begin, or `most` characters before the place,
/// whichever is nearer. It is a byte offset in the text. It looks at no more bytes than these characters have, and one.
pub fn shown_from(text: &[u8], at: usize, most: usize) -> usize
    requires { at ≤ length text.now }
    ensures { IsPart text.now result at (shown_before most text.now at) }
{
    let mut from = at;
    let mut left = most;
    while from > 0 {
        let byte = text[from - 1];
        if left == 0 {
            return from;
        }
        if byte == b'\n' {
            return from;
        }
        from -= 1;
        left = room_after(left, byte);
    }
    from
}

/// Where the part of a line ends that is shown from a place on: the line's end, or `most` characters behind the place,
/// whichever is nearer. It is a byte offset in the text. It looks at no more bytes than these characters have, and one.
pub fn shown_to(text: &[u8], at: usize, most: usize) -> usize
    requires { at ≤ length text.now }
    ensures { IsPart text.now at result (shown_after most text.now at) }
{
    let mut to = at;
    let mut left = most;
    while to < text.len() {
        let byte = text[to];
        if byte == b'\n' {
            return to;
        }
        if is_full(left, byte) {
            return to;
        }
        to += 1;
        left = room_after(left, byte);
    }
    to
}
