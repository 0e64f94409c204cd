//! Whitespace and comments.
ghost use Rattle.std.specs.Prelude.{◌≡◌, ◌≤◌, length, option_map, chars};
ghost use Rattle.decl_lexer.specs.Text.{skip_while};
ghost use Rattle.decl_lexer.specs.Gaps.{is_space, is_within_line, comment_end};

use crate::text::{first_is, skip_first, split_first};

/// Whether the character is whitespace between tokens.
pub fn is_space(c: char) -> bool
    ensures { result ≡ is_space c }
{
    matches!(
        c,
        '\t'..='\r' | ' ' | '\u{85}' | '\u{200E}' | '\u{200F}' | '\u{2028}' | '\u{2029}'
    )
}

/// The text behind the whitespace that it begins with.
pub fn skip_spaces(text: &str) -> &str
    ensures rest { chars result.now ≡ skip_while is_space (chars text.now) }
    ensures shorter { length result.now ≤ length text.now }
{
    let mut rest = text;
    while let Some((first, others)) = split_first(rest) {
        if !is_space(first) {
            break;
        }
        rest = others;
    }
    rest
}

/// The text from the end of its first line on.
#[inline(never)]
pub fn skip_line(text: &str) -> &str
    ensures rest { chars result.now ≡ skip_while is_within_line (chars text.now) }
    ensures shorter { length result.now ≤ length text.now }
{
    let mut rest = text;
    while let Some((first, others)) = split_first(rest) {
        if first == '\n' {
            break;
        }
        rest = others;
    }
    rest
}

/// The text behind the block comment in whose inside it begins.
#[inline(never)]
pub fn skip_comment(text: &str) -> Option<&str>
    ensures { option_map (λ rest. chars rest.now) result ≡ comment_end 0 (chars text.now) }
{
    let mut depth = 0usize;
    let mut rest = text;
    while let Some((first, behind)) = split_first(rest) {
        rest = behind;
        if first == '/' && first_is('*', behind) {
            rest = skip_first(behind);
            depth += 1;
        } else if first == '*' && first_is('/', behind) {
            rest = skip_first(behind);
            if depth == 0 {
                return Some(rest);
            }
            depth -= 1;
        }
    }
    None
}
