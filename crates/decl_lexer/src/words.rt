//! The keywords.
ghost use Rattle.std.specs.Prelude.{◌≡◌, map};
ghost use Rattle.decl_lexer.specs.Tables.{with_text};
ghost use Rattle.decl_lexer.specs.Words.{word_of, can_be_raw};

/// A keyword.
#[derive(Clone, Copy, Debug, PartialEq, Eq)]
pub enum Word {
    As,
    Async,
    Await,
    Break,
    Const,
    Continue,
    Crate,
    Dyn,
    Else,
    Enum,
    Extern,
    False,
    Fn,
    For,
    If,
    Impl,
    In,
    Let,
    Loop,
    Match,
    Mod,
    Move,
    Mut,
    Pub,
    Ref,
    Return,
    SelfValue,
    SelfType,
    Static,
    Struct,
    Super,
    Trait,
    True,
    TypeWord,
    Unsafe,
    Use,
    Where,
    While,
    Abstract,
    Become,
    Box,
    Do,
    Final,
    Macro,
    Override,
    Priv,
    Try,
    Typeof,
    Unsized,
    Virtual,
    Yield,
}

// The keywords by their first letters.
const FROM_LARGE_S: [(&str, Word); 1] = [("Self", Word::SelfType)];

const FROM_A: [(&str, Word); 4] = [
    ("as", Word::As),
    ("async", Word::Async),
    ("await", Word::Await),
    ("abstract", Word::Abstract),
];

const FROM_B: [(&str, Word); 3] = [
    ("break", Word::Break),
    ("become", Word::Become),
    ("box", Word::Box),
];

const FROM_C: [(&str, Word); 3] = [
    ("const", Word::Const),
    ("continue", Word::Continue),
    ("crate", Word::Crate),
];

const FROM_D: [(&str, Word); 2] = [("dyn", Word::Dyn), ("do", Word::Do)];

const FROM_E: [(&str, Word); 3] = [
    ("else", Word::Else),
    ("enum", Word::Enum),
    ("extern", Word::Extern),
];

const FROM_F: [(&str, Word); 4] = [
    ("false", Word::False),
    ("fn", Word::Fn),
    ("for", Word::For),
    ("final", Word::Final),
];

const FROM_I: [(&str, Word); 3] = [("if", Word::If), ("impl", Word::Impl), ("in", Word::In)];

const FROM_L: [(&str, Word); 2] = [("let", Word::Let), ("loop", Word::Loop)];

const FROM_M: [(&str, Word); 5] = [
    ("match", Word::Match),
    ("mod", Word::Mod),
    ("move", Word::Move),
    ("mut", Word::Mut),
    ("macro", Word::Macro),
];

const FROM_O: [(&str, Word); 1] = [("override", Word::Override)];

const FROM_P: [(&str, Word); 2] = [("pub", Word::Pub), ("priv", Word::Priv)];

const FROM_R: [(&str, Word); 2] = [("ref", Word::Ref), ("return", Word::Return)];

const FROM_S: [(&str, Word); 4] = [
    ("self", Word::SelfValue),
    ("static", Word::Static),
    ("struct", Word::Struct),
    ("super", Word::Super),
];

const FROM_T: [(&str, Word); 5] = [
    ("trait", Word::Trait),
    ("true", Word::True),
    ("type", Word::TypeWord),
    ("try", Word::Try),
    ("typeof", Word::Typeof),
];

const FROM_U: [(&str, Word); 3] = [
    ("unsafe", Word::Unsafe),
    ("use", Word::Use),
    ("unsized", Word::Unsized),
];

const FROM_V: [(&str, Word); 1] = [("virtual", Word::Virtual)];

const FROM_W: [(&str, Word); 2] = [("where", Word::Where), ("while", Word::While)];

const FROM_Y: [(&str, Word); 1] = [("yield", Word::Yield)];

/// The keyword with this text. It is compared with the keywords that begin with its first letter alone.
pub fn word_of(text: &str) -> Option<Word>
    ensures { result ≡ word_of text.now }
{
    let first = *text.as_bytes().first()?;
    match first {
        b'S' => among(text, &FROM_LARGE_S),
        b'a' => among(text, &FROM_A),
        b'b' => among(text, &FROM_B),
        b'c' => among(text, &FROM_C),
        b'd' => among(text, &FROM_D),
        b'e' => among(text, &FROM_E),
        b'f' => among(text, &FROM_F),
        b'i' => among(text, &FROM_I),
        b'l' => among(text, &FROM_L),
        b'm' => among(text, &FROM_M),
        b'o' => among(text, &FROM_O),
        b'p' => among(text, &FROM_P),
        b'r' => among(text, &FROM_R),
        b's' => among(text, &FROM_S),
        b't' => among(text, &FROM_T),
        b'u' => among(text, &FROM_U),
        b'v' => among(text, &FROM_V),
        b'w' => among(text, &FROM_W),
        b'y' => among(text, &FROM_Y),
        _ => None,
    }
}

/// The keyword with this text among these.
fn among(text: &str, words: &[(&str, Word)]) -> Option<Word>
    ensures { result ≡ with_text (map (λ entry. (entry.0.now, entry.1)) words.now) text.now }
{
    for (spelling, word) in words {
        if *spelling == text {
            return Some(*word);
        }
    }
    None
}

/// Whether `r#` may stand before the text.
pub fn can_be_raw(text: &str) -> bool
    ensures { result ≡ can_be_raw text.now }
{
    !matches!(text, "crate" | "self" | "super" | "Self" | "_")
}
