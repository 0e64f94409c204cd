//! The marks, and which of them a text begins with.
ghost use Rattle.std.specs.Prelude.{◌≡◌};
ghost use Rattle.decl_lexer.specs.Marks.{mark_of_three, mark_of_two, mark_of_one};

/// A mark of punctuation.
#[derive(Clone, Copy, Debug, PartialEq, Eq)]
pub enum Mark {
    ShiftLeftAssign,
    ShiftRightAssign,
    ThreeDots,
    DotsEqual,
    PathSeparator,
    ThinArrow,
    LeftArrow,
    FatArrow,
    Equal,
    NotEqual,
    LessOrEqual,
    GreaterOrEqual,
    And,
    Or,
    PlusAssign,
    MinusAssign,
    TimesAssign,
    DivideAssign,
    RemainderAssign,
    CaretAssign,
    AmpersandAssign,
    BarAssign,
    ShiftLeft,
    ShiftRight,
    TwoDots,
    Plus,
    Minus,
    Star,
    Slash,
    Percent,
    Caret,
    Bang,
    Ampersand,
    Bar,
    Assign,
    Less,
    Greater,
    At,
    Dot,
    Comma,
    Semicolon,
    Colon,
    Hash,
    Dollar,
    Question,
    Tilde,
    Underscore,
    OpenRound,
    CloseRound,
    OpenSquare,
    CloseSquare,
    OpenCurly,
    CloseCurly,
}

pub fn mark_of_three(a: char, b: char, c: char) -> Option<Mark>
    ensures { result ≡ mark_of_three a b c }
{
    match (a, b, c) {
        ('<', '<', '=') => Some(Mark::ShiftLeftAssign),
        ('>', '>', '=') => Some(Mark::ShiftRightAssign),
        ('.', '.', '.') => Some(Mark::ThreeDots),
        ('.', '.', '=') => Some(Mark::DotsEqual),
        _ => None,
    }
}

pub fn mark_of_two(a: char, b: char) -> Option<Mark>
    ensures { result ≡ mark_of_two a b }
{
    match (a, b) {
        (':', ':') => Some(Mark::PathSeparator),
        ('-', '>') => Some(Mark::ThinArrow),
        ('<', '-') => Some(Mark::LeftArrow),
        ('=', '>') => Some(Mark::FatArrow),
        ('=', '=') => Some(Mark::Equal),
        ('!', '=') => Some(Mark::NotEqual),
        ('<', '=') => Some(Mark::LessOrEqual),
        ('>', '=') => Some(Mark::GreaterOrEqual),
        ('&', '&') => Some(Mark::And),
        ('|', '|') => Some(Mark::Or),
        ('+', '=') => Some(Mark::PlusAssign),
        ('-', '=') => Some(Mark::MinusAssign),
        ('*', '=') => Some(Mark::TimesAssign),
        ('/', '=') => Some(Mark::DivideAssign),
        ('%', '=') => Some(Mark::RemainderAssign),
        ('^', '=') => Some(Mark::CaretAssign),
        ('&', '=') => Some(Mark::AmpersandAssign),
        ('|', '=') => Some(Mark::BarAssign),
        ('<', '<') => Some(Mark::ShiftLeft),
        ('>', '>') => Some(Mark::ShiftRight),
        ('.', '.') => Some(Mark::TwoDots),
        _ => None,
    }
}

pub fn mark_of_one(a: char) -> Option<Mark>
    ensures { result ≡ mark_of_one a }
{
    match a {
        '+' => Some(Mark::Plus),
        '-' => Some(Mark::Minus),
        '*' => Some(Mark::Star),
        '/' => Some(Mark::Slash),
        '%' => Some(Mark::Percent),
        '^' => Some(Mark::Caret),
        '!' => Some(Mark::Bang),
        '&' => Some(Mark::Ampersand),
        '|' => Some(Mark::Bar),
        '=' => Some(Mark::Assign),
        '<' => Some(Mark::Less),
        '>' => Some(Mark::Greater),
        '@' => Some(Mark::At),
        '.' => Some(Mark::Dot),
        ',' => Some(Mark::Comma),
        ';' => Some(Mark::Semicolon),
        ':' => Some(Mark::Colon),
        '#' => Some(Mark::Hash),
        '$' => Some(Mark::Dollar),
        '?' => Some(Mark::Question),
        '~' => Some(Mark::Tilde),
        '(' => Some(Mark::OpenRound),
        ')' => Some(Mark::CloseRound),
        '[' => Some(Mark::OpenSquare),
        ']' => Some(Mark::CloseSquare),
        '{' => Some(Mark::OpenCurly),
        '}' => Some(Mark::CloseCurly),
        _ => None,
    }
}
