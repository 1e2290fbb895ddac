//! Reserved words and at-words.

ghost use Rattle.std.specs.Prelude.{◌≡◌, find, bytes_eq};
ghost use Rattle.loop_tokens.specs.Keywords.{keyword_text, keyword_of, at_text};

/// A reserved word, which is no name.
#[derive(Clone, Copy, Debug, PartialEq, Eq)]
pub enum Keyword {
    Var,
    For,
    In,
    Let,
    If,
    ElseIf,
    Else,
    End,
    Continue,
    Break,
    Print,
    From,
    Then,
    And,
    Or,
    Not,
    Div,
    Rem,
    Mod,
    True,
    False,
    Nothing,
    Place,
    Abs,
    Min,
    Max,
    Len,
    Int,
    TryInt,
    Text,
    Col,
    Zip,
    Product,
    Sum,
    Prod,
    Count,
    ArgMin,
    ArgMax,
    First,
    Last,
    Any,
    All,
    List,
    Group,
    Both,
}

/// All reserved words.
pub const KEYWORDS: [Keyword; 45] = [
    Keyword::Var,
    Keyword::For,
    Keyword::In,
    Keyword::Let,
    Keyword::If,
    Keyword::ElseIf,
    Keyword::Else,
    Keyword::End,
    Keyword::Continue,
    Keyword::Break,
    Keyword::Print,
    Keyword::From,
    Keyword::Then,
    Keyword::And,
    Keyword::Or,
    Keyword::Not,
    Keyword::Div,
    Keyword::Rem,
    Keyword::Mod,
    Keyword::True,
    Keyword::False,
    Keyword::Nothing,
    Keyword::Place,
    Keyword::Abs,
    Keyword::Min,
    Keyword::Max,
    Keyword::Len,
    Keyword::Int,
    Keyword::TryInt,
    Keyword::Text,
    Keyword::Col,
    Keyword::Zip,
    Keyword::Product,
    Keyword::Sum,
    Keyword::Prod,
    Keyword::Count,
    Keyword::ArgMin,
    Keyword::ArgMax,
    Keyword::First,
    Keyword::Last,
    Keyword::Any,
    Keyword::All,
    Keyword::List,
    Keyword::Group,
    Keyword::Both,
];

impl Keyword {
    /// The letters of the word.
    pub fn text(self) -> &'static str
        ensures { result.now ≡ keyword_text self }
    {
        match self {
            Keyword::Var => "var",
            Keyword::For => "for",
            Keyword::In => "in",
            Keyword::Let => "let",
            Keyword::If => "if",
            Keyword::ElseIf => "elseif",
            Keyword::Else => "else",
            Keyword::End => "end",
            Keyword::Continue => "continue",
            Keyword::Break => "break",
            Keyword::Print => "print",
            Keyword::From => "from",
            Keyword::Then => "then",
            Keyword::And => "and",
            Keyword::Or => "or",
            Keyword::Not => "not",
            Keyword::Div => "div",
            Keyword::Rem => "rem",
            Keyword::Mod => "mod",
            Keyword::True => "true",
            Keyword::False => "false",
            Keyword::Nothing => "nothing",
            Keyword::Place => "place",
            Keyword::Abs => "abs",
            Keyword::Min => "min",
            Keyword::Max => "max",
            Keyword::Len => "len",
            Keyword::Int => "int",
            Keyword::TryInt => "tryint",
            Keyword::Text => "text",
            Keyword::Col => "col",
            Keyword::Zip => "zip",
            Keyword::Product => "product",
            Keyword::Sum => "sum",
            Keyword::Prod => "prod",
            Keyword::Count => "count",
            Keyword::ArgMin => "argmin",
            Keyword::ArgMax => "argmax",
            Keyword::First => "first",
            Keyword::Last => "last",
            Keyword::Any => "any",
            Keyword::All => "all",
            Keyword::List => "list",
            Keyword::Group => "group",
            Keyword::Both => "both",
        }
    }
}

/// The first of these words that has these letters.
fn find_keyword(words: &[Keyword], name: &str) -> Option<Keyword>
    ensures { result ≡ find (λ w. bytes_eq (keyword_text w) name.now) words.now }
{
    for word in words {
        if word.text() == name {
            return Some(*word);
        }
    }
    None
}

/// The reserved word that a name is, if it is one.
pub(crate) fn keyword_of(name: &str) -> Option<Keyword>
    ensures { result ≡ keyword_of name.now }
{
    find_keyword(&KEYWORDS, name)
}

/// A word that begins with `@`.
#[derive(Clone, Copy, Debug, PartialEq, Eq)]
pub enum AtWord {
    Init,
    Keep,
    Reduce,
}

impl AtWord {
    /// The characters of the word, with the `@`.
    pub fn text(self) -> &'static str
        ensures { result.now ≡ at_text self }
    {
        match self {
            AtWord::Init => "@init",
            AtWord::Keep => "@keep",
            AtWord::Reduce => "@reduce",
        }
    }
}
