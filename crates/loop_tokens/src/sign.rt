//! Signs.

ghost use Rattle.std.specs.Prelude.{◌≡◌};
ghost use Rattle.loop_tokens.specs.Signs.{short_sign, long_sign, sign_text};

/// A sign of one or two characters.
#[derive(Clone, Copy, Debug, PartialEq, Eq)]
pub enum Sign {
    /// `+=`
    PlusAssign,
    /// `==`
    Equal,
    /// `!=`
    NotEqual,
    /// `<=`
    AtMost,
    /// `>=`
    AtLeast,
    /// `<`
    Less,
    /// `>`
    Greater,
    /// `=`
    Assign,
    /// `+`
    Plus,
    /// `-`
    Minus,
    /// `*`
    Star,
    /// `&`
    Join,
    /// `:`
    Colon,
    /// `,`
    Comma,
    /// `(`
    Open,
    /// `)`
    Close,
}

impl Sign {
    /// The characters of the sign.
    pub fn text(self) -> &'static str
        ensures { result.now ≡ sign_text self }
    {
        match self {
            Sign::PlusAssign => "+=",
            Sign::Equal => "==",
            Sign::NotEqual => "!=",
            Sign::AtMost => "<=",
            Sign::AtLeast => ">=",
            Sign::Less => "<",
            Sign::Greater => ">",
            Sign::Assign => "=",
            Sign::Plus => "+",
            Sign::Minus => "-",
            Sign::Star => "*",
            Sign::Join => "&",
            Sign::Colon => ":",
            Sign::Comma => ",",
            Sign::Open => "(",
            Sign::Close => ")",
        }
    }
}

/// The sign that is this one byte.
pub(crate) fn short_sign(b: u8) -> Option<Sign>
    ensures { result ≡ short_sign b }
{
    match b {
        b'<' => Some(Sign::Less),
        b'>' => Some(Sign::Greater),
        b'=' => Some(Sign::Assign),
        b'+' => Some(Sign::Plus),
        b'-' => Some(Sign::Minus),
        b'*' => Some(Sign::Star),
        b'&' => Some(Sign::Join),
        b':' => Some(Sign::Colon),
        b',' => Some(Sign::Comma),
        b'(' => Some(Sign::Open),
        b')' => Some(Sign::Close),
        _ => None,
    }
}

/// The sign that is this byte with a `=` behind it.
pub(crate) fn long_sign(b: u8) -> Option<Sign>
    ensures { result ≡ long_sign b }
{
    match b {
        b'+' => Some(Sign::PlusAssign),
        b'=' => Some(Sign::Equal),
        b'!' => Some(Sign::NotEqual),
        b'<' => Some(Sign::AtMost),
        b'>' => Some(Sign::AtLeast),
        _ => None,
    }
}
