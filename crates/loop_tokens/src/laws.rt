//! Laws of tokens: public functions with no body, whose contracts are the laws.

ghost use Rattle.loop_tokens.specs.Laws.{OneLexing, SomeTokens, EscapesReadBack, WordsReadBack, SignsReadBack};

/// Each line holds one list of tokens, and no other.
pub fn one_lexing()
    ensures at_most { OneLexing }
    ensures at_least { SomeTokens }
{}

/// A text that is written with its escapes is a text literal and stands for the text.
pub fn escapes_read_back()
    ensures { EscapesReadBack }
{}

/// A reserved word and a sign are read from their own characters.
pub fn words_read_back()
    ensures words { WordsReadBack }
    ensures signs { SignsReadBack }
{}
