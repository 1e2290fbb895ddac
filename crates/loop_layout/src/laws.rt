//! Laws of the canonical text: public functions with no body, whose contracts are the laws.

ghost use Rattle.loop_layout.specs.Laws.{LaidOut, ReadableWords, ReadableAtWords, ReadableSigns, ReadableTexts, ReadableNumbers};
ghost use Rattle.loop_layout.specs.Laws.{ReadableHeld, RowsAreLines, LaidOutLines, LaidOutUtf8, RowsUtf8, EscapedUtf8};
ghost use Rattle.loop_layout.specs.Laws.{NumbersUtf8, HeldUtf8, MeaningUtf8, CanonicalSpaces, CanonicalReadable, CanonicalUtf8};

/// Tokens that are laid out as the canonical text has them are read back: the longest tokens of the line are just they.
pub fn laid_out()
    ensures { LaidOut }
{}

/// Which tokens can be laid out: those whose bytes are that token. All words and signs are, texts with their escapes,
/// numbers of 64 bits, and each token that some line holds.
pub fn readable_tokens()
    ensures words { ReadableWords }
    ensures at_words { ReadableAtWords }
    ensures signs { ReadableSigns }
    ensures texts { ReadableTexts }
    ensures numbers { ReadableNumbers }
    ensures held { ReadableHeld }
{}

/// Rows that stand one below another are the lines of their text, each with its number.
pub fn rows_are_lines()
    ensures { RowsAreLines }
{}

/// Tokens that are laid out make one line: no LF stands in it, and it doesn't end with CR.
pub fn laid_out_lines()
    ensures { LaidOutLines }
{}

/// UTF-8 is kept on both ways: what is laid out of names, digits and texts that are UTF-8 is UTF-8, and so are the
/// names, digits and texts of a line that is.
pub fn laid_out_utf8()
    ensures line { LaidOutUtf8 }
    ensures rows { RowsUtf8 }
    ensures escaped { EscapedUtf8 }
    ensures numbers { NumbersUtf8 }
    ensures held { HeldUtf8 }
    ensures meaning { MeaningUtf8 }
{}

/// What is written of any line has a space wherever one must part two tokens, so that it is read back where each of its
/// tokens is.
pub fn canonical_spaces()
    ensures { CanonicalSpaces }
{}

/// What is written of a line is read back and is UTF-8 where the tokens that spelled the line are.
pub fn canonical_tokens()
    ensures readable { CanonicalReadable }
    ensures utf8 { CanonicalUtf8 }
{}
