// Theorems over words and texts.
ghost use Rattle.coda_text.specs.Laid.{LinesAreTheirWords};
ghost use Rattle.coda_text.specs.Pieces.{PiecesAreRead, WordsAreSpelled};

/// Each line is the gaps and the words that it falls into, in their order: each word stands at its column behind spaces and tabs
/// alone, and behind it stands such a byte or the line's end; what is left behind the last is a gap, and then what is no word.
pub fn lines_are_their_words()
    ensures { LinesAreTheirWords }
{}

/// Pieces between quotes, each a byte that stands for itself or an escape, are one word of a line, and stand for the bytes that they
/// stand for one by one.
pub fn pieces_are_read()
    ensures { PiecesAreRead }
{}

/// Each word of a line is bare, or such pieces between quotes.
pub fn words_are_spelled()
    ensures { WordsAreSpelled }
{}
