// Theorems over the grammar.
ghost use Rattle.std.specs.Prelude.{◌≡◌, ℕ, List, Some, Ok};
ghost use Rattle.coda_script.specs.declared.line.Line.{Line};
ghost use Rattle.coda_script.specs.FirstColumn.{WrongColumnsAreFirst};
ghost use Rattle.coda_script.specs.FirstWrong.{WrongColumnsAreWrong};
ghost use Rattle.coda_script.specs.Lines.{line_of};
ghost use Rattle.coda_script.specs.Ranges.{InRange, OfBytes};
ghost use Rattle.coda_script.specs.Spelling.{Says};

/// Each line whose numbers, paths and texts are in their ranges has a spelling, and what is read from that is the line.
pub fn each_line_has_a_spelling()
    ensures { (said : Line) → InRange said → OfBytes said → (line : List ℕ) × Says line said × (line_of line ≡ Ok (Some said)) }
{}

/// A wrong column is not too early: no line of the grammar begins with the words before it and the word at it.
pub fn wrong_columns_are_wrong()
    ensures { WrongColumnsAreWrong }
{}

/// A wrong column is the first: some line begins with the words before it, but for `resolve V 8`, and none goes on with
/// the word at it. The kind that is told there is what was wanted: nothing more, a fixed word, a number, a path or a
/// quoted text. All else that may be wrong with a line is that it doesn't stand where it may.
pub fn wrong_columns_are_first()
    ensures { WrongColumnsAreFirst }
{}
