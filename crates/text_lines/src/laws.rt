//! Laws of the definitions, over all lists of bytes.

ghost use Rattle.std.specs.Prelude.{◌≡◌, ◌++◌, ℕ, List};
ghost use Rattle.std.specs.List.{AllByRecursion};
ghost use Rattle.text_lines.specs.Lines.{HasNoFeed, last_line_of, lines_with_returns, text_of};

/// Lines that are put together to a text are the lines of that text.
pub fn reads_lines_back()
    ensures { (ls : List (List ℕ)) (last : List ℕ) → AllByRecursion HasNoFeed ls → HasNoFeed last
        → lines_with_returns (text_of ls last) ≡ ls ++ last_line_of last }
{}
