// The laws of the definitions, each by a function that does nothing.
ghost use Rattle.std.specs.Prelude.{◌≡◌, ◌∷◌, [], ℕ, List, Some, Contains};
ghost use Rattle.std.specs.List.{concat};
ghost use Rattle.std.specs.Str.Lines.{lines};
ghost use Rattle.volume_terms.specs.Names.{AreBytes};
ghost use Rattle.line_shell.specs.Lines.{whole_lines, lines_of};
ghost use Rattle.line_shell.specs.Replies.{newline};
ghost use Rattle.line_shell.specs.Words.{words, unescaped, spelled};

/// Bytes as a word are one word without a newline, and that word represents them.
pub fn what_is_spelled_is_one_word()
    ensures one_word { (text : List ℕ) → words (spelled text) ≡ spelled text ∷ [] }
    ensures no_newline { (text : List ℕ) → ¬ Contains (spelled text) newline }
    ensures reads_back { (text : List ℕ) → AreBytes text → unescaped (spelled text) ≡ Some text }
{}

/// The lines of an input with their ends are the input.
pub fn whole_lines_are_the_input()
    ensures { (input : List ℕ) → concat (whole_lines input) ≡ input }
{}

/// The lines of an input are what std's `lines` says.
pub fn the_lines_of_an_input_are_those_of_std()
    ensures { (input : List ℕ) → lines_of input ≡ lines input }
{}
