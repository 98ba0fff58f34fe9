//! A law of words. It has no code.

ghost use Rattle.std.specs.Prelude.{◌≡◌, ℕ, List, [], ◌++◌};
ghost use Rattle.record_text.specs.Words.{Word, after, whole_words, words_from};

/// However a text is cut in two, its words are those that end in the first piece, and then those of the
/// second after what the first left open.
pub fn pieces_do_not_matter()
    ensures { (line : ℕ) (word xs ys : List ℕ) → words_from line word (xs ++ ys)
        ≡ whole_words line word xs
        ++ words_from (after line word xs).line (after line word xs).text ys }
{}
