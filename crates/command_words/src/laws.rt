//! What the definitions say of all words, as laws.
ghost use Rattle.std.specs.Prelude.{◌≡◌, ℕ, List};
ghost use Rattle.command_words.specs.CommandLine.{Say};
ghost use Rattle.command_words.specs.declared.words.Words.{Words};

/// Words say one thing at most.
pub fn words_say_one_thing()
    ensures { (words : List (List ℕ)) (a b : Words) → Say words a → Say words b → a ≡ b }
{}
