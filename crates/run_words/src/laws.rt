//! Laws over the definitions. Each is the contract of a function that does nothing.
ghost use Rattle.std.specs.Prelude.{◌≡◌, ◌↔◌, ℕ, List, Some};
ghost use Rattle.run_words.specs.declared.words.RunOptions.{RunOptions};
ghost use Rattle.run_words.specs.WordForm.{HasForm};
ghost use Rattle.run_words.specs.Words.{options_of};

/// Words are read as options exactly where they are written as these: in any order, each at most
/// once, as one word or two, with a number in its range, and with chunks within their bound.
pub fn words_have_their_form()
    ensures form { (words : List (List ℕ)) (options : RunOptions) →
        (options_of words ≡ Some options) ↔ HasForm words options }
{}
