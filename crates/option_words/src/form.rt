//! Options as words, one after another.
ghost use Rattle.std.specs.Prelude.{◌≡◌, ◌<◌, true, length, map, string_bytes, IfSome, option_map};
ghost use Rattle.option_words.specs.Options.{first_given, given_alone, is_whole};

/// What the options of a program are.
pub trait Form {
    ghost use Rattle.std.specs.Prelude.{◌≡◌, ℕ, List, Option, IfSome, is_some};

    /// What an option gives.
    type Given;

    /// What a word gives that is an option without a value.
    ghost flag: { List ℕ → Option Self.Given };

    /// What the option of a name gives with the value of a text.
    ghost valued: { List ℕ → List ℕ → Option Self.Given };

    /// What holds of all that an option gives.
    ghost sound: { Self.Given → Type 0 };

    /// What a word gives; None where it is no option without a value.
    fn flag(word: &str) -> Option<Self::Given>
        ensures value { result ≡ flag word.now }
        ensures sound { IfSome result sound };

    /// Whether a word is an option without a value.
    fn is_flag(word: &str) -> bool
        ensures { result ≡ is_some (flag word.now) };

    /// What a name and a value give; None where there is no such option or it has no such value.
    fn valued(name: &str, text: &str) -> Option<Self::Given>
        ensures value { result ≡ valued name.now text.now }
        ensures sound { IfSome result sound };
}

/// What the first words give, and the words behind them. None where they are no option, and where
/// there are none.
pub fn first_given<F: Form>(words: &[String]) -> Option<(F::Given, &[String])>
    ensures value { option_map (λ p. (p.0, map string_bytes p.1.now)) result
        ≡ first_given F.flag F.valued (map string_bytes words.now) }
    ensures sound { IfSome result (λ p. F.sound p.0) }
    ensures shorter { IfSome result (λ p. length p.1.now < length words.now) }
{
    let (word, rest) = words.split_first()?;
    if is_whole::<F>(word.as_str()) {
        let given = given_alone::<F>(word.as_str())?;
        return Some((given, rest));
    }
    let (text, rest) = rest.split_first()?;
    let given = F::valued(word.as_str(), text.as_str())?;
    Some((given, rest))
}

// Whether a word is a whole option.
fn is_whole<F: Form>(word: &str) -> bool
    ensures { result ≡ is_whole F.flag F.valued word.now }
{
    F::is_flag(word) || word.split_once('=').is_some()
}

// What a word gives that is a whole option.
fn given_alone<F: Form>(word: &str) -> Option<F::Given>
    requires { is_whole F.flag F.valued word.now ≡ true }
    ensures value { result ≡ given_alone F.flag F.valued word.now }
    ensures sound { IfSome result F.sound }
{
    if F::is_flag(word) {
        return F::flag(word);
    }
    let (name, text) = word.split_once('=')?;
    F::valued(name, text)
}
