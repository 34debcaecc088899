//! The roots that words name.

ghost use Rattle.std.specs.Prelude.{◌≡◌, map, string_bytes};
ghost use Rattle.run_view.specs.Roots.{IsNamed, root_named, root_number, roots_in};

use option_words::{Form, first_given, numeral};
use run_picture::RootName;
use std::alloc::{AllocError, Global};

/// Why words name no roots.
#[derive(Clone, Copy, Debug, PartialEq, Eq, Drop)]
pub enum WordsNo {
    /// They have no form.
    Form,
    /// There was no memory.
    Memory,
}

impl From<AllocError> for WordsNo {
    ghost use Rattle.run_view.specs.declared.roots.WordsNo.TheVariants.{Memory};

    ghost from_gives = { λ _ no. no ≡ Memory };

    fn from(_error: AllocError) -> WordsNo {
        WordsNo::Memory
    }
}

/// The options of this program.
struct RootForm;

impl Form for RootForm {
    ghost use Rattle.std.specs.Prelude.{⊤};
    ghost use Rattle.run_view.specs.Roots.{no_flag, root_given};

    type Given = RootName;

    ghost flag = { no_flag };

    ghost valued = { root_given };

    ghost sound = { λ _. Unit {0} };

    fn flag(_word: &str) -> Option<RootName> {
        None
    }

    fn is_flag(_word: &str) -> bool {
        false
    }

    fn valued(name: &str, text: &str) -> Option<RootName> {
        if name == "--root" {
            root_named(text)
        } else {
            None
        }
    }
}

// The root of a word, `P.G`.
#[tactic(auto, unfolding(crate::specs::Roots::root_named))]
fn root_named(word: &str) -> Option<RootName>
    ensures { result ≡ root_named word.now }
{
    let (place, generation) = word.split_once('.')?;
    let place = root_number(place)?;
    let generation = root_number(generation)?;
    Some(RootName { place, generation })
}

// The number of 1 to 20 decimal digits, where it has 32 bits.
#[tactic(auto, unfolding(crate::specs::Roots::root_number))]
fn root_number(text: &str) -> Option<u32>
    ensures { result ≡ root_number text.now }
{
    u32::try_from(numeral(text)?).ok()
}

/// The roots that words name, in their order: each by `--root P.G`, or by `--root=P.G` in one word.
pub fn roots_of(alloc: Global, words: &[String]) -> Result<Vec<RootName>, WordsNo>
    ensures { IsNamed result (roots_in (map string_bytes words.now)) }
{
    let mut roots = Vec::new(alloc);
    let mut left = words;
    while !left.is_empty() {
        let (root, rest) = first_given::<RootForm>(left).ok_or(WordsNo::Form)?;
        roots.push(root).map_err(AllocError::from)?;
        left = rest;
    }
    Ok(roots)
}
