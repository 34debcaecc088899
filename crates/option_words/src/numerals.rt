//! Numbers as words.
ghost use Rattle.std.specs.Prelude.{◌≡◌, ◌<◌, ◌^◌, ◌&&◌, nat_lt, Some, None, if◌then◌else◌};
ghost use Rattle.std.specs.Char.{is_ascii_digit};
ghost use Rattle.std.specs.List.{list_all};
ghost use Rattle.option_words.specs.Numerals.{is_numeral, number_of};

/// The number of 1 to 20 decimal digits, where it is one of 64 bits.
pub fn numeral(text: &str) -> Option<u64>
    ensures { result ≡ number_of text.now }
{
    if is_numeral(text) {
        text.parse().ok()
    } else {
        None
    }
}

// Whether a text is 1 to 20 decimal digits.
fn is_numeral(text: &str) -> bool
    ensures { result ≡ is_numeral text.now }
{
    !text.is_empty() && text.len() <= 20 && are_digits(text)
}

fn are_digits(text: &str) -> bool
    ensures { result ≡ list_all is_ascii_digit text.now }
{
    text.bytes().all(|byte| byte.is_ascii_digit())
}
