ghost use Rattle.std.specs.Prelude.{◌≡◌, nat_le, ◌&&◌};
ghost use Rattle.std.specs.List.{list_all};
ghost use Rattle.mig_base.specs.Lines.{number_of};

/// The most digits of a number.
const MOST_DIGITS: usize = 9;

/// The number that a word of one to nine digits spells. `None` exactly where the word is no such one.
pub fn number(word: &[u8]) -> Option<u32>
    ensures { result ≡ number_of word.now }
{
    if word.is_empty() || word.len() > MOST_DIGITS || !all_digits(word) {
        return None;
    }
    let mut value: u32 = 0;
    for digit in word {
        value = value * 10 + (*digit - b'0') as u32;
    }
    Some(value)
}

fn all_digits(word: &[u8]) -> bool
    ensures { result ≡ list_all (λ b. nat_le 48 b && nat_le b 57) word.now }
{
    word.iter().all(|b| b'0' <= *b && *b <= b'9')
}
