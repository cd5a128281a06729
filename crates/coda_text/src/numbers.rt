ghost use Rattle.std.specs.Prelude.{◌≡◌, length};
ghost use Rattle.coda_text.specs.Numbers.{with_digit, number_from, number_of, with_octal, octal_from, octal_of};

/// The most decimal digits of a number.
const MOST_DIGITS: usize = 20;

/// The most octal digits of a mode.
const MOST_OCTAL_DIGITS: usize = 5;

fn with_digit(number: u64, digit: u8) -> Option<u64>
    ensures { result ≡ with_digit number digit }
{
    if digit < b'0' || digit > b'9' {
        return None;
    }
    let value = u64::from(digit - b'0');
    if number > (u64::MAX - value) / 10 {
        return None;
    }
    Some(number * 10 + value)
}

fn number_from_digits(word: &[u8]) -> Option<u64>
    ensures { result ≡ number_from 0 word.now }
{
    let mut number = 0;
    for digit in word {
        number = with_digit(number, *digit)?;
    }
    Some(number)
}

/// The number that a word is: 1 to 20 decimal digits, below 2^64. It may begin with zeros.
pub fn number(word: &[u8]) -> Option<u64>
    ensures { result ≡ number_of word.now }
{
    if word.is_empty() || word.len() > MOST_DIGITS {
        return None;
    }
    number_from_digits(word)
}

fn with_octal(number: u16, digit: u8) -> Option<u16>
    ensures { result ≡ with_octal number digit }
{
    if digit < b'0' || digit > b'7' {
        return None;
    }
    let value = u16::from(digit - b'0');
    if number > (4095 - value) / 8 {
        return None;
    }
    Some(number * 8 + value)
}

fn octal_from_digits(word: &[u8]) -> Option<u16>
    ensures { result ≡ octal_from 0 word.now }
{
    let mut number = 0;
    for digit in word {
        number = with_octal(number, *digit)?;
    }
    Some(number)
}

/// The mode that a word is: 1 to 5 octal digits, at most 7777. It may begin with zeros.
pub fn octal(word: &[u8]) -> Option<u16>
    ensures { result ≡ octal_of word.now }
{
    if word.is_empty() || word.len() > MOST_OCTAL_DIGITS {
        return None;
    }
    octal_from_digits(word)
}
