ghost use Rattle.std.specs.Prelude.{◌≡◌};
ghost use Rattle.text.specs.Numbers.{number_read, number_of_digits};

const MOST_DIGITS: usize = 10;

// The number that the digits write, unless a byte is no digit or the number too large.
fn read(digits: &[u8]) -> Option<u32>
    ensures { result ≡ number_read digits.now }
{
    digits.iter().try_fold(0, |number: u32, b| {
        let digit = char::from(*b).to_digit(10)?;
        number.checked_mul(10)?.checked_add(digit)
    })
}

// The number of a word that begins with a digit.
pub fn value(digits: &[u8]) -> Option<u32>
    ensures { result ≡ number_of_digits digits.now }
{
    match digits {
        [b'0', _, ..] => None,
        _ if digits.len() > MOST_DIGITS => None,
        _ => read(digits),
    }
}
