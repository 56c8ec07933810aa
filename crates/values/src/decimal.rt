// Decimal numbers.
// A number past 32 bits counts as the most that they hold: no medium has as many blocks.
ghost use Rattle.std.specs.Prelude.{◌≡◌, ◌+◌, ◌*◌};
ghost use Rattle.values.specs.Decimals.{capped, digit_said, decimal_said};

fn digit(c: u8) -> Option<u32>
    ensures { result ≡ digit_said c }
{
    char::from(c).to_digit(10)
}

// One digit more behind a number.
fn with_digit(number: u32, digit: u32) -> u32
    ensures { result ≡ capped (10 * number + digit) }
{
    number.saturating_mul(10).saturating_add(digit)
}

// The number that decimal digits say; none where there is no digit, or another character.
pub fn read_decimal(text: &[u8]) -> Option<u32>
    ensures { result ≡ decimal_said text.now }
{
    if text.is_empty() {
        return None;
    }
    let mut number = 0;
    for c in text {
        number = with_digit(number, digit(*c)?);
    }
    Some(number)
}
