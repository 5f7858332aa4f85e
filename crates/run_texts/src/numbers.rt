ghost use Rattle.std.specs.Prelude.{◌≡◌, ◌≤◌, ◌<◌, ◌^◌, length, IfSome};
ghost use Rattle.run_texts.specs.Text.{numeral, decimal, hexadecimal};

/// The number that digits of a radix write, `None` where a byte is no such digit.
fn number(digits: &[u8], radix: u32) -> Option<u64>
    requires least { 2 ≤ radix }
    requires most { radix ≤ 16 }
    requires short { length digits.now ≤ 10 }
    ensures value { result ≡ numeral radix digits.now }
    ensures small { IfSome result (λ value. value < radix ^ length digits.now) }
{
    let mut value = 0;
    for digit in digits {
        let digit = char::from(*digit).to_digit(radix)?;
        value = value * u64::from(radix) + u64::from(digit);
    }
    Some(value)
}

/// The number that a field of 1 to 10 decimal digits writes, `None` where the field is not of this form.
#[tactic(auto, unfolding(crate::specs::Text::decimal))]
pub fn decimal(field: &[u8]) -> Option<u64>
    ensures { result ≡ decimal field.now }
{
    if field.is_empty() || field.len() > 10 {
        return None;
    }
    number(field, 10)
}

/// The number that a field of 8 hexadecimal digits writes, `None` where the field is not of this form.
#[tactic(auto, unfolding(crate::specs::Text::hexadecimal))]
pub fn hexadecimal(field: &[u8]) -> Option<u32>
    ensures { result ≡ hexadecimal field.now }
{
    if field.len() != 8 {
        return None;
    }
    let value = number(field, 16)?;
    Some(value as u32)
}
