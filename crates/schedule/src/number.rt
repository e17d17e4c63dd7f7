// Numbers as a schedule writes them: decimal digits, hexadecimal digits, raw words.
ghost use Rattle.std.specs.Prelude.{◌≡◌, ℕ, ◌<◌, ◌≤◌, ◌^◌, drop};
ghost use Rattle.std.specs.Option.{SomeIff};
ghost use Rattle.std.specs.Str.Parse.{IsNumeral, digits_value};
ghost use Rattle.std.specs.Char.{digit_value};
ghost use Rattle.schedule.specs.Numbers.{Hexadecimal, RawWord};

// The number that decimal digits write, without a sign.
fn unsigned(text: &str) -> Option<u32>
    ensures { SomeIff result (IsNumeral 10 text.now × (digits_value 10 text.now < 2 ^ 32)) (digits_value 10 text.now) }
{
    if text.starts_with('+') {
        return None;
    }
    text.parse().ok()
}

// The number that decimal digits write, unless it is above the most that is allowed.
pub fn decimal(text: &str, most: u32) -> Option<u32>
    ensures { SomeIff result (IsNumeral 10 text.now × (digits_value 10 text.now ≤ most)) (digits_value 10 text.now) }
{
    unsigned(text).filter(|n| *n <= most)
}

// The value of a hexadecimal digit, in small or capital letters.
pub fn hex_digit(b: u8) -> Option<u8>
    ensures { SomeIff result (digit_value b < 16) (digit_value b) }
{
    char::from(b).to_digit(16).map(|digit| digit as u8)
}

// The number that one to eight hexadecimal digits write. Digit by digit: were these read by std too, the radix of decimal
// numbers would no longer be one that the compiler knows, and long ones would take half as long again.
fn hexadecimal(digits: &[u8]) -> Option<u32>
    ensures { SomeIff result (Hexadecimal digits.now) (digits_value 16 digits.now) }
{
    if digits.is_empty() || digits.len() > 8 {
        return None;
    }
    let mut n: u32 = 0;
    for b in digits {
        let Some(digit) = hex_digit(*b) else {
            return None;
        };
        n = n * 16 + u32::from(digit);
    }
    Some(n)
}

// The word that `0x` and one to eight hexadecimal digits write.
#[tactic(auto, using(crate::proofs::Numerals::raw))]
pub fn raw_word(text: &str) -> Option<u32>
    ensures { SomeIff result (RawWord text.now) (digits_value 16 (drop 2 text.now)) }
{
    let digits = text.strip_prefix("0x")?;
    hexadecimal(digits.as_bytes())
}
