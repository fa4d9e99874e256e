// Decimal numbers.
ghost use Rattle.std.specs.Prelude.{◌≡◌, ◌+◌, ◌*◌, ◌-◌, min};
ghost use Rattle.card.specs.Number.{largest};
ghost use Rattle.card.specs.Answers.{DigitsIs};

use support::bytes::part;

// The number that digits write, and the offset behind them.
#[derive(Clone, Copy)]
pub struct Digits {
    pub value: u32,
    pub end: usize,
}

// A number with one more digit. One that would pass the largest stays there.
fn grown(value: u32, digit: u8) -> u32
    ensures { result ≡ min (value * 10 + (digit - 48)) largest }
{
    value
        .saturating_mul(10)
        .saturating_add(u32::from(digit.saturating_sub(b'0')))
}

// The digits from offset `at` on.
pub fn read_digits(s: &[u8], at: usize) -> Digits
    ensures { DigitsIs s.now at result }
{
    let mut value = 0;
    let mut end = at;
    // Stays: the value and the end are found in one pass.
    for c in part(s, at, s.len()) {
        if !c.is_ascii_digit() {
            break;
        }
        value = grown(value, *c);
        end += 1;
    }
    Digits { value, end }
}
