//! The values of options: numbers in a range.

ghost use Rattle.std.specs.Prelude.{◌≡◌, ◌≤◌, Some, option_map, option_and_then, IfSome};
ghost use Rattle.command_words.specs.Options.{number_of, within, value_by};
ghost use Rattle.command_words.specs.Command.{texts_of};
ghost use Rattle.command_words.specs.Views.{rule_of};

use crate::rule::OptionRule;

/// The number that one to twenty decimal digits write; `None` for any other text.
fn number(text: &str) -> Option<u128>
    ensures { result ≡ number_of text.now }
{
    let digits = text.as_bytes();
    if digits.is_empty() || digits.len() > 20 {
        return None;
    }
    let mut number: u128 = 0;
    for digit in digits {
        if !digit.is_ascii_digit() {
            return None;
        }
        number = number * 10 + (*digit - b'0') as u128;
    }
    Some(number)
}

/// The number that a text writes, where it is from `low` to `high`; else `None`.
fn number_within(text: &str, low: u64, high: u64) -> Option<u64>
    ensures { result ≡ option_and_then (within low high) (number_of text.now) }
{
    let number = number(text)?;
    if low as u128 <= number && number <= high as u128 {
        Some(number as u64)
    } else {
        None
    }
}

/// The value of an option: the number that its text writes, where this is in the option's range; without a text, the
/// default. `None` where that gives no number.
pub fn value_by(rule: &OptionRule<'_>, text: Option<&str>) -> Option<u64>
    ensures { result ≡ value_by (rule_of rule.now) (texts_of (option_map (λ t. t.now) text.entry)) }
{
    match text {
        None => rule.default,
        Some(text) => number_within(text, rule.low, rule.high),
    }
}
