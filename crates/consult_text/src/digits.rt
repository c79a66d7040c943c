//! The values of digits.
ghost use Rattle.std.specs.Prelude.{◌≡◌, ◌<◌, ◌^◌, MatchOption};
ghost use Rattle.kb_text.specs.Tokens.{decimal};
ghost use Rattle.consult_text.specs.Budgets.{IsBudget, IsUpTo};

/// The greatest budget that is a number.
pub(crate) const MOST_BUDGET: u64 = 1_000_000_000_000;

/// As many models may be asked for at once.
pub(crate) const MOST_MODELS: u64 = 1_000;

pub(crate) fn digits_value(digits: &[u8]) -> u64
    requires { decimal digits.now < 2 ^ 63 }
    ensures { result ≡ decimal digits.now }
{
    let mut value: u64 = 0;
    for digit in digits {
        value = 10 * value + u64::from(digit.saturating_sub(b'0'));
    }
    value
}

/// The value of digits that are a number from 1 to the limit.
pub(crate) fn number_up_to(digits: &[u8], limit: u64) -> Option<u64>
    requires { limit < 2 ^ 60 }
    ensures { MatchOption result (IsUpTo limit digits.now → ⊥)
        (λ n. IsUpTo limit digits.now × (n ≡ decimal digits.now)) }
{
    let mut value: u64 = 0;
    for digit in digits {
        value = 10 * value + u64::from(digit.saturating_sub(b'0'));
        if value > limit {
            return None;
        }
    }
    if value == 0 { None } else { Some(value) }
}

/// The value of digits that are a budget: a number from 1 to 1,000,000,000,000.
pub fn budget_of(digits: &[u8]) -> Option<u64>
    ensures { MatchOption result (IsBudget digits.now → ⊥) (λ n. IsBudget digits.now × (n ≡ decimal digits.now)) }
{
    number_up_to(digits, MOST_BUDGET)
}
