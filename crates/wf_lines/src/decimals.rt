ghost use Rattle.std.specs.Prelude.{◌≡◌, ◌<◌, ◌≤◌, ◌^◌, ◌≤ℤ◌, Some, IfSome, option_and_then};
ghost use Rattle.wf_lines.specs.Decimals.{digit_on, in_word, value_from, natural_of, negative_of, as_long, integer_of, natural_in, integer_in};

/// The number behind one more digit, where it is below 2^64.
fn digit_on(n: u64, b: u8) -> Option<u64>
    ensures { result ≡ digit_on n b }
{
    match b {
        b'0'..=b'9' => n.checked_mul(10)?.checked_add(u64::from(b - b'0')),
        _ => None,
    }
}

#[tactic(auto, using(crate::proofs::Digits::goes_on, crate::proofs::Digits::stops, crate::proofs::Digits::ends))]
/// The number of these digits, where it is below 2^64.
fn value_of(digits: &[u8]) -> Option<u64>
    ensures { result ≡ option_and_then in_word (value_from 0 digits.now) }
{
    let mut value = 0;
    for b in digits {
        value = digit_on(value, *b)?;
    }
    Some(value)
}

/// A decimal without leading zeros, where it is below 2^64.
fn natural_of(word: &[u8]) -> Option<u64>
    ensures { result ≡ option_and_then in_word (natural_of word.now) }
{
    match word {
        [] | [b'0', _, ..] => None,
        _ => value_of(word),
    }
}

/// The number with `-` before it, where that isn't 0 and takes at most 64 bits.
fn negative_of(n: u64) -> Option<i64>
    ensures { result ≡ option_and_then as_long (negative_of (Some n)) }
{
    if n == 0 {
        return None;
    }
    i64::try_from(-i128::from(n)).ok()
}

/// A decimal, with `-` before it or without, of at most 64 bits.
fn integer_of(word: &[u8]) -> Option<i64>
    ensures { result ≡ option_and_then as_long (integer_of word.now) }
{
    match word {
        [b'-', digits @ ..] => negative_of(natural_of(digits)?),
        _ => i64::try_from(natural_of(word)?).ok(),
    }
}

#[tactic(auto, using(crate::proofs::Digits::narrowed_natural, crate::proofs::Digits::at_most_within, crate::proofs::Digits::at_most_above))]
/// The decimal that a word is, without leading zeros, where it is at most so much.
pub fn natural_in(most: u64, word: &[u8]) -> Option<u64>
    ensures number { result ≡ natural_in most word.now }
    ensures range { IfSome result (λ n. n ≤ most) }
{
    let n = natural_of(word)?;
    if n > most {
        return None;
    }
    Some(n)
}

#[tactic(auto, using(crate::proofs::Digits::narrowed))]
/// The decimal that a word is, with `-` before it if it is negative, where it is from least to most.
pub fn integer_in(least: i64, most: i64, word: &[u8]) -> Option<i64>
    ensures number { result ≡ integer_in least most word.now }
    ensures range { IfSome result (λ n. (least ≤ℤ n) × (n ≤ℤ most)) }
{
    let n = integer_of(word)?;
    if n < least || n > most {
        return None;
    }
    Some(n)
}
