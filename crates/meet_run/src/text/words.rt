//! The words of a line, and numbers as words.

ghost use Rattle.std.specs.Prelude.{◌≡◌, ◌^◌, ◌<◌, ◌≤◌, true, false, IfSome, IfNone};
ghost use Rattle.std.specs.Option.{option_map};
ghost use Rattle.std.specs.Str.Parse.{AllDigits, digits_value};
ghost use Rattle.meet_run.specs.Texts.Words.{word_of, rest_of, behind, number_spelled, BeginsAsNumber};

/// Splits a text at its first space: what stands before it, and what is left from it on.
pub fn split_word(text: &[u8]) -> (&[u8], &[u8])
    ensures word { result.0.now ≡ word_of text.now }
    ensures rest { result.1.now ≡ rest_of text.now }
{
    let end = text.iter().position(|b| *b == b' ').unwrap_or(text.len());
    text.split_at(end)
}

/// Returns what stands after a prefix, if a text begins with it.
pub fn behind_prefix<'a>(prefix: &[u8], text: &'a [u8]) -> Option<&'a [u8]>
    ensures { option_map (λ rest. rest.now) result ≡ behind prefix.now text.now }
{
    text.strip_prefix(prefix)
}

/// Whether a word can't be a number's one spelling by how it begins: it is empty, or has a sign, or a 0 in front.
fn is_misspelled(word: &[u8]) -> bool
    ensures wrong { result ≡ true → number_spelled word.now ≡ None }
    ensures right { result ≡ false → BeginsAsNumber word.now }
{
    match word.first() {
        None => true,
        Some(b'0') => word.len() > 1,
        Some(first) => *first == b'+',
    }
}

/// The number that digits write, where each byte is one and the number is below 2^64.
fn read_digits(word: &[u8]) -> Option<u64>
    ensures read { IfSome result (λ number. AllDigits 10 word.now × (number ≡ digits_value 10 word.now)) }
    ensures small { IfSome result (λ number. number < 2 ^ 64) }
    ensures none { IfNone result (AllDigits 10 word.now → 2 ^ 64 ≤ digits_value 10 word.now) }
{
    let mut number = 0u64;
    for byte in word {
        if !byte.is_ascii_digit() {
            return None;
        }
        let digit = u64::from(*byte - b'0');
        number = match number.checked_mul(10) {
            Some(tens) => match tens.checked_add(digit) {
                Some(more) => more,
                None => return None,
            },
            None => return None,
        };
    }
    Some(number)
}

/// Returns the number below 2^64 of which this word is the one spelling, if there is one.
pub fn read_number(word: &[u8]) -> Option<u64>
    ensures { result ≡ number_spelled word.now }
{
    if is_misspelled(word) {
        return None;
    }
    read_digits(word)
}
