//! Sets of numbers, by bits: the least one is found word by word.

ghost use Rattle.std.specs.Prelude.{◌≡◌, ◌≢◌, ℕ, ◌*◌, ◌<◌, ◌≤◌, ◌==◌, nat_lt, not, if◌then◌else◌, length, position};
ghost use Rattle.std.specs.Prelude.{IfOk, MatchOption};
ghost use Rattle.std.specs.Int.{bit_at};
ghost use Rattle.pool_core.specs.Limits.{most_together};
ghost use Rattle.pool_core.specs.Numbers.{holds};

use std::alloc::{AllocError, Global};

/// A set of numbers, a bit each: few words, of 64 numbers.
#[derive(Drop)]
pub(crate) struct Numbers {
    words: Vec<u64>,
    ghost few: { 64 * length words.items ≤ most_together },
}

impl Numbers {
    /// No number, and room for those below this one.
    pub(crate) fn none(alloc: Global, below: u64) -> Result<Self, AllocError>
        requires { below ≤ most_together }
        ensures room { IfOk result (λ made. below ≤ 64 * length made.words.items) }
        ensures none { IfOk result (λ made. (n : ℕ) → holds made.words.items n ≡ 0) }
    {
        let words = vec![in alloc; 0; below.div_ceil(64) as usize]?;
        Ok(Numbers { words })
    }

    /// All numbers below this one.
    pub(crate) fn all(alloc: Global, below: u64) -> Result<Self, AllocError>
        requires { below ≤ most_together }
        ensures room { IfOk result (λ made. below ≤ 64 * length made.words.items) }
        ensures all { IfOk result
            (λ made. (n : ℕ) → holds made.words.items n ≡ (if nat_lt n below then 1 else 0)) }
    {
        let mut all = Numbers::none(alloc, below)?;
        for number in 0..below {
            all.put(number, true);
        }
        Ok(all)
    }

    /// The least number in it.
    pub(crate) fn least(&self) -> Option<u64>
        ensures { MatchOption result ((n : ℕ) → holds self.now.words.items n ≡ 0)
            (λ least. (holds self.now.words.items least ≡ 1)
            × ((n : ℕ) → n < least → holds self.now.words.items n ≡ 0)) }
    {
        let Some(place) = first_word(&self.words) else {
            return None;
        };
        let bit = lowest_bit(self.words[place]);
        Some(place as u64 * 64 + bit)
    }

    /// From now on a number is in it, or isn't.
    #[inline(always)]
    pub(crate) fn put(&mut self, number: u64, is: bool)
        requires { number < 64 * length self.old.words.items }
        ensures room { length self.new.words.items ≡ length self.old.words.items }
        ensures own { holds self.new.words.items number ≡ (if is then 1 else 0) }
        ensures others { (n : ℕ) → n ≢ number → holds self.new.words.items n ≡ holds self.old.words.items n }
    {
        let place = (number / 64) as usize;
        let word = self.words[place];
        self.words[place] = with_bit(word, number % 64, is);
    }

    /// The same of a number of which the caller says whether it was in it. If that stays so, it writes nothing: other
    /// threads keep what they have of the set in their caches.
    #[inline(always)]
    pub(crate) fn change(&mut self, number: u64, was: bool, is: bool)
        requires within { number < 64 * length self.old.words.items }
        requires was { holds self.old.words.items number ≡ (if was then 1 else 0) }
        ensures room { length self.new.words.items ≡ length self.old.words.items }
        ensures own { holds self.new.words.items number ≡ (if is then 1 else 0) }
        ensures others { (n : ℕ) → n ≢ number → holds self.new.words.items n ≡ holds self.old.words.items n }
    {
        if was != is {
            self.put(number, is);
        }
    }
}

/// The first word that isn't empty.
fn first_word(words: &[u64]) -> Option<usize>
    ensures { result ≡ position (λ word. not (word == 0)) words.now }
{
    words.iter().position(|word| *word != 0)
}

/// The lowest bit of a word that is one.
fn lowest_bit(word: u64) -> u64
    requires { 0 < word }
    ensures within { result < 64 }
    ensures is { bit_at word result ≡ 1 }
    ensures least { (k : ℕ) → k < result → bit_at word k ≡ 0 }
{
    u64::from(word.trailing_zeros())
}

/// A word with this bit one or zero.
#[inline(always)]
fn with_bit(word: u64, bit: u64, is: bool) -> u64
    requires { bit < 64 }
    ensures own { bit_at result bit ≡ (if is then 1 else 0) }
    ensures others { (k : ℕ) → k < 64 → k ≢ bit → bit_at result k ≡ bit_at word k }
{
    let mask = 1u64 << bit;
    if is { word | mask } else { word & !mask }
}
