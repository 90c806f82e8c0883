// The word of each call's answer. A value has to fit its part of the word; the calls' values do.
ghost use Rattle.std.specs.Prelude.{Ok, ◌≡◌, ℕ, ◌<◌};
ghost use Rattle.subsumption.specs.declared.verdict.Verdict.TheVariants as verdict;
ghost use Rattle.interface.specs.Word.{common_word, normalized_word, number_word, read_word};
ghost use Rattle.interface.specs.Word.{selected_word, value_range, verdict_word, verified_word};

use crate::word::{NO, YES, refusal_word, value_word};
use evidence::check::Taken;
use picture::answer::Refusal;
use subsumption::verdict::Verdict;

// A row count, or the length of a table or of a common picture.
pub fn number_word(answer: Result<usize, Refusal>) -> u64
    requires { (n : ℕ) → answer ≡ Ok n → n < value_range }
    ensures { result ≡ number_word answer }
{
    match answer {
        Ok(n) => value_word(YES, n as u64),
        Err(refusal) => refusal_word(refusal),
    }
}

pub fn read_word(answer: Result<usize, Refusal>) -> u64
    requires { (n : ℕ) → answer ≡ Ok n → n < value_range }
    ensures { result ≡ read_word answer }
{
    number_word(answer)
}

pub fn normalized_word(length: Result<usize, Refusal>) -> u64
    requires { (n : ℕ) → length ≡ Ok n → n < value_range }
    ensures { result ≡ normalized_word length }
{
    number_word(length)
}

pub fn verdict_word(answer: Result<Verdict, Refusal>) -> u64
    requires { (n : ℕ) → (answer ≡ Ok (verdict.Yes n) → n < value_range) × (answer ≡ Ok (verdict.No n) → n < value_range) }
    ensures { result ≡ verdict_word answer }
{
    match answer {
        Ok(Verdict::Yes(n)) => value_word(YES, n as u64),
        Ok(Verdict::No(n)) => value_word(NO, n as u64),
        Err(refusal) => refusal_word(refusal),
    }
}

pub fn common_word(size: Result<usize, Refusal>) -> u64
    requires { (n : ℕ) → size ≡ Ok n → n < value_range }
    ensures { result ≡ common_word size }
{
    number_word(size)
}

pub fn verified_word(answer: Result<Taken, Refusal>) -> u64
    ensures { result ≡ verified_word answer }
{
    match answer {
        Ok(Taken::Map) => value_word(YES, 0),
        Ok(Taken::Refutation) => value_word(NO, 0),
        Err(refusal) => refusal_word(refusal),
    }
}

pub fn selected_word(answer: Result<u32, Refusal>) -> u64
    ensures { result ≡ selected_word answer }
{
    match answer {
        Ok(word) => value_word(YES, word as u64),
        Err(refusal) => refusal_word(refusal),
    }
}
