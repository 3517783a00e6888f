//! The values that meet a test, as a range of numbers or of codes.

ghost use Rattle.std.specs.Prelude.{◌≡◌, ◌<◌, ◌≤◌, ◌^◌, ℕ, ◌&&◌, not, nat_lt, option_map, IsTrue, IfSome, None};
ghost use Rattle.std.specs.List.{AllByRecursion};
ghost use Rattle.definitions_queries.specs.Queries.{of_number};
ghost use Rattle.catalog_core.specs.Dictionaries.{AreTexts};
ghost use Rattle.query_text.specs.Views.{literal_view, test_view};
ghost use Rattle.query_bind.specs.Binding.{literals_of, fits};
ghost use Rattle.plan_core.specs.Meaning.{meets, code_meets};
ghost use Rattle.plan_core.specs.Ranges.{is_in, kind_with, is_range, count_below, count_through, count_all, start_of, end_of};

use catalog_core::{Dictionary, codes_and_ranks};
use query_text::{Literal, Test};

/// Numbers or codes from `low` to `high`, both included; none if `low` is above `high`.
#[derive(Clone, Copy, Debug, PartialEq, Eq)]
pub struct CodeRange {
    pub low: u64,
    pub high: u64,
}

/// How many numbers there are.
const NUMBERS: u128 = 1 << 64;

/// The numbers from a start on that are below an end.
fn range_between(start: u128, end: u128) -> CodeRange
    requires { end ≤ 2 ^ 64 }
    ensures { (number : ℕ) → is_in result number ≡ (not (nat_lt number start) && nat_lt number end) }
{
    if start < end {
        CodeRange {
            low: start as u64,
            high: (end - 1) as u64,
        }
    } else {
        CodeRange { low: 1, high: 0 }
    }
}

/// How many numbers or codes come before a literal.
fn count_below(literal: &Literal, dictionary: Option<&Dictionary>) -> u128
    ensures count { result ≡ count_below (option_map (λ texts. texts.now) dictionary.entry) (literal_view literal.now) }
    ensures small { result ≤ 2 ^ 64 }
{
    match (literal, dictionary) {
        (Literal::Number(value), None) => u128::from(*value),
        (Literal::Text(bytes), Some(dictionary)) => {
            u128::from(dictionary.rank_below(bytes.as_slice()))
        }
        _ => 0,
    }
}

/// How many numbers or codes come before a literal or are equal to it.
fn count_through(literal: &Literal, dictionary: Option<&Dictionary>) -> u128
    ensures count { result ≡ count_through (option_map (λ texts. texts.now) dictionary.entry) (literal_view literal.now) }
    ensures small { result ≤ 2 ^ 64 }
{
    match (literal, dictionary) {
        (Literal::Number(value), None) => u128::from(*value) + 1,
        (Literal::Text(bytes), Some(dictionary)) => {
            u128::from(dictionary.rank_through(bytes.as_slice()))
        }
        _ => 0,
    }
}

/// How many numbers or codes there are.
fn count_all(dictionary: Option<&Dictionary>) -> u128
    ensures count { result ≡ count_all (option_map (λ texts. texts.now) dictionary.entry) }
    ensures small { result ≤ 2 ^ 64 }
    ensures lawful { IfSome dictionary.entry (λ texts. AreTexts texts.now) }
{
    match dictionary {
        None => NUMBERS,
        Some(dictionary) => u128::from(dictionary.count()),
    }
}

/// Where the range of a test starts and where it ends, which is not in it.
fn bounds_of(test: &Test, dictionary: Option<&Dictionary>) -> (u128, u128)
    ensures start { result.0 ≡ start_of (option_map (λ texts. texts.now) dictionary.entry) (test_view test.now) }
    ensures end { result.1 ≡ end_of (option_map (λ texts. texts.now) dictionary.entry) (test_view test.now) }
    ensures small { result.1 ≤ 2 ^ 64 }
    ensures lawful { IfSome dictionary.entry (λ texts. AreTexts texts.now) }
{
    let all = count_all(dictionary);
    match test {
        Test::Equal(value) => (
            count_below(value, dictionary),
            count_through(value, dictionary),
        ),
        Test::Below(value) => (0, count_below(value, dictionary)),
        Test::AtMost(value) => (0, count_through(value, dictionary)),
        Test::Above(value) => (count_through(value, dictionary), all),
        Test::AtLeast(value) => (count_below(value, dictionary), all),
        Test::Between(low, high) => (
            count_below(low, dictionary),
            count_through(high, dictionary),
        ),
        Test::OneOf(_) => (0, 0),
    }
}

/// The numbers below 2^64 that meet a test, or with a column's dictionary the codes of the texts that do. A text that is not in the
/// dictionary has its place among the texts: so `= 'x'` may have no codes, and `< 'x'` has those of the texts before it.
///
/// The test is not `in`, and its literals are numbers without a dictionary and texts with one.
pub fn range_of(test: &Test, dictionary: Option<&Dictionary>) -> CodeRange
    requires range { IsTrue (is_range (test_view test.now)) }
    requires fit { AllByRecursion (λ literal. IsTrue (fits (kind_with (option_map (λ texts. texts.now) dictionary)) literal)) (literals_of (test_view test.now)) }
    ensures numbers { dictionary.entry ≡ None → (number : ℕ) → number < 2 ^ 64 → is_in result number ≡ meets (test_view test.now) (of_number number) }
    ensures codes { IfSome dictionary.entry (λ texts. (code : ℕ) → is_in result code ≡ code_meets texts.now (test_view test.now) code) }
{
    codes_and_ranks();
    let (start, end) = bounds_of(test, dictionary);
    range_between(start, end)
}
