//! Lists of numbers, as `64,256,1024` and `16..1024`.
ghost use Rattle.std.specs.Prelude.{◌≡◌, ◌≤◌, ◌<◌, ◌^◌, IfOk, IfSome, length, map, option_map};
ghost use Rattle.bp_trace.specs.NumberLists.{cut, doubled, ends_of, has_repeats, most_listed, number_between};
ghost use Rattle.bp_trace.specs.NumberLists.{numbers_between, numbers_listed, parts_of, range_between, with_commas};

use crate::decimal::parse_number;
use std::alloc::{AllocError, Global};

/// The most numbers that a list may have.
pub const MAX_LISTED: usize = 64;

/// Returns the number that a text says, or None where it says none from `low` to `high`.
fn number_between(text: &str, low: usize, high: usize) -> Option<usize>
    ensures number { result ≡ number_between low high text.now }
    ensures most { IfSome result (λ n. n ≤ high) }
{
    let number = parse_number(text.as_bytes())? as usize;
    if low <= number && number <= high {
        Some(number)
    } else {
        None
    }
}

fn parts_of(alloc: Global, text: &str) -> Result<Vec<&str>, AllocError>
    ensures { IfOk result (λ parts. map (λ part. part.now) parts.items ≡ parts_of text.now) }
{
    text.split(',').collect(alloc)
}

/// Returns the numbers that texts say, or None where one of them says none from `low` to `high`.
fn numbers_between(
    alloc: Global,
    parts: &[&str],
    low: usize,
    high: usize,
) -> Result<Option<Vec<usize>>, AllocError>
    ensures { IfOk result (λ numbers. option_map (λ v. v.items) numbers
        ≡ numbers_between low high (map (λ part. part.now) parts.now)) }
{
    let mut numbers = Vec::new(alloc);
    for part in parts {
        let Some(number) = number_between(part, low, high) else {
            return Ok(None);
        };
        numbers.push(number)?;
    }
    Ok(Some(numbers))
}

/// Returns true if a number occurs twice.
fn has_repeats(numbers: &[usize]) -> bool
    ensures { result ≡ has_repeats numbers.now }
{
    let mut left = numbers;
    while let Some((first, later)) = left.split_first() {
        if later.contains(first) {
            return true;
        }
        left = later;
    }
    false
}

/// Returns the numbers that a text says, with commas between them. It is None where one is not from `low` to `high`, or
/// two are equal.
fn with_commas(
    alloc: Global,
    text: &str,
    low: usize,
    high: usize,
) -> Result<Option<Vec<usize>>, AllocError>
    ensures { IfOk result (λ numbers. option_map (λ v. v.items) numbers
        ≡ with_commas low high text.now) }
{
    let parts = parts_of(alloc, text)?;
    if parts.len() > MAX_LISTED {
        return Ok(None);
    }
    let Some(listed) = numbers_between(alloc, parts.as_slice(), low, high)? else {
        return Ok(None);
    };
    if has_repeats(&listed) {
        return Ok(None);
    }
    Ok(Some(listed))
}

/// Splits a text at its first dot.
fn cut(text: &str) -> Option<(&str, &str)>
    ensures { option_map (λ p. (p.0.now, p.1.now)) result ≡ cut text.now }
{
    text.split_once('.')
}

/// Splits a range at its two dots.
fn ends_of(text: &str) -> Option<(&str, &str)>
    ensures { option_map (λ p. (p.0.now, p.1.now)) result ≡ ends_of text.now }
{
    let (first, rest) = cut(text)?;
    let (between, last) = cut(rest)?;
    if between.is_empty() {
        Some((first, last))
    } else {
        None
    }
}

/// Returns the numbers from `first` on, each the double of the one before, while they are below `last`, and then
/// `last`.
fn doubled(alloc: Global, first: usize, last: usize) -> Result<Vec<usize>, AllocError>
    requires { last < 2 ^ 63 }
    ensures { IfOk result (λ numbers. numbers.items ≡ doubled most_listed first last) }
{
    let mut numbers = Vec::new(alloc);
    let mut next = first;
    for _ in 0..MAX_LISTED {
        if next >= last {
            numbers.push(last)?;
            return Ok(numbers);
        }
        numbers.push(next)?;
        next *= 2;
    }
    Ok(numbers)
}

/// Returns the numbers of a range with these ends. It is None where an end is not from `low` to `high`, the first is 0,
/// or the last is below the first.
fn range_between(
    alloc: Global,
    first: &str,
    last: &str,
    low: usize,
    high: usize,
) -> Result<Option<Vec<usize>>, AllocError>
    requires { high < 2 ^ 63 }
    ensures { IfOk result (λ numbers. option_map (λ v. v.items) numbers
        ≡ range_between low high first.now last.now) }
{
    let Some(from) = number_between(first, low, high) else {
        return Ok(None);
    };
    let Some(to) = number_between(last, low, high) else {
        return Ok(None);
    };
    if from == 0 || to < from {
        return Ok(None);
    }
    let range = doubled(alloc, from, to)?;
    Ok(Some(range))
}

/// Parses a list of different numbers, each from `low` to `high`. It is 1 to 64 numbers with commas between them, or a
/// range `FIRST..LAST`: FIRST, its double, the double of that and so on while they are below LAST, and then LAST. Each
/// number of the text has 1 to 19 decimal digits, without signs or spaces.
///
/// It is `None` where the text is no such list: it or a part is empty, a part is no number within the limits, there are
/// too many numbers, one occurs twice, FIRST is 0, or LAST is below FIRST.
pub fn numbers_listed(
    alloc: Global,
    text: &str,
    low: usize,
    high: usize,
) -> Result<Option<Vec<usize>>, AllocError>
    requires { high < 2 ^ 63 }
    ensures { IfOk result (λ numbers. option_map (λ v. v.items) numbers
        ≡ numbers_listed low high text.now) }
{
    if let Some((first, last)) = ends_of(text) {
        return range_between(alloc, first, last, low, high);
    }
    with_commas(alloc, text, low, high)
}
