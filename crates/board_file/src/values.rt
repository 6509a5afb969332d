//! What the value of a key says, or what is wrong with it.

ghost use Rattle.std.specs.Prelude.{◌≡◌, ◌≤◌, None, IfOk, IfSome, MatchOption, is_some, option_map, map};
ghost use Rattle.std.specs.List.{list_all};
ghost use Rattle.toml.specs.Data.{as_integer, as_str};
ghost use Rattle.toml.specs.View.{view};
ghost use Rattle.board_read.specs.Lists.{each};
ghost use Rattle.board_file.specs.Values.{ranged, number, items, all_of, chunk};
ghost use Rattle.board_file.specs.Views.{IsArrayOf, both, bytes_of};

use crate::fault::KeyKind;
use std::alloc::{AllocError, Global};
use toml::Value;

// A number of this range.
fn ranged(z: i64, least: u64, most: u64) -> Option<u64>
    ensures is { result ≡ ranged least most z }
    ensures fits { IfSome result (λ n. (least ≤ n) × (n ≤ most)) }
{
    match u64::try_from(z) {
        Ok(n) if least <= n && n <= most => Some(n),
        _ => None,
    }
}

/// The number of this range that a value is.
///
/// # Errors
///
/// `WrongType` where it is no whole number, `OutOfRange` where it is another.
pub fn number(value: &Value, least: u64, most: u64) -> Result<u64, KeyKind>
    ensures is { result ≡ number least most (view value.now) }
    ensures fits { IfOk result (λ n. (least ≤ n) × (n ≤ most)) }
{
    match value.as_integer() {
        Some(z) => match ranged(z, least, most) {
            Some(n) => Ok(n),
            None => Err(KeyKind::OutOfRange),
        },
        None => Err(KeyKind::WrongType),
    }
}

/// The items of an array, where a value is one.
#[tactic(auto, using(crate::proofs::Lists::listed))]
pub fn items(value: &Value) -> Option<&[Value]>
    ensures { option_map (λ v. map view v.now) result ≡ items (view value.now) }
{
    match value.as_array() {
        Some(array) => Some(array.as_slice()),
        None => None,
    }
}

// Whether each of these is a whole number.
fn are_integers(items: &[Value]) -> bool
    ensures { result ≡ list_all (λ item. is_some (as_integer (view item))) items.now }
{
    items.iter().all(|item| item.as_integer().is_some())
}

// Whether each of these is a text.
fn are_texts(items: &[Value]) -> bool
    ensures { result ≡ list_all (λ item. is_some (as_str (view item))) items.now }
{
    items.iter().all(|item| item.as_str().is_some())
}

/// The items of an array of whole numbers, where a value is one. No list of the numbers is made.
#[tactic(auto, using(crate::proofs::Judging::each_is, crate::proofs::Judging::each_is_none))]
pub fn integers(value: &Value) -> Option<&[Value]>
    ensures { MatchOption result (all_of as_integer (view value.now) ≡ None) (λ v. IsArrayOf as_integer (map view v.now) (view value.now)) }
{
    let items = items(value)?;
    if are_integers(items) {
        Some(items)
    } else {
        None
    }
}

/// The items of an array of texts, where a value is one. No list of the texts is made.
#[tactic(auto, using(crate::proofs::Judging::each_is, crate::proofs::Judging::each_is_none))]
pub fn texts(value: &Value) -> Option<&[Value]>
    ensures { MatchOption result (all_of as_str (view value.now) ≡ None) (λ v. IsArrayOf as_str (map view v.now) (view value.now)) }
{
    let items = items(value)?;
    if are_texts(items) { Some(items) } else { None }
}

// The number of at most `most` that a value is.
fn number_within(value: &Value, most: u32) -> Option<u32>
    ensures { result ≡ both (ranged 0 most) as_integer (view value.now) }
{
    match ranged(value.as_integer()?, 0, u64::from(most)) {
        Some(n) => Some(n as u32),
        None => None,
    }
}

/// Whether each of these is a number of at most `most`.
pub fn are_within(items: &[Value], most: u32) -> bool
    ensures { result ≡ list_all (λ item. is_some (both (ranged 0 most) as_integer (view item))) items.now }
{
    items.iter().all(|item| number_within(item, most).is_some())
}

/// These numbers, where each is at most `most`.
///
/// # Errors
///
/// Want of memory alone.
pub fn numbers(alloc: Global, items: &[Value], most: u32) -> Result<Option<Vec<u32>>, AllocError>
    ensures { IfOk result (λ v. option_map (λ v. v.items) v ≡ each (both (ranged 0 most) as_integer) (map view items.now)) }
{
    let mut numbers = Vec::new(alloc);
    for item in items {
        match number_within(item, most) {
            Some(n) => numbers.push(n)?,
            None => return Ok(None),
        }
    }
    Ok(Some(numbers))
}

// The bytes of a text of hexadecimal digits, at most so many.
fn chunk(alloc: Global, text: &str, most: usize) -> Result<Option<Vec<u8>>, AllocError>
    ensures { IfOk result (λ v. option_map (λ b. b.items) v ≡ chunk most text.now) }
{
    match board_read::bytes::bytes(alloc, text.as_bytes())? {
        Some(bytes) if bytes.len() <= most => Ok(Some(bytes)),
        _ => Ok(None),
    }
}

// The bytes of a value that is a text of hexadecimal digits, at most so many.
fn chunk_in(alloc: Global, value: &Value, most: usize) -> Result<Option<Vec<u8>>, AllocError>
    ensures { IfOk result (λ v. option_map (λ b. b.items) v ≡ both (chunk most) as_str (view value.now)) }
{
    match value.as_str() {
        Some(text) => chunk(alloc, text, most),
        None => Ok(None),
    }
}

/// The bytes of each of these texts, where each is at most so many as hexadecimal digits.
///
/// # Errors
///
/// Want of memory alone.
pub fn chunks(
    alloc: Global,
    items: &[Value],
    most: usize,
) -> Result<Option<Vec<Vec<u8>>>, AllocError>
    ensures { IfOk result (λ v. option_map (λ v. bytes_of v.items) v ≡ each (both (chunk most) as_str) (map view items.now)) }
{
    let mut chunks = Vec::new(alloc);
    for item in items {
        match chunk_in(alloc, item, most)? {
            Some(bytes) => chunks.push(bytes)?,
            None => return Ok(None),
        }
    }
    Ok(Some(chunks))
}
