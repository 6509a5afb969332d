//! How long no interrupt of a timer is requested: up to the first tick that raises an enabled flag.
ghost use Rattle.std.specs.Prelude.{◌≡◌, ℕ, ◌<◌, ◌≤◌, ◌-◌, ◌^◌, ◌&&◌, true, false, Bool};
ghost use Rattle.avr_timer.specs.Count.{is_match, is_overflow};
ghost use Rattle.avr_timer.specs.Ticks.{IsFirstTick, some_tick, ticks_between};
ghost use Rattle.avr_timer.specs.Quiet.{IsQuietFor};

use crate::course::{Counter, Course};
use crate::first::{first_match, first_overflow};
use avr_sheet::is_set;

/// The number of the first tick of a kind, from 1, `u64::MAX` where it never comes.
#[inline]
fn number_of(first: Option<u64>) -> u64
    ensures before { (test : ℕ → Bool) → IsFirstTick test first → (k : ℕ) → k < result → some_tick test k ≡ false }
    ensures at { (test : ℕ → Bool) → IsFirstTick test first → result < 2 ^ 64 - 1 → some_tick test result ≡ true }
{
    match first {
        Some(number) => number,
        None => u64::MAX,
    }
}

/// The number of the first tick that results in a compare value, `u64::MAX` where it never comes or is not enabled.
#[inline]
fn match_number(enabled: bool, course: Course, counter: Counter, compare: u16) -> u64
    requires top { course.top ≤ course.max }
    requires value { counter.value ≤ course.max }
    ensures before { (k : ℕ) → k < result → (enabled && some_tick (is_match course counter compare) k) ≡ false }
    ensures at { result < 2 ^ 64 - 1 → (enabled && some_tick (is_match course counter compare) result) ≡ true }
{
    if enabled {
        number_of(first_match(course, counter, compare))
    } else {
        u64::MAX
    }
}

/// The number of the first tick that raises the overflow flag, `u64::MAX` where it never comes or is not enabled.
#[inline]
fn overflow_number(enabled: bool, course: Course, counter: Counter) -> u64
    requires top { course.top ≤ course.max }
    requires value { counter.value ≤ course.max }
    ensures before { (k : ℕ) → k < result → (enabled && some_tick (is_overflow course counter) k) ≡ false }
    ensures at { result < 2 ^ 64 - 1 → (enabled && some_tick (is_overflow course counter) result) ≡ true }
{
    if enabled {
        number_of(first_overflow(course, counter))
    } else {
        u64::MAX
    }
}

/// The number of the first tick, from 1, that raises a flag whose request TIMSKn enables; `u64::MAX` where none does.
pub fn request_number(timsk: u8, course: Course, counter: Counter, a: u16, b: u16) -> u64
    requires top { course.top ≤ course.max }
    requires value { counter.value ≤ course.max }
    ensures before { (k : ℕ) → k < result → IsQuietFor timsk course counter a b k }
    ensures at { result < 2 ^ 64 - 1 → IsQuietFor timsk course counter a b result → ⊥ }
{
    let match_a = match_number(is_set(timsk, 1), course, counter, a);
    let match_b = match_number(is_set(timsk, 2), course, counter, b);
    let overflow = overflow_number(is_set(timsk, 0), course, counter);
    match_a.min(match_b).min(overflow)
}

/// The cycle count at which the tick of this number comes, counted from `now` on; `u64::MAX` where it is above all.
#[inline]
pub fn cycle_of(prescale: u64, now: u64, number: u64) -> u64
    requires { 0 < prescale }
    ensures before { (to : ℕ) → now ≤ to → to < result → ticks_between prescale now to < number }
    ensures at { now ≤ result → result < 2 ^ 64 - 1 → ticks_between prescale now result ≡ number }
    ensures small { result < 2 ^ 64 - 1 → number < 2 ^ 64 - 1 }
{
    (now / prescale)
        .saturating_add(number)
        .saturating_mul(prescale)
}
