// Copyright 2026 Quantova Inc
// SPDX-License-Identifier: Apache-2.0 OR MIT

// Which dates are days.
ghost use Rattle.std.specs.Prelude.{◌≡◌, ◌+◌, ◌≤◌, ◌<◌, length};
ghost use Rattle.quanta_lexer.specs.Days.{leap_year, month_days, digit_at, two_at, four_at, day_at};

use quanta_token::bytes::peek;

#[tactic(auto, unfolding(crate::specs::Days::leap_year))]
fn is_leap(year: u32) -> bool
    ensures { result ≡ leap_year year }
{
    ((year % 4 == 0) & (year % 100 != 0)) | (year % 400 == 0)
}

// The days of a month, and 0 where the number is no month's.
#[tactic(auto, unfolding(crate::specs::Days::month_days))]
fn month_days(year: u32, month: u32) -> u32
    ensures { result ≡ month_days year month }
{
    match month {
        1 | 3 | 5 | 7 | 8 | 10 | 12 => 31,
        4 | 6 | 9 | 11 => 30,
        2 => if is_leap(year) { 29 } else { 28 },
        _ => 0,
    }
}

// The number that the digit at i writes.
fn digit_at(src: &[u8], i: usize) -> u32
    ensures value { result ≡ digit_at src.now i }
    ensures small { result < 256 }
{
    u32::from(peek(src, i).saturating_sub(b'0'))
}

// The number that the two digits at i write.
fn two_at(src: &[u8], i: usize) -> u32
    requires { i ≤ length src.now }
    ensures value { result ≡ two_at src.now i }
    ensures small { result < 4096 }
{
    digit_at(src, i) * 10 + digit_at(src, i + 1)
}

// The number that the four digits at i write.
fn four_at(src: &[u8], i: usize) -> u32
    requires { i + 2 ≤ length src.now }
    ensures { result ≡ four_at src.now i }
{
    two_at(src, i) * 100 + two_at(src, i + 2)
}

// Whether the date shape at i is a day.
#[tactic(auto, unfolding(crate::specs::Days::day_at))]
pub fn is_day(src: &[u8], i: usize) -> bool
    requires { i + 10 ≤ length src.now }
    ensures { result ≡ day_at src.now i }
{
    let day = two_at(src, i + 8);
    (1..=month_days(four_at(src, i), two_at(src, i + 5))).contains(&day)
}
