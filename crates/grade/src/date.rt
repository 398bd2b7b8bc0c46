// The calendar, and whether a value is a DATE, a TIME or the stamp.
ghost use Rattle.std.specs.Prelude.{◌≡◌, ◌≤◌};
ghost use Rattle.grade.specs.Digits.{pair_at};
ghost use Rattle.grade.specs.Calendar.{is_leap, month_length, is_real_date};
ghost use Rattle.grade.specs.Values.{year_of, is_date, pair_or, is_year_and_pairs, is_zone, is_zone_or_none, is_fraction, is_time, is_stamp};

use crate::value::{digit_at, digit_run, is_sign};
use hl7::bytes::{after, byte_at, front, pick};

// ---- the calendar

fn is_leap(year: usize) -> bool
    ensures { result ≡ is_leap year }
{
    (year % 4 == 0) & ((year % 100 != 0) | (year % 400 == 0))
}

// month + month / 8 is odd in the odd months up to July and, since month / 8 is 1 from August on, in the even ones after: these have 31 days.
fn month_length(year: usize, month: usize) -> usize
    ensures { result ≡ month_length year month }
{
    if !((1 <= month) & (month <= 12)) {
        return 0;
    }
    let february = pick(is_leap(year), 29, 28);
    pick(month == 2, february, 30 + (month + month / 8) % 2)
}

fn is_real_date(year: usize, month: usize, day: usize) -> bool
    ensures { result ≡ is_real_date year month day }
{
    let days = month_length(year, month);
    ((1 <= year) & (year <= 9999)) & ((1 <= month) & (month <= 12)) & ((1 <= day) & (day <= days))
}

// ---- DATE

// The number of two digits; the last pair of a TIME stands at 12.
fn pair_at(v: &[u8], at: usize) -> usize
    requires { at ≤ 12 }
    ensures { (result ≡ pair_at at v.now) × (result ≤ 2277) }
{
    10 * digit_at(v, at) + digit_at(v, at + 1)
}

fn year_of(v: &[u8]) -> usize
    ensures { result ≡ year_of v.now }
{
    100 * pair_at(v, 0) + pair_at(v, 2)
}

pub(crate) fn is_date(v: &[u8]) -> bool
    ensures { result ≡ is_date v.now }
{
    (v.len() == 8) & (digit_run(v) == 8) & is_real_date(year_of(v), pair_at(v, 4), pair_at(v, 6))
}

// ---- TIME

// The pair at a place, or what stands for it where the digits end before it.
fn pair_or(v: &[u8], at: usize, other: usize) -> usize
    requires { at ≤ 12 }
    ensures { result ≡ pair_or other at v.now }
{
    pick(at + 2 <= v.len(), pair_at(v, at), other)
}

// Whether digits are a year and whole pairs after it, each in its range.
fn is_year_and_pairs(v: &[u8]) -> bool
    ensures { result ≡ is_year_and_pairs v.now }
{
    ((4 <= v.len()) & (v.len() <= 14))
        & (v.len() % 2 == 0)
        & is_real_date(year_of(v), pair_or(v, 4, 1), pair_or(v, 6, 1))
        & (pair_or(v, 8, 0) <= 23)
        & (pair_or(v, 10, 0) <= 59)
        & (pair_or(v, 12, 0) <= 59)
}

fn is_zone(v: &[u8]) -> bool
    ensures { result ≡ is_zone v.now }
{
    (v.len() == 5)
        & is_sign(byte_at(v, 0))
        & (digit_run(after(v, 1)) == 4)
        & (pair_at(v, 1) <= 23)
        & (pair_at(v, 3) <= 59)
}

fn is_zone_or_none(v: &[u8]) -> bool
    ensures { result ≡ is_zone_or_none v.now }
{
    (v.len() == 0) | is_zone(v)
}

fn is_fraction(v: &[u8]) -> bool
    ensures { result ≡ is_fraction v.now }
{
    let rest = after(v, 1);
    let digits = digit_run(rest);
    (byte_at(v, 0) == b'.') & ((1 <= digits) & (digits <= 4)) & is_zone_or_none(after(rest, digits))
}

pub(crate) fn is_time(v: &[u8], low: usize) -> bool
    ensures { result ≡ is_time low v.now }
{
    let digits = digit_run(v);
    let rest = after(v, digits);
    (low <= digits)
        & is_year_and_pairs(front(v, digits))
        & (is_zone_or_none(rest) | ((digits == 14) & is_fraction(rest)))
}

// ---- the stamp

pub fn is_stamp(v: &[u8]) -> bool
    ensures { result ≡ is_stamp v.now }
{
    (v.len() == 19)
        & (digit_run(v) == 14)
        & is_sign(byte_at(v, 14))
        & (digit_run(after(v, 15)) == 4)
        & is_time(v, 14)
}
