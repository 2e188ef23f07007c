// Writing at the end of a text, which stays as it was where memory is refused.
ghost use Rattle.std.specs.Prelude.{◌≡◌, ◌<◌, ◌≤◌, [], ◌∷◌, ◌++◌, length, take, is_ok, if◌then◌else◌, OnOk, IsTrue, string_bytes};
ghost use Rattle.std.specs.Fmt.{decimal, signed_decimal};
ghost use Rattle.std.specs.Io.{StartsWith};
ghost use Rattle.std.specs.Str.{is_utf8};
ghost use Rattle.ghc_term.specs.Text.{variable_text};

use crate::var_name::VarName;
use itoa::{Buffer, write_digits};
use std::alloc::AllocError;

/// How long a text is, in bytes. What is written after it can be cut back to there.
pub fn end_of(out: &String) -> usize
    ensures length { result ≡ length (string_bytes out.now) }
    ensures text { IsTrue (is_utf8 (string_bytes out.now)) }
{
    out.len()
}

/// The answer of what wrote after the first `length` bytes of `out`. Where it was refused, `out` is cut back to those.
pub fn or_cut_back(
    out: &mut String,
    length: usize,
    written: Result<(), AllocError>,
) -> Result<(), AllocError>
    requires { IsTrue (is_utf8 (take length (string_bytes out.old))) }
    ensures answer { result ≡ written }
    ensures bytes { string_bytes out.new ≡ (if is_ok written then string_bytes out.old else take length (string_bytes out.old)) }
{
    if written.is_err() {
        out.truncate(length);
    }
    written
}

// Writes a character of ASCII at the end of `out`, which stays as it was where memory is refused.
pub(crate) fn push_mark(mark: char, out: &mut String) -> Result<(), AllocError>
    requires { mark < 128 }
    ensures { string_bytes out.new ≡ (if is_ok result then string_bytes out.old ++ mark ∷ [] else string_bytes out.old) }
{
    out.push(mark)
}

// Writes the digits of a number, by way of a place that holds them for a moment. Where they fill it, their count is known where the
// code is made, and nothing is called to copy them.
#[inline(always)]
fn push_by_way_of(place: &mut [u8], number: u32, out: &mut String) -> Result<(), AllocError>
    requires { length (decimal number) ≤ length place.old }
    ensures { string_bytes out.new ≡ (if is_ok result then string_bytes out.old ++ decimal number else string_bytes out.old) }
{
    let end = place.len();
    let start = write_digits(number as u64, place, end);
    if start == 0 {
        return out.push_str(unsafe { str::from_utf8_unchecked(place) });
    }
    out.push_str(unsafe { str::from_utf8_unchecked(&place[start..]) })
}

// Writes the digits of a number of any length, or where there is little room.
#[inline(never)]
fn push_any_digits(number: u32, out: &mut String) -> Result<(), AllocError>
    ensures { string_bytes out.new ≡ (if is_ok result then string_bytes out.old ++ decimal number else string_bytes out.old) }
{
    let mut digits = Buffer::new();
    out.push_str(digits.format(number))
}

// Writes the digits of a number that has many of them. Five or six go into room that is there, which takes no frame.
#[inline(never)]
fn push_many_digits(number: u32, out: &mut String) -> Result<(), AllocError>
    ensures { string_bytes out.new ≡ (if is_ok result then string_bytes out.old ++ decimal number else string_bytes out.old) }
{
    if number >= 1_000_000 || out.capacity() - out.len() < 6 {
        return push_any_digits(number, out);
    }
    if number >= 100_000 {
        return push_by_way_of(&mut [0; 6], number, out);
    }
    if number >= 10_000 {
        return push_by_way_of(&mut [0; 5], number, out);
    }
    push_any_digits(number, out)
}

// Writes the digits of a number. Up to four of them go into room that is there, which takes no frame.
#[inline(never)]
fn push_digits(number: u32, out: &mut String) -> Result<(), AllocError>
    ensures { string_bytes out.new ≡ (if is_ok result then string_bytes out.old ++ decimal number else string_bytes out.old) }
{
    if number >= 10_000 || out.capacity() - out.len() < 4 {
        return push_many_digits(number, out);
    }
    if number >= 1_000 {
        return push_by_way_of(&mut [0; 4], number, out);
    }
    if number >= 100 {
        return push_by_way_of(&mut [0; 3], number, out);
    }
    push_by_way_of(&mut [0; 2], number, out)
}

/// Writes a number at the end of `out`, which stays as it was where memory is refused. It costs a step for each digit.
pub fn push_number(number: u32, out: &mut String) -> Result<(), AllocError>
    ensures { string_bytes out.new ≡ (if is_ok result then string_bytes out.old ++ decimal number else string_bytes out.old) }
{
    if number < 10 {
        return push_mark((b'0' + number as u8) as char, out);
    }
    push_digits(number, out)
}

// Writes an integer that is negative or large at the end of `out`, which stays as it was where memory is refused. Its buffer is no
// part of the caller's frame, which is paid for at each entry.
#[inline(never)]
fn push_other_integer(k: i64, out: &mut String) -> Result<(), AllocError>
    ensures { string_bytes out.new ≡ (if is_ok result then string_bytes out.old ++ signed_decimal k else string_bytes out.old) }
{
    let mut digits = Buffer::new();
    out.push_str(digits.format(k))
}

// Writes an integer at the end of `out`, which stays as it was where memory is refused.
pub(crate) fn push_integer(k: i64, out: &mut String) -> Result<(), AllocError>
    ensures text { OnOk result (string_bytes out.new ≡ string_bytes out.old ++ signed_decimal k) }
    ensures begun { StartsWith (string_bytes out.new) (string_bytes out.old) }
{
    if k < 0 || k > u32::MAX as i64 {
        return push_other_integer(k, out);
    }
    push_number(k as u32, out)
}

/// Writes a variable at the end of `out`, as `_0_1`. Where memory is refused a part of it may stand there.
pub fn push_variable(x: VarName, out: &mut String) -> Result<(), AllocError>
    ensures text { OnOk result (string_bytes out.new ≡ string_bytes out.old ++ variable_text x) }
    ensures begun { StartsWith (string_bytes out.new) (string_bytes out.old) }
{
    push_mark('_', out)?;
    push_number(x.step, out)?;
    push_mark('_', out)?;
    push_number(x.place, out)
}
