//! Lines that are written from their end, so that a number begins with its last digit.

ghost use Rattle.std.specs.Prelude.{◌≡◌, ◌∷◌, ◌++◌, ◌+◌, ◌/◌, ◌%◌, ◌<◌, ◌≤◌, drop, false};
ghost use Rattle.std.specs.Fmt.{digits, digit_glyph, signed_decimal};

// The hexadecimal digit of a number below 16, a letter in lower case.
#[inline(always)]
fn hex_digit(digit: u64) -> u8
    requires small { digit < 16 }
    ensures { result ≡ digit_glyph false digit }
{
    b"0123456789abcdef"[digit as usize]
}

/// Writes a byte just before the index `end`, and answers its index. What stands from `end` on
/// stays, as in each function here.
#[inline(always)]
pub(crate) fn put_byte(byte: u8, end: usize, line: &mut [u8; 48]) -> usize
    requires room { 1 ≤ end }
    requires within { end ≤ 48 }
    ensures room { end ≡ result + 1 }
    ensures value { drop result line.new ≡ byte ∷ drop end line.old }
{
    line[end - 1] = byte;
    end - 1
}

// Writes the last two hexadecimal digits of a number, in lower case and also where they are zeros,
// just before `end`, and answers where the first stands.
#[inline(always)]
fn put_two(number: u64, end: usize, line: &mut [u8; 48]) -> usize
    requires room { 2 ≤ end }
    requires within { end ≤ 48 }
    ensures room { end ≡ result + 2 }
    ensures value { drop result line.new ≡ digit_glyph false (number / 16 % 16)
        ∷ digit_glyph false (number % 16) ∷ drop end line.old }
{
    let low = put_byte(hex_digit(number % 16), end, line);
    put_byte(hex_digit(number / 16 % 16), low, line)
}

// Writes a number below 256 in hexadecimal, in lower case, just before `end`, and answers where it
// begins: a leading zero is written too, but the number begins after it.
#[inline(always)]
fn put_pair(number: u64, end: usize, line: &mut [u8; 48]) -> usize
    requires small { number < 256 }
    requires room { 2 ≤ end }
    requires within { end ≤ 48 }
    ensures room { end ≤ result + 2 }
    ensures before { result ≤ end }
    ensures value { drop result line.new ≡ digits 16 false number ++ drop end line.old }
{
    let at = put_two(number, end, line);
    if number < 16 { at + 1 } else { at }
}

/// Writes a number in hexadecimal, in lower case and without leading zeros, so that its last digit
/// stands just before `end`, and answers where its first one stands. `end` is 17 or more.
#[inline(always)]
pub(crate) fn put_hexadecimal(number: u64, end: usize, line: &mut [u8; 48]) -> usize
    requires room { 17 ≤ end }
    requires within { end ≤ 48 }
    ensures before { result ≤ end }
    ensures value { drop result line.new ≡ digits 16 false number ++ drop end line.old }
{
    let mut at = end;
    let mut rest = number;
    'pairs: while rest >= 256 {
        at = put_two(rest, at, line);
        rest /= 256;
    }
    put_pair(rest, at, line)
}

/// Writes a number in hexadecimal as `put_hexadecimal` does, in at most four digits. `end` is 4 or
/// more.
#[inline(always)]
pub(crate) fn put_short(number: u16, end: usize, line: &mut [u8; 48]) -> usize
    requires room { 4 ≤ end }
    requires within { end ≤ 48 }
    ensures room { end ≤ result + 4 }
    ensures before { result ≤ end }
    ensures value { drop result line.new ≡ digits 16 false number ++ drop end line.old }
{
    let wide = u64::from(number);
    if wide < 256 {
        put_pair(wide, end, line)
    } else {
        let at = put_two(wide, end, line);
        put_pair(wide / 256, at, line)
    }
}

// Writes a number in decimal, without leading zeros, just before `end`, in at most 20 digits, and
// answers where its first one stands.
fn put_decimal(number: u64, end: usize, line: &mut [u8; 48]) -> usize
    requires room { 20 ≤ end }
    requires within { end ≤ 48 }
    ensures room { end ≤ result + 20 }
    ensures before { result ≤ end }
    ensures value { drop result line.new ≡ digits 10 false number ++ drop end line.old }
{
    let mut at = end;
    let mut rest = number;
    'decimals: while rest >= 10 {
        at = put_byte(b'0' + (rest % 10) as u8, at, line);
        rest /= 10;
    }
    put_byte(b'0' + rest as u8, at, line)
}

// As `put_signed`, of a number of any length: in decimal just before `end`, with `-` before the
// digits of a negative one.
#[inline(never)]
fn put_long_signed(number: isize, end: usize, line: &mut [u8; 48]) -> usize
    requires room { 21 ≤ end }
    requires within { end ≤ 48 }
    ensures room { end ≤ result + 21 }
    ensures before { result ≤ end }
    ensures value { drop result line.new ≡ signed_decimal number ++ drop end line.old }
{
    let at = put_decimal(number.unsigned_abs() as u64, end, line);
    if number < 0 {
        line[at - 1] = b'-';
        at - 1
    } else {
        at
    }
}

/// Writes a number in decimal just before `end`, with `-` before the digits of a negative one and
/// no sign before others, and answers where it begins. One of a single digit takes no loop. `end`
/// is 21 or more.
#[inline(always)]
pub(crate) fn put_signed(number: isize, end: usize, line: &mut [u8; 48]) -> usize
    requires room { 21 ≤ end }
    requires within { end ≤ 48 }
    ensures room { end ≤ result + 21 }
    ensures before { result ≤ end }
    ensures value { drop result line.new ≡ signed_decimal number ++ drop end line.old }
{
    if number >= 0 && number < 10 {
        put_byte(b'0' + number as u8, end, line)
    } else {
        put_long_signed(number, end, line)
    }
}
