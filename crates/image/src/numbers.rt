// Numbers of an image: each below 2^32, in its shortest form.
ghost use Rattle.std.specs.Prelude.{cond, ◌≡◌, eqb, length, take, ◌<◌, ◌≤◌};
ghost use Rattle.varint.specs.Number.{some_number};
ghost use Rattle.image_rules.specs.Numbers.{front_at};
ghost use Rattle.image.specs.private.Ends.{front_to, number_at};

use varint::{Number, read_short};

// The numbers that are read at once: those of all statements, which are more than those of all cursors.
pub(crate) const MOST: usize = 192;

const MAX_NUMBER: u64 = 0xffff_ffff;

// The most bytes that such a number has.
const LONGEST: usize = 5;

// A byte from here on has another behind it.
const MORE: u64 = 128;

// What 1 counts in the second byte and in each behind it.
const SECOND: u64 = MORE;

const THIRD: u64 = SECOND * MORE;

const FOURTH: u64 = THIRD * MORE;

const FIFTH: u64 = FOURTH * MORE;

// The marks of the bytes that have another behind them: each counts as much as 1 of the next byte.
const ONE_MARK: u64 = SECOND;

const TWO_MARKS: u64 = ONE_MARK + THIRD;

const THREE_MARKS: u64 = TWO_MARKS + FOURTH;

const FOUR_MARKS: u64 = THREE_MARKS + FIFTH;

// So much in the fifth byte is 2^32.
const FIFTH_LIMIT: u64 = 16;

// The k numbers from the place `at` on, put into `numbers`, and the place behind them. It is None where an image with
// these bytes is not acceptable.
pub(crate) fn read_numbers(image: &[u8], at: usize, k: usize, numbers: &mut [u32]) -> Option<usize>
    requires { k ≤ length numbers.old }
    ensures read { front_to result (take k numbers.new) ≡ front_at k image.now at }
    ensures long { length numbers.new ≡ length numbers.old }
{
    let mut p = at;
    for i in 0..k {
        let number = read_number(image, p)?;
        numbers[i] = number.value as u32;
        p = number.next;
    }
    Some(p)
}

// A number below 2^32 in its shortest form. Where as many bytes are there as it has at most, the end is asked for once.
// The bytes are added up with their marks, which go off at the end.
fn read_number(image: &[u8], at: usize) -> Option<Number>
    ensures { result ≡ number_at image.now at }
{
    let n = image.len();
    if n <= at {
        return None;
    }
    let a = octet(image[at]);
    if a < MORE {
        return Some(Number {
            value: a,
            next: at + 1,
        });
    }
    if n - at < LONGEST {
        return read_plain(&image[..n], at);
    }
    let b = octet(image[at + 1]);
    let two = a + b * SECOND;
    if b < MORE {
        return number_of(b, two - ONE_MARK, at + 2);
    }
    let c = octet(image[at + 2]);
    let three = two + c * THIRD;
    if c < MORE {
        return number_of(c, three - TWO_MARKS, at + 3);
    }
    let d = octet(image[at + 3]);
    let four = three + d * FOURTH;
    if d < MORE {
        return number_of(d, four - THREE_MARKS, at + 4);
    }
    let e = octet(image[at + 4]);
    if FIFTH_LIMIT <= e {
        return None;
    }
    number_of(e, four + e * FIFTH - FOUR_MARKS, at + 5)
}

// A byte as a number, with its range, which u64::from does not tell.
fn octet(b: u8) -> u64
    ensures answer { result ≡ b }
    ensures small { result < 256 }
{
    u64::from(b)
}

// The number of several bytes. A last one of 0 is padding.
fn number_of(last: u64, value: u64, next: usize) -> Option<Number>
    ensures { result ≡ cond (eqb last 0) None (some_number value next) }
{
    if last == 0 {
        return None;
    }
    Some(Number { value, next })
}

// The same at the end of an image, where fewer bytes are left.
fn read_plain(image: &[u8], at: usize) -> Option<Number>
    ensures { result ≡ number_at image.now at }
{
    let mut padded = false;
    let number = read_short(image, at, &mut padded)?;
    if padded {
        return None;
    }
    if MAX_NUMBER < number.value {
        return None;
    }
    Some(number)
}
