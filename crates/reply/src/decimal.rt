// Numbers in text.
ghost use Rattle.encode.specs.Puts.{Puts};
ghost use Rattle.reply.specs.Decimal.{decimal};

use encode::put::put_byte;

// The byte of the digit 0.
const ZERO: u64 = 48;

// The decimal of n, the last digit behind the others.
pub fn put_decimal(buf: &mut [u8], at: usize, n: u64) -> usize
    ensures { Puts buf.old at (decimal n) result buf.new }
{
    if n < 10 {
        return put_byte(buf, at, (ZERO + n) as u8);
    }
    let last = put_decimal(buf, at, n / 10);
    put_byte(buf, last, (ZERO + n % 10) as u8)
}
