// Zigzag: signed numbers as unsigned ones, over all 64 bits.
ghost use Rattle.std.specs.Prelude.{◌≡◌};
ghost use Rattle.std.specs.Int.{w64};
ghost use Rattle.std.proofs.Common.{to_z, of_z};
ghost use Rattle.scalar.specs.Zigzag.{zigzag, unzigzag};

// The number whose bits in two's complement are x.
pub fn of_bits(x: u64) -> i64
    ensures { result ≡ to_z w64 x }
{
    x.cast_signed()
}

// The bits in two's complement of v.
pub fn to_bits(v: i64) -> u64
    ensures { result ≡ of_z w64 v }
{
    v.cast_unsigned()
}

// n / 2, minus n where n is odd, which is -(n / 2) - 1.
pub fn zigzag_decode(n: u64) -> i64
    ensures { result ≡ unzigzag n }
{
    let odd = if n % 2 == 1 { n } else { 0 };
    of_bits((n / 2).wrapping_sub(odd))
}

// 2 v, and -1 minus that where v is negative.
pub fn zigzag_encode(v: i64) -> u64
    ensures { result ≡ zigzag v }
{
    let bits = to_bits(v);
    let twice = bits.wrapping_add(bits);
    if bits < 0x8000_0000_0000_0000 {
        twice
    } else {
        u64::MAX.wrapping_sub(twice)
    }
}
