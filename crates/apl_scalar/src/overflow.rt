// Arithmetic that tells where a value overflows 64 bits.
ghost use Rattle.std.specs.Prelude.{◌≡◌, ◌⊎◌, ◌<◌, ◌≤◌, ◌+ℤ◌, ◌-ℤ◌, ◌*ℤ◌, ℕ, pos, ◌≤ℤ◌, ◌<ℤ◌, bit_or, length, slice_index_or, unsigned_abs};
ghost use Rattle.std.specs.List.{fold};
ghost use Rattle.std.specs.Int.{w64, int_bit_or};
ghost use Rattle.apl_faults.specs.declared.fault.Fault.TheVariants.{Limit};
ghost use Rattle.apl_scalar.specs.Functions.{in_range};

/// The sum that wraps, and a flag that is negative exactly where the sum overflows 64 bits: where its sign is neither operand's.
#[inline(always)]
pub(crate) fn flagged_sum(x: i64, y: i64) -> (i64, i64)
    ensures fits { pos 0 ≤ℤ result.1 → in_range (x +ℤ y) ≡ Ok result.0 }
    ensures leaves { result.1 <ℤ pos 0 → in_range (x +ℤ y) ≡ Err Limit }
{
    let sum = x.wrapping_add(y);
    (sum, (x ^ sum) & (y ^ sum))
}

/// The difference that wraps, and a flag that is negative exactly where the difference overflows 64 bits: where the operands' signs differ and
/// its sign is not the first one's.
#[inline(always)]
pub(crate) fn flagged_difference(x: i64, y: i64) -> (i64, i64)
    ensures fits { pos 0 ≤ℤ result.1 → in_range (x -ℤ y) ≡ Ok result.0 }
    ensures leaves { result.1 <ℤ pos 0 → in_range (x -ℤ y) ≡ Err Limit }
{
    let difference = x.wrapping_sub(y);
    (difference, (x ^ y) & (x ^ difference))
}

/// The product that wraps, and a flag that is negative exactly where the product overflows 64 bits.
#[inline(always)]
pub(crate) fn flagged_product(x: i64, y: i64) -> (i64, i64)
    ensures fits { pos 0 ≤ℤ result.1 → in_range (x *ℤ y) ≡ Ok result.0 }
    ensures leaves { result.1 <ℤ pos 0 → in_range (x *ℤ y) ≡ Err Limit }
{
    let (product, leaves) = x.overflowing_mul(y);
    (product, -(leaves as i64))
}

/// Both flags in one, which is negative where either is.
#[inline(always)]
pub fn either(x: i64, y: i64) -> i64
    ensures exact { result ≡ int_bit_or w64 x y }
    ensures neither { pos 0 ≤ℤ result → (pos 0 ≤ℤ x) × (pos 0 ≤ℤ y) }
    ensures one { result <ℤ pos 0 → (x <ℤ pos 0) ⊎ (y <ℤ pos 0) }
{
    x | y
}

/// Both numbers in one, which is no less than either, and below a power of two where both are.
#[inline(always)]
pub fn wider(x: u64, y: u64) -> u64
    ensures exact { result ≡ bit_or x y }
    ensures x { x ≤ result }
    ensures y { y ≤ result }
{
    x | y
}

/// All magnitudes in one: a number that is no less than any, and less than twice the largest.
pub fn widest(numbers: &[i64]) -> u64
    ensures exact { result ≡ fold (λ bound z. bit_or bound (unsigned_abs z)) 0 numbers.now }
    ensures each { (k : ℕ) → k < length numbers.now → unsigned_abs (slice_index_or numbers.now k (pos 0)) ≤ result }
{
    let mut bound = 0u64;
    for number in numbers {
        bound = wider(bound, number.unsigned_abs());
    }
    bound
}
