// Numbers that the host lends: a matrix, a kernel or a table is a range of a lent pool, and all of them range alike.
#![tactic(auto)]

ghost use Rattle.std.specs.Prelude.{◌≡◌};
ghost use Rattle.pool.specs.Pool.{in_range, all_finite, all_in_range, numbers_answer, is_in, numbers_of, range_answer};

use sheet::Refusal;

// The largest size of a number.
const NUMBER_LIMIT: f32 = 65536.0;

// A range of the pool, which may lie anywhere.
#[derive(Clone, Copy, Debug, PartialEq, Eq)]
pub struct Numbers {
    pub start: u32,
    pub count: u32,
}

// Whether x is within -65,536..=65,536.
pub fn is_number(x: f32) -> bool
    ensures { result ≡ in_range x }
{
    floats::within(-NUMBER_LIMIT, x, NUMBER_LIMIT)
}

// Test 4 of numbers.
pub fn all_finite(numbers: &[f32]) -> bool
    ensures { result ≡ all_finite numbers.now }
{
    numbers.iter().all(|&x| floats::is_finite(x))
}

// Test 5 of numbers within -65,536..=65,536.
pub fn all_in_range(numbers: &[f32]) -> bool
    ensures { result ≡ all_in_range numbers.now }
{
    numbers.iter().all(|&x| is_number(x))
}

// Tests 4 and 5 of numbers within -65,536..=65,536.
pub fn test(numbers: &[f32]) -> Result<(), Refusal>
    ensures { result ≡ numbers_answer numbers.now }
{
    if !all_finite(numbers) {
        return Err(Refusal::NotFinite);
    }
    if !all_in_range(numbers) {
        return Err(Refusal::Range);
    }
    Ok(())
}

impl Numbers {
    // Whether the range lies in a pool of n numbers.
    #[tactic(auto, unfolding(crate::specs::Pool::is_in))]
    pub fn is_in(self, n: usize) -> bool
        ensures { result ≡ is_in self n }
    {
        self.start as usize + self.count as usize <= n
    }

    // The numbers of the range; none where it does not lie in the pool.
    pub fn part(self, pool: &[f32]) -> &[f32]
        ensures { result.now ≡ numbers_of self pool.now }
    {
        if !self.is_in(pool.len()) {
            return &[];
        }
        let start = self.start as usize;
        &pool[start..start + self.count as usize]
    }

    // Tests 3, 4 and 5 of the range.
    pub fn test(self, pool: &[f32]) -> Result<(), Refusal>
        ensures { result ≡ range_answer self pool.now }
    {
        if !self.is_in(pool.len()) {
            return Err(Refusal::Shape);
        }
        test(self.part(pool))
    }
}
