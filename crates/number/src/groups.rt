// Groups of seven bits, read and stored one by one.
ghost use Rattle.std.specs.Prelude.{◌≡◌, ◌+◌, ◌≤◌, ◌<◌, set};
ghost use Rattle.number.specs.Number.{groups, groups_at, Put};
ghost use Rattle.number.specs.Inner.Limit.{limit};

use crate::Wrong;

// The number at `at`, of at most `more` groups beside the first, and the place after it.
pub fn groups_at(message: &[u8], at: usize, more: usize) -> Result<(u32, usize), Wrong>
    requires { more ≤ 4 }
    ensures { result ≡ groups_at more message.now at }
{
    if message.len() <= at {
        return Err(Wrong { at });
    }
    let byte = u32::from(message[at]);
    let next = at + 1;
    if more == 0 {
        if byte < 16 {
            return Ok((byte, next));
        }
        return Err(Wrong { at });
    }
    if byte < 128 {
        return Ok((byte, next));
    }
    match groups_at(message, next, more - 1) {
        Err(_) => Err(Wrong { at }),
        Ok((n, end)) => {
            // A highest group of 0 is not the shortest form.
            if n == 0 {
                Err(Wrong { at })
            } else {
                Ok((byte - 128 + 128 * n, end))
            }
        }
    }
}

// Stores the byte at i, if there is such a place.
fn put_byte(out: &mut [u8], i: usize, byte: u8)
    ensures { out.new ≡ set out.old i byte }
{
    if i < out.len() {
        out[i] = byte;
    }
}

// Stores n, of at most `more` groups beside the first, from `at` on as far as `out` goes, and answers where it ends.
pub fn put_groups(out: &mut [u8], at: usize, more: usize, n: u32) -> usize
    requires n_bound { n < limit more }
    requires more_bound { at + more < 18446744073709551615 }
    ensures { Put out.old at (groups more n) out.new result }
{
    let next = at + 1;
    if n < 128 {
        put_byte(out, at, n as u8);
        return next;
    }
    put_byte(out, at, (128 + n % 128) as u8);
    put_groups(out, next, more - 1, n / 128)
}
