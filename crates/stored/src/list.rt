// A list as the bytes of its file.
ghost use Rattle.std.specs.Prelude.{◌≡◌, ◌≤◌, length, IfOk, OnErr};
ghost use Rattle.stored.specs.Lists.{IsPrefixLen};

use std::io::Read;
use std::rt::Files;
use std::{fs, io, str};

// More bytes than the longest list.
pub const LIST: usize = 262144;

// Fills `list` with the bytes of the file at `path`, and says how many there are. A file that cannot be opened or read gives its
// error, which may leave some of its bytes in `list`; a path that is no UTF-8 names no file.
// What may not change: a path of type `&str` would ask more of `read`'s callers.
pub fn read(rt: &impl Files, path: &[u8], list: &mut [u8; LIST]) -> io::Result<usize>
    ensures prefix_len { IfOk result (λ n. IsPrefixLen n list.new) }
    ensures upper_bound { IfOk result (λ n. n ≤ 262144) }
    ensures on_error { OnErr result (length list.new ≡ 262144) }
{
    let path = str::from_utf8(path).unwrap_or("");
    let mut file = fs::open(rt, path)?;
    fill(&mut file, list)
}

// Reads until `list` is full or the input ends, and says how many bytes were put at its start.
pub fn fill(file: &mut impl Read, list: &mut [u8]) -> io::Result<usize>
    ensures { IfOk result (λ n. IsPrefixLen n list.new) }
{
    let mut end = 0;
    while end < list.len() {
        let count = file.read(&mut list[end..])?;
        if count == 0 {
            break;
        }
        end += count;
    }
    Ok(end)
}
