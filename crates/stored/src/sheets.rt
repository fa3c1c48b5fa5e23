// A sheet in a list: its length, then its bytes, padded to a whole number of words.
ghost use Rattle.std.specs.Prelude.{◌≡◌, ◌+◌, ◌<◌, ◌≤◌, true, IfSome, IsSome, length, take, drop};

use crate::words::Words;

// The bytes of a sheet before the call, none where they are not all in the list, and the words after them.
#[derive(Clone, Copy, Debug)]
pub struct Before<'a> {
    pub bytes: Option<&'a [u8]>,
    pub length: u32,
    pub rest: Words<'a>,
}

// The bytes of a sheet before the call and after it, none where they are not all in the list, and the words after the latter.
#[derive(Clone, Copy, Debug)]
pub struct Sheet<'a> {
    pub before: Option<&'a [u8]>,
    pub after: Option<&'a [u8]>,
    pub rest: Words<'a>,
}

impl<'a> Words<'a> {
    // The n bytes from the place on.
    fn bytes(self, n: u32) -> Option<&'a [u8]>
        requires { self.at < 18446744069414584320 }
        ensures { IfSome result (λ bytes. bytes.now ≡ take n (drop self.entry.at self.entry.list.now)) }
    {
        self.list.get(self.at..self.at + n as usize)
    }

    // The words after n bytes and their padding.
    fn after(self, n: u32) -> Words<'a>
        requires { self.at < 18446744069414584316 }
        ensures { (self.entry.at + n ≤ result.at) × (result.at < self.entry.at + n + 4) }
    {
        self.skip(n.div_ceil(4) as usize)
    }

    // The sheet whose length is the first word, where there is one; else an empty one.
    pub fn sheet(self, there: bool) -> Before<'a>
        requires { self.at < 1099511627776 }
        ensures { (self.entry.at ≤ result.rest.at) × (result.rest.at ≤ self.entry.at + 4294967304) }
    {
        if !there {
            return Before {
                bytes: self.bytes(0),
                length: 0,
                rest: self,
            };
        }
        let length = self.word(0);
        let words = self.skip(1);
        Before {
            bytes: words.bytes(length),
            length,
            rest: words.after(length),
        }
    }
}

impl<'a> Before<'a> {
    // The sheet of which the bytes after the call are the first of `words`.
    pub fn left(self, words: Words<'a>) -> Sheet<'a>
        requires { words.at < 1099511627776 }
        ensures after { IfSome result.after (λ bytes. bytes.now ≡ take self.entry.length (drop words.entry.at words.entry.list.now)) }
        ensures rest { (words.entry.at ≤ result.rest.at) × (result.rest.at ≤ words.entry.at + 4294967300) }
    {
        Sheet {
            before: self.bytes,
            after: words.bytes(self.length),
            rest: words.after(self.length),
        }
    }
}

impl<'a> Sheet<'a> {
    // Copies the sheet's bytes before the call to the start of `into`, and lends them there: none where they are not all in the
    // list, or do not fit.
    pub fn load<'b>(self, into: &'b mut [u8]) -> &'b mut [u8]
        ensures { length result.now ≤ length into.old }
    {
        let bytes = self
            .before
            .filter(|bytes| bytes.len() <= into.len())
            .unwrap_or(&[]);
        let copy = &mut into[..bytes.len()];
        copy.copy_from_slice(bytes);
        copy
    }

    // Whether `bytes` are the sheet's bytes after the call.
    pub fn is_left(self, bytes: &[u8]) -> bool
        ensures { result ≡ true → IfSome self.entry.after (λ after. bytes.now ≡ after.now) × IsSome self.entry.after }
    {
        self.after.is_some_and(|after| bytes == after)
    }
}
