// Text laid on a lent page, each piece behind the one before it: bytes, numbers and whole lines.
#![tactic(auto)]

ghost use Rattle.std.specs.Prelude.{◌≡◌, ◌-◌, length};
ghost use Rattle.page.specs.Page.{HasRoom, blank, laid};

pub mod laws;
pub mod pieces;
#[cfg(test)]
mod tests;

use itoa::{Buffer, Integer};

// A lent page, and the place behind what is laid on it.
#[derive(Drop)]
pub struct Page<'a> {
    bytes: &'a mut [u8],
    end: usize,
}

impl<'a> Page<'a> {
    pub fn new(bytes: &'a mut [u8]) -> Page<'a>
        ensures { result ≡ blank bytes.entry }
    {
        Page { bytes, end: 0 }
    }
}

impl Page<'_> {
    // How many bytes are laid.
    pub fn len(&self) -> usize
        ensures { result ≡ self.now.end }
    {
        self.end
    }

    // How many bytes are free.
    pub fn room(&self) -> usize
        ensures { result ≡ length self.now.bytes.now - self.now.end }
    {
        self.bytes.len().saturating_sub(self.end)
    }

    // Room is asked for, and is no part of the type, since how much is needed depends on the text.
    #[inline]
    pub fn put_bytes(&mut self, bytes: &[u8])
        requires { HasRoom self.old (length bytes.now) }
        ensures { self.new ≡ laid self.old bytes.now }
    {
        let end = self.end + bytes.len();
        self.bytes[self.end..end].copy_from_slice(bytes);
        self.end = end;
    }

    // Lays the number in decimal, with no leading zero, and a minus sign before a negative one.
    #[inline]
    pub fn put_number<I: Integer>(&mut self, number: I)
        requires { HasRoom self.old (length (I.text number)) }
        ensures { self.new ≡ laid self.old (I.text number) }
    {
        self.put_bytes(Buffer::new().format(number).as_bytes());
    }
}
