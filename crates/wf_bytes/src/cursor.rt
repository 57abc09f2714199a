ghost use Rattle.std.specs.Prelude.{◌≡◌, ◌+◌, ◌<◌, ◌≤◌, ◌^◌, ◌==◌, length, IfOk, OnErr};
ghost use Rattle.std.specs.Int.{w8, w16, w32, w64};
ghost use Rattle.std.specs.Option.{option_copied};
ghost use Rattle.wf_bytes.specs.Place.{spot, after, ReadsNumber, TakesBytes, PartsAt};

use byteorder::{BigEndian, ByteOrder};
use std::alloc::{AllocError, Global};
use std::marker::Model;
use wf_base::Text;

/// A reader of the bytes of a file, from the first to the last. A contract sees it as the place that it
/// has reached. Where fewer bytes are left than are asked for, it answers None and stays.
#[derive(Debug, Drop)]
pub struct Cursor<'a> {
    at: u32,
    left: &'a [u8],
    /// The file, where what is read may share its bytes.
    file: Option<&'a Text>,
}

impl<'a> Model for Cursor<'a> {
    ghost use Rattle.std.specs.Prelude.{◌+◌, ◌<◌, ◌^◌, length};
    ghost use Rattle.wf_bytes.specs.Place.{Place, spot};
    ghost use Rattle.std.specs.Option.{option_copied};
    ghost use Rattle.wf_bytes.specs.Source.{AreOf};

    ghost Value = { Place };

    ghost view = { λ c. spot c.at c.left.now };

    ghost invariant = { λ c. (c.at + length c.left.now < 2 ^ 32) × AreOf (option_copied c.file) c.at c.left.now };
}

impl<'a> Cursor<'a> {
    /// A cursor in front of the first byte.
    pub fn new(bytes: &'a [u8]) -> Cursor<'a>
        requires { length bytes.now < 2 ^ 32 }
        ensures { result ≡ spot 0 bytes.now }
    {
        Cursor {
            at: 0,
            left: bytes,
            file: None,
        }
    }

    /// The same in front of the first byte of a file, for texts that are parts of it.
    pub fn over(file: &'a Text) -> Cursor<'a>
        requires { length file.now < 2 ^ 32 }
        ensures { result ≡ spot 0 file.now }
    {
        Cursor {
            at: 0,
            left: file.as_slice(),
            file: Some(file),
        }
    }

    /// Passes over n bytes.
    fn pass(&mut self, n: u32)
        requires { n ≤ length self.old.left }
        ensures { self.new ≡ after self.old n }
    {
        self.at += n;
        self.left = &self.left[n as usize..];
    }

    /// One byte.
    pub fn u1(&mut self) -> Option<u8>
        ensures { ReadsNumber w8 self.old self.new result }
    {
        if self.left.is_empty() {
            return None;
        }
        let byte = self.left[0];
        self.pass(1);
        Some(byte)
    }

    /// A number of two bytes, the higher first.
    pub fn u2(&mut self) -> Option<u16>
        ensures { ReadsNumber w16 self.old self.new result }
    {
        if self.left.len() < 2 {
            return None;
        }
        let number = BigEndian::read_u16(self.left);
        self.pass(2);
        Some(number)
    }

    /// A number of four bytes, the highest first.
    pub fn u4(&mut self) -> Option<u32>
        ensures { ReadsNumber w32 self.old self.new result }
    {
        if self.left.len() < 4 {
            return None;
        }
        let number = BigEndian::read_u32(self.left);
        self.pass(4);
        Some(number)
    }

    /// A number of eight bytes, the highest first.
    pub fn u8(&mut self) -> Option<u64>
        ensures { ReadsNumber w64 self.old self.new result }
    {
        if self.left.len() < 8 {
            return None;
        }
        let number = BigEndian::read_u64(self.left);
        self.pass(8);
        Some(number)
    }

    /// The next n bytes, where they are.
    pub fn take(&mut self, n: u32) -> Option<&'a [u8]>
        ensures { TakesBytes n self.old self.new (option_copied result) }
    {
        if self.left.len() < n as usize {
            return None;
        }
        let front = &self.left[..n as usize];
        self.pass(n);
        Some(front)
    }

    /// The next n bytes as a text: a part of the file, which takes no memory where the file shares its bytes.
    /// A copy where the cursor is over bytes alone.
    #[tactic(auto, using(crate::proofs::Sources::front))]
    pub fn text(&mut self, alloc: Global, n: u32) -> Result<Option<Text>, AllocError>
        ensures text { IfOk result (TakesBytes n self.old self.new) }
        ensures err { OnErr result (self.new ≡ self.old) }
    {
        if self.left.len() < n as usize {
            return Ok(None);
        }
        let text = match self.file {
            Some(file) => file.part(alloc, self.at as usize, n as usize)?,
            None => Text::from_slice(alloc, &self.left[..n as usize])?,
        };
        self.pass(n);
        Ok(Some(text))
    }

    /// A cursor over the next n bytes alone, at their true place. This one goes on behind them.
    #[tactic(auto, using(crate::proofs::Sources::in_front))]
    pub fn part(&mut self, n: u32) -> Option<Cursor<'a>>
        ensures { PartsAt n self.old self.new result }
    {
        if self.left.len() < n as usize {
            return None;
        }
        let part = Cursor {
            at: self.at,
            left: &self.left[..n as usize],
            file: self.file,
        };
        self.pass(n);
        Some(part)
    }

    /// How many bytes were passed.
    pub fn at(&self) -> u32
        ensures passed { result ≡ self.now.at }
        ensures within { self.now.at + length self.now.left < 2 ^ 32 }
    {
        self.at
    }

    /// How many bytes are left.
    pub fn left(&self) -> usize
        ensures { result ≡ length self.now.left }
    {
        self.left.len()
    }

    /// Whether no byte is left.
    pub fn is_done(&self) -> bool
        ensures { result ≡ (length self.now.left == 0) }
    {
        self.left.is_empty()
    }
}
