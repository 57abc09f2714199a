ghost use Rattle.std.specs.Prelude.{◌≡◌, IfOk};
ghost use Rattle.std.specs.Int.{w16, w32};
ghost use Rattle.wf_bytes.specs.Reading.{number, run, times};
ghost use Rattle.wf_grammar.specs.Reading.{skipped};
ghost use Rattle.wf_constpool.specs.Readers.{Gives, GivesAs};

mod class;
mod fields;
mod methods;

pub use class::{MAGIC, class_of, is_known_version, may_be_root, may_extend};
use std::alloc::Global;
use wf_base::Text;
use wf_bytes::{Cursor, Why};
use wf_constpool::{self, ClassFault, text_at};
use wf_data::PoolEntry;

/// A reader of the items of a class file, from the first to the last (JVMS 4). Each method reads one item
/// or a few that belong together.
#[derive(Debug, Drop)]
pub struct Reader<'a> {
    alloc: Global,
    cursor: Cursor<'a>,
}

fn bad(offset: u32, why: Why) -> ClassFault
    ensures { result ≡ ClassFault.Bad offset why }
{
    ClassFault::Bad { offset, why }
}

impl<'a> Reader<'a> {
    /// Where the next item begins.
    fn at(&self) -> u32
        ensures { result ≡ self.now.cursor.at }
    {
        self.cursor.at()
    }

    fn u2(&mut self) -> Result<u16, ClassFault>
        ensures { Gives self.new.cursor result (number w16 self.old.cursor) }
    {
        wf_constpool::u2(&mut self.cursor)
    }

    fn u4(&mut self) -> Result<u32, ClassFault>
        ensures { Gives self.new.cursor result (number w32 self.old.cursor) }
    {
        wf_constpool::u4(&mut self.cursor)
    }

    /// The next n bytes, where they are.
    fn run(&mut self, n: u32) -> Result<&'a [u8], ClassFault>
        ensures { GivesAs (λ bytes. bytes.now) self.new.cursor result (run n self.old.cursor) }
    {
        wf_constpool::run(&mut self.cursor, n)
    }

    /// The next n bytes as a text, which is a part of the file.
    fn text(&mut self, n: u32) -> Result<Text, ClassFault>
        ensures { Gives self.new.cursor result (run n self.old.cursor) }
    {
        wf_constpool::text(self.alloc, &mut self.cursor, n)
    }

    /// A reader of the next n bytes alone.
    #[tactic(auto, unfolding(wf_bytes::specs::Reading::run))]
    fn part(&mut self, n: u32) -> Result<Reader<'a>, ClassFault>
        ensures bytes { GivesAs (λ inside. inside.cursor.left) self.new.cursor result (run n self.old.cursor) }
        ensures place { IfOk result (λ inside. inside.cursor.at ≡ self.old.cursor.at) }
    {
        let at = self.at();
        match self.cursor.part(n) {
            Some(cursor) => Ok(Reader {
                alloc: self.alloc,
                cursor,
            }),
            None => Err(bad(at, Why::Cut)),
        }
    }

    /// Passes over an attribute (JVMS 4.7.1).
    #[tactic(auto, unfolding(wf_grammar::specs::Reading::skipped))]
    fn skip_attribute(&mut self, pool: &[PoolEntry]) -> Result<(), ClassFault>
        ensures { Gives self.new.cursor result (skipped pool.now tt self.old.cursor) }
    {
        let at = self.at();
        let place = self.u2()?;
        if text_at(pool, place).is_none() {
            return Err(bad(at, Why::Index));
        }
        let size = self.u4()?;
        self.run(size)?;
        Ok(())
    }

    #[tactic(auto, using(wf_bytes::proofs::Loops::goes_on_times, wf_constpool::proofs::Loops::ends_times, wf_bytes::proofs::Loops::is_done_times))]
    fn skip_attributes(&mut self, pool: &[PoolEntry], count: u16) -> Result<(), ClassFault>
        ensures { Gives self.new.cursor result (times (skipped pool.now) count tt self.old.cursor) }
    {
        for _ in 0..count {
            self.skip_attribute(pool)?;
        }
        Ok(())
    }
}
