ghost use Rattle.std.specs.Prelude.{◌≡◌, ◌++◌, IfOk, OnErr};
ghost use Rattle.wf_names.specs.NameForm.{escaped};
ghost use Rattle.wf_runs.specs.Faults.{status_of, refusal_status, line_of, NamesFile, RefusalNamesFile, fault_of};
ghost use Rattle.wf_runs.specs.declared.fault.RunFault.TheVariants.{Refused, NoMemory};

use std::alloc::{AllocError, AllocFailed, Global};
use thiserror::Error;
use wf_base::Text;
use wf_bytes::Why;
use wf_io::TreeFault;
use wf_names::name_text;

/// Why the input is refused.
#[derive(Debug, Drop, Error)]
pub enum Refusal {
    /// The words or the input are of a form that isn't built yet.
    #[error("not built yet")]
    Unbuilt,
    /// The bytes of this file spell no class: what is wrong with the first item that is, and where in the
    /// file that item begins.
    #[error("bad class file")]
    BadClass { file: Text, offset: u32, why: Why },
    /// The class of this file has another name than its path gives.
    #[error("wrong name")]
    WrongName { file: Text, name: Text },
    /// No class is `java/lang/Object`.
    #[error("java/lang/Object is not loadable")]
    NoObject,
}

/// Why a run prints no world.
#[derive(Debug, Drop, Error)]
pub enum RunFault {
    /// The input is refused.
    #[error("refused")]
    Refused(Refusal),
    /// The tree counted a fault at this path.
    #[error("read fault")]
    ReadFault { path: Text },
    /// The output sink counted a fault.
    #[error("write fault")]
    WriteFault,
    #[error("no memory")]
    NoMemory,
}

impl From<Refusal> for RunFault {
    ghost from_gives = { λ refusal e. e ≡ Refused refusal };

    fn from(refusal: Refusal) -> RunFault {
        RunFault::Refused(refusal)
    }
}

impl From<AllocError> for RunFault {
    ghost from_gives = { λ _ e. e ≡ NoMemory };

    fn from(_: AllocError) -> RunFault {
        RunFault::NoMemory
    }
}

impl<T: Drop> From<AllocFailed<T>> for RunFault {
    ghost from_gives = { λ _ e. e ≡ NoMemory };

    fn from(_: AllocFailed<T>) -> RunFault {
        RunFault::NoMemory
    }
}

/// A line: one that is always the same takes no memory.
#[derive(Debug, Drop)]
pub enum Line {
    Fixed(&'static [u8]),
    Made(Text),
}

impl Line {
    ghost use Rattle.wf_runs.specs.Lines.{bytes_of};

    pub fn as_slice(&self) -> &[u8]
        ensures { result.now ≡ bytes_of self.now }
    {
        match self {
            Line::Fixed(bytes) => bytes,
            Line::Made(text) => text.as_slice(),
        }
    }
}

impl Refusal {
    ghost use Rattle.wf_runs.specs.Lines.{bytes_of};

    /// The status with which the run ends. Own rule.
    pub fn status(&self) -> u8
        ensures { result ≡ refusal_status self.now }
    {
        match self {
            Refusal::BadClass { .. } | Refusal::WrongName { .. } | Refusal::NoObject => 3,
            Refusal::Unbuilt => 10,
        }
    }

    fn line(&self, alloc: Global) -> Result<Line, AllocError>
        ensures line { IfOk result (λ line. bytes_of line ≡ line_of (Refused self.now)) }
        ensures fixed { OnErr result (RefusalNamesFile self.now) }
    {
        match self {
            Refusal::BadClass { file, offset, why } => {
                Ok(Line::Made(bad_class_line(alloc, file, *offset, *why)?))
            }
            Refusal::WrongName { file, name } => {
                Ok(Line::Made(wrong_name_line(alloc, file, name)?))
            }
            Refusal::NoObject => Ok(Line::Fixed(b"java/lang/Object is not loadable\n")),
            Refusal::Unbuilt => Ok(Line::Fixed(b"not built yet\n")),
        }
    }
}

impl RunFault {
    ghost use Rattle.wf_runs.specs.Lines.{bytes_of};

    /// The status with which the run ends. Own rule.
    pub fn status(&self) -> u8
        ensures { result ≡ status_of self.now }
    {
        match self {
            RunFault::Refused(refusal) => refusal.status(),
            RunFault::ReadFault { .. } => 6,
            RunFault::WriteFault => 7,
            RunFault::NoMemory => 9,
        }
    }

    /// The line that tells the fault, with its line feed. Own rule.
    pub fn line(&self, alloc: Global) -> Result<Line, AllocError>
        ensures line { IfOk result (λ line. bytes_of line ≡ line_of self.now) }

        // Only a line with the name of a file takes memory.
        ensures fixed { OnErr result (NamesFile self.now) }
    {
        match self {
            RunFault::Refused(refusal) => refusal.line(alloc),
            RunFault::ReadFault { path } => Ok(Line::Made(read_fault_line(alloc, path)?)),
            RunFault::WriteFault => Ok(Line::Fixed(b"write fault\n")),
            RunFault::NoMemory => Ok(Line::Fixed(b"no memory\n")),
        }
    }
}

/// These words, and a name in the form of names.
fn named(alloc: Global, words: &[u8], name: &Text) -> Result<Text, AllocError>
    ensures { IfOk result (λ text. text ≡ words.now ++ escaped name.now) }
{
    let mut text = Text::from_slice(alloc, words)?;
    text.push_slice(name_text(alloc, name.as_slice())?.as_slice())?;
    Ok(text)
}

/// The line of a call that failed.
fn read_fault_line(alloc: Global, path: &Text) -> Result<Text, AllocError>
    ensures { IfOk result (λ text. text ≡ line_of (RunFault.ReadFault path.now)) }
{
    let mut text = named(alloc, b"read fault: ", path)?;
    text.push_slice(b"\n")?;
    Ok(text)
}

/// The line of a file that spells no class.
fn bad_class_line(alloc: Global, file: &Text, offset: u32, why: Why) -> Result<Text, AllocError>
    ensures { IfOk result (λ text. text ≡ line_of (Refused (Refusal.BadClass file.now offset why))) }
{
    let digits = offset.to_string(alloc)?;
    let mut text = named(alloc, b"bad class file ", file)?;
    text.push_slice(b" at ")?;
    text.push_slice(digits.as_bytes())?;
    text.push_slice(b": ")?;
    text.push_slice(why.word())?;
    text.push_slice(b"\n")?;
    Ok(text)
}

/// The line of a file whose class belongs at another path.
fn wrong_name_line(alloc: Global, file: &Text, name: &Text) -> Result<Text, AllocError>
    ensures { IfOk result (λ text. text ≡ line_of (Refused (Refusal.WrongName file.now name.now))) }
{
    let mut text = named(alloc, b"wrong name in ", file)?;
    text.push_slice(b": ")?;
    text.push_slice(name_text(alloc, name.as_slice())?.as_slice())?;
    text.push_slice(b"\n")?;
    Ok(text)
}

/// What a call of this path ends the run with, where it gave nothing: more than it asked for is refused for `over`.
pub fn fault_at(path: Text, over: Refusal, fault: TreeFault) -> RunFault
    ensures { result ≡ fault_of path over fault }
{
    match fault {
        TreeFault::Failed => RunFault::ReadFault { path },
        TreeFault::More => RunFault::Refused(over),
        TreeFault::NoMemory => RunFault::NoMemory,
    }
}
