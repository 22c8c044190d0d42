// Protecting a file: what is lost of it comes back.
ghost use Rattle.std.specs.Prelude.{◌≡◌, ℕ, ◌+◌, ◌-◌, ◌*◌, ◌<◌, ◌≤◌, Bool, true, false, length, IfOk, vec_len, slice_index};
ghost use Rattle.block.specs.Count.{count};
ghost use Rattle.code.specs.Calls.{marks_held};
ghost use Rattle.stripe.specs.Lost.{Among, mark, Marks};

use crate::command::{Job, Kind};
use crate::fault::{Fault, Mistake};
use block::BLOCK;
use code::{Code, Sizes, count_held};
use refusal::kind::Refusal;
use std::alloc::{AllocError, Global};
use std::{fmt, fs};
use striping::failure::Failure;
use striping::survive;
use words::counted::Counted;

// The numbers of the marks that are 0, in print.
#[derive(Clone, Copy)]
pub struct Unmarked<'a> {
    marks: &'a [u8],
}

impl<'a> Unmarked<'a> {
    pub fn of(marks: &'a [u8]) -> Unmarked<'a>
        ensures { result.marks.now ≡ marks.now }
    {
        Unmarked { marks }
    }
}

// Each number after a space; where there is none, that word.
impl fmt::Display for Unmarked<'_> {
    fn fmt<W: fmt::Write>(&self, f: &mut fmt::Formatter<W>) -> fmt::Result {
        if !self.marks.contains(&0) {
            return write!(f, " none");
        }
        for (i, _) in self
            .marks
            .iter()
            .enumerate()
            .filter(|(_, mark)| **mark == 0)
        {
            write!(f, " {i}")?;
        }
        Ok(())
    }
}

// What became of a file that came back whole.
#[derive(Drop)]
pub struct Report<'a> {
    kind: Kind,
    sizes: Sizes,
    path: &'a str,
    bytes: usize,
    stripes: usize,
    // 0 for each block of a stripe that was lost
    marks: Vec<u8>,
}

impl Report<'_> {
    // How many blocks of a stripe were lost.
    fn lost(&self) -> usize
        ensures { result ≡ vec_len self.now.marks - count (marks_held self.now.marks.items) (vec_len self.now.marks) }
    {
        self.marks
            .len()
            .saturating_sub(count_held(self.marks.as_slice()))
    }
}

// A line for each fact.
impl fmt::Display for Report<'_> {
    fn fmt<W: fmt::Write>(&self, f: &mut fmt::Formatter<W>) -> fmt::Result {
        let kind = self.kind;
        let data = Counted::of(self.sizes.k, "data block");
        let checks = Counted::of(self.sizes.m, "check");
        writeln!(f, "code {kind}: {data} and {checks} of {BLOCK} bytes")?;
        let path = self.path;
        let bytes = Counted::of(self.bytes, "byte");
        let stripes = Counted::of(self.stripes, "stripe");
        writeln!(f, "file {path}: {bytes} in {stripes}")?;
        let gone = Unmarked::of(self.marks.as_slice());
        writeln!(f, "lost in every stripe:{gone}")?;
        let rebuilt = Counted::of(self.lost().saturating_mul(self.stripes), "block");
        write!(f, "rebuilt: {rebuilt}\nevery byte came back")
    }
}

// The mark of block i: 0 if it is lost, else 1.
fn mark_of(i: usize, lost: &[usize]) -> u8
    ensures is { result ≡ mark lost.now i }
    ensures gone { Among lost.now i → result ≡ 0 }
    ensures kept { (Among lost.now i → ⊥) → result ≡ 1 }
{
    u8::from(!lost.contains(&i))
}

// A mark for each of n blocks, or of n nodes.
pub fn marks_of(heap: Global, n: usize, lost: &[usize]) -> Result<Vec<u8>, AllocError>
    ensures { IfOk result (λ v. Marks lost.now v.items n) }
{
    (0..n).map(|i| mark_of(i, lost)).collect(heap)
}

// Whether every number is below n.
pub fn all_below(numbers: &[usize], n: usize) -> bool
    ensures yes { result ≡ true → (k : ℕ) → k < length numbers.now → slice_index numbers.now k < n }
    ensures none { result ≡ false → ((k : ℕ) × (k < length numbers.now) × (n ≤ slice_index numbers.now k)) }
{
    numbers.iter().all(|number| *number < n)
}

// The number of parts of so many bytes each that a file fills, the last one perhaps not to its end.
pub fn parts_of(bytes: usize, part: usize) -> usize
    requires { 1 ≤ part }
    ensures enough { bytes ≤ result * part }
    ensures least { result * part < bytes + part }
{
    bytes.div_ceil(part)
}

// The bytes of a file. No contract: what a file holds is said by none.
pub fn read<'a>(rt: &HostRuntime, path: &'a str) -> Result<Vec<u8>, Mistake<'a>> {
    fs::read(rt, path).map_err(|error| Mistake::CannotRead { path, error })
}

// The number of stripes of k data blocks that so many bytes fill, the last one perhaps in part.
fn stripes_of(bytes: usize, k: usize) -> usize
    requires { (1 ≤ k) × (k ≤ 12) }
    ensures enough { bytes ≤ result * (k * 64) }
    ensures least { result * (k * 64) < bytes + k * 64 }
{
    parts_of(bytes, k * BLOCK)
}

// Protects the file by the code that the job asks for, loses what is to be lost, and sees that every byte comes back. No
// contract: that a file comes back is that of `survive`, and that the code is the one that is asked for that of `Kind::code`.
pub fn protect<'a>(rt: &HostRuntime, job: &Job<'a>) -> Result<Report<'a>, Mistake<'a>> {
    let code = job.kind.code()?;
    let sizes = code.sizes();
    let n = sizes.k + sizes.m;
    let lost = job.lost.as_slice();
    if !all_below(lost, n) {
        return Err(Refusal::BlockNumber.into());
    }
    let marks = marks_of(rt.alloc(), n, lost)?;
    let path = job.path;
    let file = read(rt, path)?;
    match survive(rt.alloc(), &code, file.as_slice(), marks.as_slice()) {
        Ok(back) if back == file => (),
        Ok(_) => return Err(Fault::OtherBytes.into()),
        // Written out: a From may be given for `Fault` alone, and want of memory is no case of it.
        Err(Failure::Refused(refusal)) => return Err(refusal.into()),
        Err(Failure::Memory) => return Err(Mistake::Memory),
    }
    let bytes = file.len();
    Ok(Report {
        kind: job.kind,
        sizes,
        path,
        bytes,
        stripes: stripes_of(bytes, sizes.k),
        marks,
    })
}
