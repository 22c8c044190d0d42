// Commands: what the words of a line ask for.
ghost use Rattle.std.specs.Prelude.{◌≡◌, IfOk};
ghost use Rattle.codes.specs.Kinds.{any_recipe};
ghost use Rattle.stripe.specs.Asked.{recipe_of};

use crate::fault::Mistake;
use codes::any::AnyCode;
use codes::cauchy::Cauchy;
use codes::copies::Copies;
use codes::xor_sum::XorSum;
use refusal::kind::Refusal;
use std::alloc::Global;
use std::fmt;
use words::{BadNumber, number};

// What may name a code, or stand in its place, where a command begins; and what may name a code of a level.
const COMMANDS: &str = "copy, sum, rs or vectors";

const CODES: &str = "copy, sum or rs";

// The forms of the commands, for who left out a word.
const LEVEL: &str = "level N G L, then copy, sum or rs";

const COPY: &str = "copy M FILE LOST..";

const SUM: &str = "sum K FILE LOST..";

const RS: &str = "rs K M FILE LOST..";

const VECTORS: &str = "vectors FILE";

// A code with its sizes, as asked for.
#[derive(Clone, Copy)]
pub enum Kind {
    Copy { m: usize },
    Sum { k: usize },
    Rs { k: usize, m: usize },
}

impl Kind {
    // The code that it asks for.
    pub fn code(&self) -> Result<AnyCode, Refusal>
        ensures { IfOk result (λ c. any_recipe c ≡ recipe_of self.now) }
    {
        match *self {
            Kind::Copy { m } => Ok(Copies::new(m)?.into()),
            Kind::Sum { k } => Ok(XorSum::new(k)?.into()),
            Kind::Rs { k, m } => Ok(Cauchy::new(k, m)?.into()),
        }
    }
}

// The word that asks for it.
impl fmt::Display for Kind {
    fn fmt<W: fmt::Write>(&self, f: &mut fmt::Formatter<W>) -> fmt::Result {
        match self {
            Kind::Copy { .. } => write!(f, "copy"),
            Kind::Sum { .. } => write!(f, "sum"),
            Kind::Rs { .. } => write!(f, "rs"),
        }
    }
}

// Where a level is to stand, as asked for.
#[derive(Clone, Copy)]
pub struct Ground {
    pub nodes: usize,
    // nodes of a group
    pub group: usize,
    pub lanes: usize,
}

// A file to protect by a code.
#[derive(Drop)]
pub struct Job<'a> {
    pub kind: Kind,
    // on a level, or else in stripes alone
    pub ground: Option<Ground>,
    pub path: &'a str,
    // the nodes of the level to lose, or else the blocks to lose in every stripe
    pub lost: Vec<usize>,
}

// What a line asks for.
#[derive(Drop)]
pub enum Command<'a> {
    // protect a file
    Protect(Job<'a>),
    // compare the vectors of the file
    Vectors(&'a str),
}

// A job that loses what the words number.
fn protection<'a>(
    heap: Global,
    ground: Option<Ground>,
    kind: Kind,
    path: &'a str,
    words: &[&'a str],
) -> Result<Command<'a>, Mistake<'a>> {
    let lost: Result<Vec<usize>, BadNumber<'a>> = words
        .iter()
        .map(|word| number(*word))
        .collect(heap)?;
    let lost = lost?;
    Ok(Command::Protect(Job {
        kind,
        ground,
        path,
        lost,
    }))
}

// The command that the words from the name of the code on make; `known` are the names. No contract, as for `parse`.
fn parse_code<'a>(
    heap: Global,
    ground: Option<Ground>,
    known: &'static str,
    words: &[&'a str],
) -> Result<Command<'a>, Mistake<'a>> {
    match words {
        [] => Err(Mistake::MissingWord(known)),
        ["copy", m, path, lost @ ..] => {
            let kind = Kind::Copy { m: number(*m)? };
            protection(heap, ground, kind, *path, lost)
        }
        ["copy", ..] => Err(Mistake::MissingWord(COPY)),
        ["sum", k, path, lost @ ..] => {
            let kind = Kind::Sum { k: number(*k)? };
            protection(heap, ground, kind, *path, lost)
        }
        ["sum", ..] => Err(Mistake::MissingWord(SUM)),
        ["rs", k, m, path, lost @ ..] => {
            let kind = Kind::Rs {
                k: number(*k)?,
                m: number(*m)?,
            };
            protection(heap, ground, kind, *path, lost)
        }
        ["rs", ..] => Err(Mistake::MissingWord(RS)),
        [other, ..] => Err(Mistake::Unknown {
            thing: "code",
            word: *other,
            known,
        }),
    }
}

// The command that the words make. No contract: that a number is that of its word is said by `number`; which word is which is only
// tested.
pub fn parse<'a>(heap: Global, words: &[&'a str]) -> Result<Command<'a>, Mistake<'a>> {
    match words {
        ["level", nodes, group, lanes, code @ ..] => {
            let ground = Ground {
                nodes: number(*nodes)?,
                group: number(*group)?,
                lanes: number(*lanes)?,
            };
            parse_code(heap, Some(ground), CODES, code)
        }
        ["level", ..] => Err(Mistake::MissingWord(LEVEL)),
        ["vectors", path] => Ok(Command::Vectors(*path)),
        ["vectors"] => Err(Mistake::MissingWord(VECTORS)),
        ["vectors", _, extra, ..] => Err(Mistake::ExtraWord(*extra)),
        _ => parse_code(heap, None, COMMANDS, words),
    }
}
