// Protecting a file on the nodes of a level: what is lost with some of them comes back from the others.
//
// The file is cut into pieces that fill a slot of the level, the last one with zeros behind it; an empty file is one piece of
// zeros.
ghost use Rattle.std.specs.Prelude.{◌≡◌, ◌+◌, ◌*◌, ◌^◌, ◌<◌, ◌≤◌, length, None};
ghost use Rattle.grid.specs.Index.{total, table_refusal};
ghost use Rattle.stripe.specs.Seen.{piece_size};

use crate::command::{Ground, Job};
use crate::fault::Mistake;
use crate::job::{all_below, marks_of, parts_of, read};
use crate::level_report::{LevelReport, Rank};
use crate::level_trial::{Trial, rank_bytes};
use bank::Bank;
use bank::cell::{BLANK, Cell};
use block::load;
use code::{Code, Sizes};
use refusal::kind::Refusal;
use std::alloc::Global;
use store::kinds::Shape;
use stripe_map::layout::Layout;

// The slots of the store beneath.
const SLOTS: usize = 2;

// The shape of the store for a level with a code of those sizes. Where its places do not fit a number, they are too many anyway.
fn shape_of(ground: Ground, sizes: Sizes) -> Shape
    requires { (sizes.k ≤ 12) × (sizes.m ≤ 4) }
    ensures nodes { result.nodes ≡ ground.nodes }
    ensures places { (sizes.k + sizes.m) * ground.lanes < 2 ^ 64 → result.places ≡ (sizes.k + sizes.m) * ground.lanes }
    ensures slots { result.slots ≡ 2 }
{
    Shape {
        nodes: ground.nodes,
        places: (sizes.k + sizes.m).saturating_mul(ground.lanes),
        slots: SLOTS,
    }
}

// The bytes of a piece.
fn piece_bytes(layout: &Layout) -> usize
    ensures is { result ≡ piece_size layout.now }
    ensures some { 1 ≤ result }
{
    layout.nodes * rank_bytes(layout)
}

// The number of pieces of the file; an empty one has a piece too.
fn pieces_of(layout: &Layout, file: &[u8]) -> usize
    ensures some { 1 ≤ result }
    ensures enough { length file.now ≤ result * piece_size layout.now }
    ensures least { 1 < result → result * piece_size layout.now < length file.now + piece_size layout.now }
{
    parts_of(file.len(), piece_bytes(layout)).max(1)
}

// Carries the whole file, piece by piece, each on a bank over the same table. No contract of its answer, as for `carry`.
fn carry_all<'a>(
    heap: Global,
    trial: Trial,
    shape: Shape,
    cells: &mut [Cell],
    file: &[u8],
) -> Result<Vec<Rank>, Mistake<'a>>
    requires { table_refusal shape (total shape) (length cells.old) ≡ None }
{
    let unseen = |number| Rank {
        cells: Vec::new(heap),
        back: true,
        lost: trial.lost.contains(&number),
    };
    let mut ranks: Vec<Rank> = (0..trial.layout.nodes).map(unseen).collect(heap)?;
    let mut piece = vec![in heap; 0; piece_bytes(&trial.layout)]?;
    // As many as `pieces_of` says, whose contract holds of an empty file too: that has a piece of no bytes.
    let mut rest = file;
    for _ in 0..pieces_of(&trial.layout, file) {
        let (part, later) = rest.split_at(rest.len().min(piece.len()));
        rest = later;
        load(piece.as_mut_slice(), part);
        let bank = Bank::new(shape, cells);
        trial.carry(bank, piece.as_slice(), &mut ranks)?;
    }
    Ok(ranks)
}

// Protects the file on a level, by the code that the job asks for, loses the nodes, and sees what comes back. No contract: it
// speaks of a file.
pub fn protect<'a>(
    rt: &HostRuntime,
    ground: Ground,
    job: &Job<'a>,
) -> Result<LevelReport<'a>, Mistake<'a>> {
    let heap = rt.alloc();
    let code = job.kind.code()?;
    let sizes = code.sizes();
    let shape = shape_of(ground, sizes);
    let layout = Layout::new(shape, sizes, ground.group, ground.lanes)?;
    let room = shape
        .places
        .saturating_mul(shape.nodes)
        .saturating_mul(SLOTS);
    let mut cells = vec![in heap; BLANK; room]?;
    Bank::check(shape, cells.as_slice())?;
    let lost = job.lost.as_slice();
    if !all_below(lost, shape.nodes) {
        return Err(Refusal::Node.into());
    }
    let marks = marks_of(heap, shape.nodes, lost)?;
    let file = read(rt, job.path)?;
    let bytes = file.as_slice();
    let trial = Trial { layout, code, lost };
    let ranks = carry_all(heap, trial, shape, cells.as_mut_slice(), bytes)?;
    Ok(LevelReport {
        kind: job.kind,
        layout,
        path: job.path,
        bytes: file.len(),
        pieces: pieces_of(&layout, bytes),
        piece: piece_bytes(&layout),
        marks,
        ranks,
    })
}
