// A byte image of a bare store: what the block file and the image reader share.
#![tactic(auto)]

ghost use Rattle.std.specs.Prelude.{◌≡◌, ◌+◌, ◌*◌, ◌<◌, ◌≤◌, ◌∷◌, length, IfSome, Some, None, MatchOption, slice_index};
ghost use Rattle.store.specs.Meaning.{Limits};
ghost use Rattle.grid.specs.Index.{index};
ghost use Rattle.image_format.specs.Image.{Over, Wiped, start, size, head_of, cell_from, state_from};

use store::kinds::{Shape, State};

// The head of a slot.
pub fn head_bytes(state: State) -> [u8; 8]
    ensures { result ≡ head_of state }
{
    [state.number(), 0, 0, 0, 0, 0, 0, 0]
}

// The state of a slot, which the first byte of its head tells; a byte that the format does not have counts as empty.
pub fn state_at(image: &[u8], slot: usize) -> State
    ensures { result ≡ state_from (slice_index image.now (8 * slot)) }
{
    slot.checked_mul(8)
        .and_then(|at| image.get(at))
        .and_then(|byte| State::try_from(*byte).ok())
        .unwrap_or(State::Empty)
}

// Where the record of a cell begins.
pub fn start_of(shape: Shape, slot: usize, node: usize, place: usize) -> usize
    requires limits { Limits shape }
    requires inside { (slot < shape.slots) × (node < shape.nodes) × (place < shape.places) }
    ensures at { result ≡ start shape (index shape slot node place) }
    ensures within { result + 72 ≤ size shape }
{
    8 * shape.slots + 72 * grid::index_of(shape, slot, node, place)
}

// The record of a present cell.
pub fn present_record(slot: u8, node: u8, place: u8, block: &[u8]) -> [u8; 72]
    requires { length block.now ≡ 64 }
    ensures { result ≡ 1 ∷ slot ∷ node ∷ place ∷ 0 ∷ 0 ∷ 0 ∷ 0 ∷ block.now }
{
    let mut bytes = [0; 72];
    bytes[..4].copy_from_slice(&[1, slot, node, place]);
    bytes[8..].copy_from_slice(block);
    bytes
}

// Writes bytes over those that stand from a place on, in an image that is long enough.
pub fn write_bytes(image: &mut [u8], at: usize, bytes: &[u8])
    ensures { Over image.old image.new at bytes.now }
{
    if at <= image.len() && bytes.len() <= image.len() - at {
        image[at..at + bytes.len()].copy_from_slice(bytes);
    }
}

// Writes zeros from a place on to before another.
pub fn wipe_bytes(image: &mut [u8], from: usize, to: usize)
    ensures { Wiped image.old image.new from to }
{
    let end = to.min(image.len());
    if from < end {
        image[from..end].fill(0);
    }
}

// The block of a record, or nothing where it is absent; a record that the format does not have counts as absent.
pub fn block_of(bytes: &[u8]) -> Option<&[u8]>
    requires { length bytes.now ≡ 72 }
    ensures cell { MatchOption result (cell_from bytes.now ≡ None) (λ b. cell_from bytes.now ≡ Some b.now) }
    ensures size { IfSome result (λ b. length b.now ≡ 64) }
{
    let [1, _, _, _, _, _, _, _, block @ ..] = bytes else {
        return None;
    };
    Some(block)
}
