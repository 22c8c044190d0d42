// Laying a level.
ghost use Rattle.std.specs.Prelude.{◌≡◌};
ghost use Rattle.store.specs.Meaning.{vacant};
ghost use Rattle.level.specs.Level.{new_level, Matches};

use crate::Spread;
use code::Code;
use store::{Reading, Store};
use stripe_map::layout::Layout;

// Empties every slot.
fn clear_all<S: Store>(below: &mut S)
    ensures sound { S.Reading.sound below.old → S.Reading.sound below.new }
    ensures cleared { S.Reading.sound below.old → S.Reading.meaning below.new ≡ vacant (S.Reading.meaning below.old).shape (S.Reading.meaning below.old).covers }
{
    for slot in 0..below.shape().slots {
        let _ = below.clear(slot);
    }
}

// Lays a code over a store, every slot of which is emptied. The layout was made for the sizes of both.
pub fn lay<C: Code, S: Store>(layout: Layout, code: C, below: S) -> Spread<C, S>
    ensures layout { result.layout ≡ layout }
    ensures code { result.code ≡ code }
    ensures laid { S.Reading.sound below → Matches layout (C.Code.coding code) (S.Reading.meaning below).shape → ⟦<Spread<C, S> as Reading>⟧.sound result }
    ensures means { S.Reading.sound below → ⟦<Spread<C, S> as Reading>⟧.meaning result ≡ new_level layout (S.Reading.meaning below) }
{
    let mut below = below;
    clear_all(&mut below);
    Spread {
        layout,
        code,
        below,
    }
}

// A level read over what another one wrote, such as the reader of an image; nothing is changed. It is sound if what lies beneath is
// as the calls of a level with this layout and this code left it.
pub fn over<C: Code, S: Reading>(layout: Layout, code: C, below: S) -> Spread<C, S>
    ensures { (result.layout ≡ layout) × (result.code ≡ code) × (result.below ≡ below) }
{
    Spread {
        layout,
        code,
        below,
    }
}
