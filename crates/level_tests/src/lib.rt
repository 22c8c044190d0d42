// Piles of levels, tried: small shapes, and every set of lost nodes for each.
//
// Every cell is put, the slot is sealed, nodes are lost, and every cell is read. It gives the block that was put where the cover
// rule says so, and is a gap elsewhere; the rule is worked out here, by a function that knows nothing of stores and codes.
#![tactic(auto)]

ghost use Rattle.std.specs.Prelude.{◌≤◌};

#[cfg(test)]
mod tests {
    use bank::Bank;
    use bank::cell::BLANK;
    use block::BLOCK;
    use block_file::BlockFile;
    use code::Code;
    use codes::any::AnyCode;
    use codes::cauchy::Cauchy;
    use codes::copies::Copies;
    use codes::xor_sum::XorSum;
    use refusal::kind::Refusal;
    use spread::Spread;
    use spread::lay::lay;
    use std::alloc::{AllocError, Global};
    use std::process::Abort;
    use std::test::Fail;
    use store::kinds::Shape;
    use store::{Reading, Store};
    use stripe_map::layout::Layout;

    // Four nodes with four places, three with nine, and six with four.
    const FOUR: Shape = Shape {
        nodes: 4,
        places: 4,
        slots: 2,
    };

    const THREE: Shape = Shape {
        nodes: 3,
        places: 9,
        slots: 2,
    };

    const SIX: Shape = Shape {
        nodes: 6,
        places: 4,
        slots: 2,
    };

    // A level: its code and the numbers that its cover rule goes by.
    #[derive(Clone, Copy)]
    struct Layer {
        code: AnyCode,
        group: usize,
        lanes: usize,
        ghost some: { (1 ≤ group) × (1 ≤ lanes) },
    }

    // A level of that code, in groups of so many nodes, with so many lanes.
    fn level_of(code: AnyCode, group: usize, lanes: usize) -> Layer
        requires { (1 ≤ group) × (1 ≤ lanes) }
    {
        Layer { code, group, lanes }
    }

    // Whether levels of these sizes, the lowest first, cover a cell against the lost nodes.
    fn covered(layers: &[Layer], node: usize, place: usize, lost: &[usize]) -> bool {
        let Some((top, below)) = layers.split_last() else {
            return !lost.contains(&node);
        };
        if covered(below, node, place, lost) {
            return true;
        }
        let sizes = top.code.sizes();
        let start = (node / top.group).wrapping_mul(top.group);
        let number = place / top.lanes % top.group;
        let first = (node % top.group)
            .wrapping_add(top.group)
            .wrapping_sub(number);
        let mut held: usize = 0;
        for c in 0..sizes.k + sizes.m {
            let member = start.wrapping_add(first.wrapping_add(c) % top.group);
            let there = c.wrapping_mul(top.lanes).wrapping_add(place % top.lanes);
            if covered(below, member, there, lost) {
                held = held.saturating_add(1);
            }
        }
        held >= sizes.k
    }

    // The block that is put at a cell, another one at each.
    fn block_of(node: usize, place: usize) -> [u8; BLOCK] {
        let mut block = [0; BLOCK];
        for (j, byte) in block.iter_mut().enumerate() {
            let number = node.wrapping_mul(83).wrapping_add(place.wrapping_mul(29));
            *byte = (number.wrapping_add(j) % 256) as u8;
        }
        block
    }

    // Puts a block into every cell of slot 0, and seals it.
    fn fill<S: Store>(store: &mut S) -> Result<(), Refusal> {
        let shape = store.shape();
        store.open(0)?;
        for node in 0..shape.nodes {
            for place in 0..shape.places {
                store.put(0, node, place, &block_of(node, place))?;
            }
        }
        store.seal(0)
    }

    // Fills the pile, loses the nodes, and compares what every cell gives.
    fn try_losses<S: Store>(rt: &impl Abort, pile: &mut S, layers: &[Layer], lost: &[usize]) {
        assert_eq!(rt; fill(pile), Ok(()));
        for node in lost {
            assert_eq!(rt; pile.lose(*node), Ok(()));
        }
        let shape = pile.shape();
        for node in 0..shape.nodes {
            for place in 0..shape.places {
                let mut out = [0; BLOCK];
                let answer = pile.get(0, node, place, &mut out);
                if covered(layers, node, place, lost) {
                    assert_eq!(rt; answer, Ok(()));
                    assert_eq!(rt; out, block_of(node, place));
                } else {
                    assert_eq!(rt; answer, Err(Refusal::Missing { node, place }));
                }
            }
        }
    }

    // A level laid over a store.
    fn over<S: Store>(rt: &impl Abort, layer: Layer, below: S) -> Spread<AnyCode, S> {
        let layout = Layout::new(below.shape(), layer.code.sizes(), layer.group, layer.lanes);
        assert!(rt; layout.is_ok());
        lay(layout.unwrap(), layer.code, below)
    }

    // Two levels over a bare store, the lower one first.
    fn try_two<S: Store + Drop>(rt: &impl Abort, bare: S, layers: &[Layer; 2], lost: &[usize]) {
        let mut pile = over(rt, layers[1], over(rt, layers[0], bare));
        try_losses(rt, &mut pile, layers, lost);
    }

    // Three of them.
    fn try_three<S: Store + Drop>(rt: &impl Abort, bare: S, layers: &[Layer; 3], lost: &[usize]) {
        let two = over(rt, layers[1], over(rt, layers[0], bare));
        let mut pile = over(rt, layers[2], two);
        try_losses(rt, &mut pile, layers, lost);
    }

    // The nodes below n whose bit is set.
    fn nodes_of(heap: Global, n: usize, set: usize) -> Result<Vec<usize>, AllocError> {
        (0..n)
            .filter(|node| set >> (*node % 64) & 1 == 1)
            .collect(heap)
    }

    fn copies(rt: &impl Abort) -> AnyCode {
        let code = Copies::new(1);
        assert!(rt; code.is_ok());
        code.unwrap().into()
    }

    fn sum(rt: &impl Abort) -> AnyCode {
        let code = XorSum::new(2);
        assert!(rt; code.is_ok());
        code.unwrap().into()
    }

    fn cauchy(rt: &impl Abort, k: usize, m: usize) -> AnyCode {
        let code = Cauchy::new(k, m);
        assert!(rt; code.is_ok());
        code.unwrap().into()
    }

    // Copies over the sum over the Cauchy code, on a bank and on a block file of four nodes.
    #[test]
    fn three_levels(rt: HostRuntime) -> Result<(), Fail> {
        let layers = [
            level_of(cauchy(&rt, 3, 1), 4, 1),
            level_of(sum(&rt), 4, 1),
            level_of(copies(&rt), 2, 1),
        ];
        for set in 0..16 {
            let lost = nodes_of(rt.alloc(), 4, set)?;
            let mut cells = [BLANK; 32];
            let mut image = [255; 2320];
            try_three(&rt, Bank::new(FOUR, &mut cells), &layers, lost.as_slice());
            try_three(
                &rt,
                BlockFile::new(FOUR, &mut image),
                &layers,
                lost.as_slice(),
            );
        }
        Ok(())
    }

    // The sum over the sum, on a block file of three nodes; copies over copies, on a bank of four.
    #[test]
    fn two_levels_of_a_kind(rt: HostRuntime) -> Result<(), Fail> {
        let sums = [level_of(sum(&rt), 3, 3), level_of(sum(&rt), 3, 2)];
        for set in 0..8 {
            let lost = nodes_of(rt.alloc(), 3, set)?;
            let mut image = [255; 3904];
            try_two(
                &rt,
                BlockFile::new(THREE, &mut image),
                &sums,
                lost.as_slice(),
            );
        }
        let twice = [level_of(copies(&rt), 4, 2), level_of(copies(&rt), 4, 1)];
        for set in 0..16 {
            let lost = nodes_of(rt.alloc(), 4, set)?;
            let mut cells = [BLANK; 32];
            try_two(&rt, Bank::new(FOUR, &mut cells), &twice, lost.as_slice());
        }
        Ok(())
    }

    // Copies over the Cauchy code with two checks, on a bank and on a block file of six nodes.
    #[test]
    fn copies_over_two_checks(rt: HostRuntime) -> Result<(), Fail> {
        let layers = [
            level_of(cauchy(&rt, 2, 2), 6, 1),
            level_of(copies(&rt), 3, 1),
        ];
        for set in 0..64 {
            let lost = nodes_of(rt.alloc(), 6, set)?;
            let mut cells = [BLANK; 48];
            let mut image = [255; 3472];
            try_two(&rt, Bank::new(SIX, &mut cells), &layers, lost.as_slice());
            try_two(
                &rt,
                BlockFile::new(SIX, &mut image),
                &layers,
                lost.as_slice(),
            );
        }
        Ok(())
    }
}
