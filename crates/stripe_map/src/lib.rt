// How the words of a code lie on the nodes of a store.
#![tactic(auto)]

ghost use Rattle.std.specs.Prelude.{◌≡◌, ℕ, ◌+◌, ◌*◌, ◌≤◌};
ghost use Rattle.refusal.specs.Answer.{outcome};
ghost use Rattle.code.specs.Making.{Makes};
ghost use Rattle.stripe_map.specs.Map.{address_of, member_of, locate_refusal, trace_refusal};
ghost use Rattle.stripe_map.specs.Sizes.{fits_over, Laid_out};

use code::Sizes;
use refusal::kind::Refusal;
use store::kinds::Shape;

pub mod layout;

use layout::{Address, Layout, Member, Stripe};

impl Layout {
    // The layout of a level over a store of that shape, for a code of those sizes, if they fit.
    pub fn new(shape: Shape, sizes: Sizes, group: usize, lanes: usize) -> Result<Layout, Refusal>
        ensures { Makes (fits_over shape sizes group lanes) (Laid_out shape sizes group lanes) result }
    {
        if !shape.is_admitted()
            || !sizes.is_admitted()
            || !(1..=64).contains(&lanes)
            || group < sizes.k + sizes.m
            || shape.nodes % group != 0
            || (sizes.k + sizes.m) * lanes != shape.places
        {
            return Err(Refusal::Sizes);
        }
        Ok(Layout {
            nodes: shape.nodes,
            group,
            lanes,
            k: sizes.k,
            m: sizes.m,
        })
    }

    // How many blocks a stripe has.
    pub fn width(&self) -> usize
        ensures is { result ≡ self.now.k + self.now.m }
        ensures most { result ≤ 16 }
    {
        self.k + self.m
    }

    // How many places of a node have data, the first ones.
    pub fn places(&self) -> usize
        ensures { result ≡ self.now.k * self.now.lanes }
    {
        self.k * self.lanes
    }

    // Where a block of a stripe lies.
    #[tactic(auto, unfolding(crate::specs::Map::node_of, crate::specs::Map::place_of))]
    pub fn locate(&self, stripe: Stripe, number: usize) -> Result<Address, Refusal>
        ensures { result ≡ outcome (locate_refusal self.now stripe number) (address_of self.now stripe number) }
    {
        let groups = self.nodes / self.group;
        if stripe.group >= groups || stripe.first >= self.group || stripe.lane >= self.lanes {
            return Err(Refusal::Sizes);
        }
        if number >= self.width() {
            return Err(Refusal::BlockNumber);
        }
        Ok(Address {
            node: stripe.group * self.group + (stripe.first + number) % self.group,
            place: number * self.lanes + stripe.lane,
        })
    }

    // Which block of which stripe lies at a node and a place.
    #[tactic(auto, unfolding(crate::specs::Map::stripe_of, crate::specs::Map::block_of))]
    pub fn trace(&self, node: usize, place: usize) -> Result<Member, Refusal>
        ensures { result ≡ outcome (trace_refusal self.now node place) (member_of self.now node place) }
    {
        if node >= self.nodes {
            return Err(Refusal::Node);
        }
        if place >= self.width() * self.lanes {
            return Err(Refusal::Place);
        }
        let number = place / self.lanes;
        let stripe = Stripe {
            group: node / self.group,
            first: (node % self.group + (self.group - number)) % self.group,
            lane: place % self.lanes,
        };
        Ok(Member { stripe, number })
    }
}
