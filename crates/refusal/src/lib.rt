// Refusals: what a call answers when it does not do what was asked, and leaves everything as it was.
#![tactic(auto)]

ghost use Rattle.std.specs.Prelude.{◌≡◌};
ghost use Rattle.refusal.specs.Number.{number_of};

use std::fmt;

pub mod kind;

use kind::Refusal;

impl Refusal {
    // The number by which callers know the refusal. Written out, since a case that carries values has no number of its own.
    pub fn number(&self) -> u8
        ensures { result ≡ number_of self.now }
    {
        match self {
            Refusal::Node => 1,
            Refusal::Place => 2,
            Refusal::Slot => 3,
            Refusal::Length => 4,
            Refusal::SlotNotEmpty => 5,
            Refusal::SlotNotOpen => 6,
            Refusal::Missing { .. } => 7,
            Refusal::SlotEmpty => 8,
            Refusal::Incomplete { .. } => 9,
            Refusal::NotAbove => 10,
            Refusal::DatasetOpen => 11,
            Refusal::SlotsInUse => 12,
            Refusal::OtherTicket => 13,
            Refusal::NotKept => 14,
            Refusal::NoneWhole => 15,
            Refusal::Sizes => 16,
            Refusal::TooFewBlocks => 17,
            Refusal::BlockNumber => 18,
            Refusal::Damaged { .. } => 19,
        }
    }

    // The refusal in words, without the values that it carries.
    fn reason(&self) -> &'static str {
        match self {
            Refusal::Node => "no such node",
            Refusal::Place => "no such place",
            Refusal::Slot => "no such slot",
            Refusal::Length => "a buffer has the wrong length",
            Refusal::SlotNotEmpty => "the slot is not empty",
            Refusal::SlotNotOpen => "the slot is not open",
            Refusal::Missing { .. } => "no block at",
            Refusal::SlotEmpty => "the slot is empty",
            Refusal::Incomplete { .. } => "not complete: the first block missing is at",
            Refusal::NotAbove => "the number is not above all earlier ones",
            Refusal::DatasetOpen => "a dataset is open",
            Refusal::SlotsInUse => "too many slots are in use",
            Refusal::OtherTicket => "the ticket is not that of the open dataset",
            Refusal::NotKept => "no dataset of that number is kept",
            Refusal::NoneWhole => "no kept dataset is whole",
            Refusal::Sizes => "sizes outside the limits",
            Refusal::TooFewBlocks => "too few blocks are held",
            Refusal::BlockNumber => "no such block",
            Refusal::Damaged { .. } => "damaged image: the bad record starts at",
        }
    }
}

// The refusal for people: its number, the reason, and the values that it carries.
impl fmt::Display for Refusal {
    fn fmt<W: fmt::Write>(&self, f: &mut fmt::Formatter<W>) -> fmt::Result {
        let number = self.number();
        let reason = self.reason();
        write!(f, "refusal {number}: {reason}")?;
        match self {
            Refusal::Missing { node, place } => write!(f, " node {node}, place {place}"),
            Refusal::Incomplete { rank, place } => write!(f, " rank {rank}, place {place}"),
            Refusal::Damaged { byte } => write!(f, " byte {byte}"),
            _ => Ok(()),
        }
    }
}

#[cfg(test)]
mod tests {
    use super::*;
    use std::test::Fail;

    #[test]
    fn texts(rt: HostRuntime) -> Result<(), Fail> {
        let texts = [
            (Refusal::Node, "refusal 1: no such node"),
            (
                Refusal::Missing { node: 3, place: 1 },
                "refusal 7: no block at node 3, place 1",
            ),
            (
                Refusal::Incomplete { rank: 0, place: 63 },
                "refusal 9: not complete: the first block missing is at rank 0, place 63",
            ),
            (Refusal::TooFewBlocks, "refusal 17: too few blocks are held"),
            (
                Refusal::Damaged { byte: 304 },
                "refusal 19: damaged image: the bad record starts at byte 304",
            ),
        ];
        for (refusal, text) in texts {
            let shown = format!(in rt.alloc(); "{refusal}")?;
            assert_eq!(rt; shown.as_str(), text);
        }
        Ok(())
    }
}
