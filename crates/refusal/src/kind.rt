// Why a call is refused: one list for the whole store.
#[derive(Clone, Copy, PartialEq, Eq, Debug)]
pub enum Refusal {
    // the node or rank is not below the number of nodes
    Node,
    // the place is not below the number of places
    Place,
    // the slot is not below the number of slots
    Slot,
    // a buffer has not the length that is stated for it
    Length,
    // open of a slot that is not empty
    SlotNotEmpty,
    // put or seal on a slot that is not open
    SlotNotOpen,
    // the cell is absent in an open slot, or a gap in a sealed one
    Missing { node: usize, place: usize },
    // get on an empty slot
    SlotEmpty,
    // seal or commit while a cell is absent: the first one, by rank and then place
    Incomplete { rank: usize, place: usize },
    // begin with 0, or with a number not above every number accepted before
    NotAbove,
    // begin or recover while a dataset is open
    DatasetOpen,
    // begin while all slots but one are in use
    SlotsInUse,
    // the ticket's number is not that of the open dataset
    OtherTicket,
    // read or drop of a number that is not kept
    NotKept,
    // recover while no kept dataset is whole
    NoneWhole,
    // sizes outside their limits
    Sizes,
    // rebuild with fewer held blocks than a word has data
    TooFewBlocks,
    // the check number or the block number is too high
    BlockNumber,
    // an image that breaks the format: where its first bad head or record starts
    Damaged { byte: usize },
}
