// What is told of a file on a level.
use crate::command::Kind;
use crate::job::Unmarked;
use std::fmt;
use stripe_map::layout::Layout;
use words::counted::Counted;

// What became of a cell.
#[derive(Clone, Copy)]
pub enum Fate {
    // its node is there
    Direct,
    // its node is lost, and the level gives its block
    Rebuilt,
    // the level does not give its block
    Gap,
}

// Its letter on the map.
impl fmt::Display for Fate {
    fn fmt<W: fmt::Write>(&self, f: &mut fmt::Formatter<W>) -> fmt::Result {
        match self {
            Fate::Direct => write!(f, "d"),
            Fate::Rebuilt => write!(f, "r"),
            Fate::Gap => write!(f, "-"),
        }
    }
}

// What was seen of a rank. The flags are no Option: a rank that did not come back, or whose node is lost, has cells to show too.
#[derive(Drop)]
pub struct Rank {
    // what became of each of its cells, by place
    pub cells: Vec<Fate>,
    // whether its bytes came back in every piece
    pub back: bool,
    // whether its node was lost
    pub lost: bool,
}

// The letters of its cells, and whether its bytes came back.
impl fmt::Display for Rank {
    fn fmt<W: fmt::Write>(&self, f: &mut fmt::Formatter<W>) -> fmt::Result {
        for fate in self.cells.iter() {
            write!(f, "{fate}")?;
        }
        if self.back {
            write!(f, " came back")
        } else {
            write!(f, " has gaps")
        }
    }
}

// What became of a file on a level.
#[derive(Drop)]
pub struct LevelReport<'a> {
    pub kind: Kind,
    pub layout: Layout,
    pub path: &'a str,
    pub bytes: usize,
    pub pieces: usize,
    // bytes of a piece
    pub piece: usize,
    // 0 for each node that was lost
    pub marks: Vec<u8>,
    pub ranks: Vec<Rank>,
}

impl LevelReport<'_> {
    // The sizes of the level and the file, and the lost nodes. No contract: they are only printed.
    fn write_head<W: fmt::Write>(&self, f: &mut fmt::Formatter<W>) -> fmt::Result {
        let kind = self.kind;
        let nodes = Counted::of(self.layout.nodes, "node");
        let group = self.layout.group;
        let lanes = Counted::of(self.layout.lanes, "lane");
        let data = Counted::of(self.layout.k, "data block");
        let checks = Counted::of(self.layout.m, "check");
        write!(
            f,
            "level of {kind}: {nodes} in groups of {group}, {lanes}, "
        )?;
        writeln!(f, "{data} and {checks}")?;
        let path = self.path;
        let bytes = Counted::of(self.bytes, "byte");
        let pieces = Counted::of(self.pieces, "piece");
        let piece = Counted::of(self.piece, "byte");
        writeln!(f, "file {path}: {bytes} in {pieces} of {piece}")?;
        let lost = Unmarked::of(self.marks.as_slice());
        writeln!(f, "lost nodes:{lost}")
    }

    // The ranks with a gap, if there is one. No contract: they are only printed.
    fn write_end<W: fmt::Write>(&self, f: &mut fmt::Formatter<W>) -> fmt::Result {
        if self.ranks.iter().all(|rank| rank.back) {
            return write!(f, "every byte came back");
        }
        write!(f, "ranks with gaps:")?;
        for (number, _) in self.ranks.iter().enumerate().filter(|(_, rank)| !rank.back) {
            write!(f, " {number}")?;
        }
        Ok(())
    }
}

// A line for each fact, and one for each rank.
impl fmt::Display for LevelReport<'_> {
    fn fmt<W: fmt::Write>(&self, f: &mut fmt::Formatter<W>) -> fmt::Result {
        self.write_head(f)?;
        writeln!(f, "d direct, r rebuilt, - gap")?;
        for (number, rank) in self.ranks.iter().enumerate() {
            writeln!(f, "rank {number}: {rank}")?;
        }
        self.write_end(f)
    }
}
