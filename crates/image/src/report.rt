// What an image holds, for people.
ghost use Rattle.std.specs.Prelude.{◌≡◌, ◌<◌, ◌≤◌};
ghost use Rattle.image_reader.specs.Reader.{shape_of};
ghost use Rattle.image.specs.Held.{has, of_node, of_nodes};

use crate::crc::crc32;
use block::BLOCK;
use image_reader::reader::ImageReader;
use refusal::kind::Refusal;
use std::{fmt, io};
use store::kinds::{Shape, State};
use store::{Reading, read_rank};
use words::counted::Counted;

// A state, as a word.
#[derive(Clone, Copy)]
struct Named(State);

impl fmt::Display for Named {
    fn fmt<W: fmt::Write>(&self, f: &mut fmt::Formatter<W>) -> fmt::Result {
        match self.0 {
            State::Empty => write!(f, "empty"),
            State::Open => write!(f, "open"),
            State::Sealed => write!(f, "sealed"),
        }
    }
}

// How many of a node's cells a slot holds, as a sign: all, none or some.
#[derive(Clone, Copy)]
struct Sign {
    held: usize,
    places: usize,
}

impl fmt::Display for Sign {
    fn fmt<W: fmt::Write>(&self, f: &mut fmt::Formatter<W>) -> fmt::Result {
        if self.held == self.places {
            write!(f, "+")
        } else if self.held == 0 {
            write!(f, "-")
        } else {
            write!(f, "~")
        }
    }
}

// A slot of an image.
#[derive(Clone, Copy)]
struct Slot<'a> {
    reader: ImageReader<'a>,
    number: usize,
    ghost within: { number < (shape_of reader).slots },
}

impl Slot<'_> {
    // Whether a cell has a block.
    fn holds(&self, node: usize, place: usize) -> bool
        ensures { result ≡ has self.now.reader self.now.number node place }
    {
        self.reader.block(self.number, node, place).is_ok()
    }

    // How many cells a node has.
    fn held(&self, node: usize) -> usize
        ensures { result ≡ of_node self.now.reader self.now.number node }
    {
        (0..self.reader.shape().places)
            .filter(|place| self.holds(node, *place))
            .count()
    }

    // How many cells there are.
    fn cells(&self) -> usize
        ensures { result ≡ of_nodes self.now.reader self.now.number (shape_of self.now.reader).nodes }
    {
        (0..self.reader.shape().nodes)
            .map(|node| self.held(node))
            .sum()
    }

    // Prints a sign for each node.
    fn print_nodes(&self, rt: &HostRuntime) -> io::Result<()> {
        let Shape { nodes, places, .. } = self.reader.shape();
        print!(rt; "  nodes ")?;
        for node in 0..nodes {
            let held = self.held(node);
            let sign = Sign { held, places };
            print!(rt; "{sign}")?;
        }
        println!(rt; "")
    }

    // Prints the length and the CRC-32 of a rank's file, or where it has a gap.
    fn print_rank(&self, rt: &HostRuntime, rank: usize) -> io::Result<()> {
        let bytes = BLOCK * self.reader.shape().places;
        // A fixed buffer with room for the longest file, so that printing needs no memory.
        let mut room = [0; 4096];
        let file = &mut room[..bytes];
        match read_rank(&self.reader, self.number, rank, file) {
            Ok(()) => {
                let crc = crc32(file);
                println!(rt; "  rank {rank}: {bytes} bytes, crc32 {crc:08x}")
            }
            Err(Refusal::Missing { place, .. }) => {
                println!(rt; "  rank {rank}: gap at place {place}")
            }
            Err(refusal) => println!(rt; "  rank {rank}: {refusal}"),
        }
    }

    // Prints its nodes unless it is empty, and its ranks if it is sealed.
    fn print(&self, rt: &HostRuntime) -> io::Result<()> {
        let slot = self.number;
        let shape = self.reader.shape();
        let state = self.reader.state(slot).unwrap();
        let name = Named(state);
        let held = self.cells();
        let all = shape.nodes * shape.places;
        println!(rt; "slot {slot}: {name}, {held} of {all} cells")?;
        if state != State::Empty {
            self.print_nodes(rt)?;
        }
        if state == State::Sealed {
            for rank in 0..shape.nodes {
                self.print_rank(rt, rank)?;
            }
        }
        Ok(())
    }
}

// Prints the sizes of an image and its slots. It ensures nothing: no contract speaks of what is printed.
pub fn print(rt: &HostRuntime, path: &str, reader: &ImageReader) -> io::Result<()> {
    let shape = reader.shape();
    let nodes = Counted::of(shape.nodes, "node");
    let places = Counted::of(shape.places, "place");
    let slots = Counted::of(shape.slots, "slot");
    println!(rt; "image {path}: {nodes}, {places}, {slots}")?;
    for number in 0..shape.slots {
        let reader = *reader;
        Slot { reader, number }.print(rt)?;
    }
    Ok(())
}
