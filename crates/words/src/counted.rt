// A number of things, in words.
ghost use Rattle.std.specs.Prelude.{◌≡◌};

use std::fmt;

// So many of them: `1 stripe`, `5 stripes`.
#[derive(Clone, Copy)]
pub struct Counted {
    number: usize,
    thing: &'static str,
}

impl Counted {
    // The number, and the name of one of them.
    pub fn of(number: usize, thing: &'static str) -> Counted
        ensures { (result.number ≡ number) × (result.thing.now ≡ thing.now) }
    {
        Counted { number, thing }
    }
}

// The number and the name, which gets an s but for one.
impl fmt::Display for Counted {
    fn fmt<W: fmt::Write>(&self, f: &mut fmt::Formatter<W>) -> fmt::Result {
        let number = self.number;
        let thing = self.thing;
        if number == 1 {
            write!(f, "1 {thing}")
        } else {
            write!(f, "{number} {thing}s")
        }
    }
}
