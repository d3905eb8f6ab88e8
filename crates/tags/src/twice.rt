// Whether a name stands twice among many attributes. What is kept has a fixed size: the places and marks of one block of attributes, against
// which all that follow are held; then those of the next block. So a tag of n attributes is walked n / 256 times, and not n times.
ghost use Rattle.std.specs.Prelude.{◌≡◌, ◌%◌, ◌<◌, eqb, get_or};
ghost use Rattle.wire.specs.Field.{same};
ghost use Rattle.letters.specs.Places.{walk};
ghost use Rattle.tags.specs.Names.{name_at};
ghost use Rattle.tags.specs.Attributes.{attributes_at};
ghost use Rattle.tags.specs.Twice.{block, slots, mark_from, mark_at, among, turn_by, sooner, keeping, Marked, Filled};

use letters::{Reach, Turn};

// How many attributes a block has.
const BLOCK: usize = 256;

// How many slots there are for their marks: so many that most names that are new find theirs free.
const SLOTS: usize = 2048;

// A number that depends on a name alone. The factor is odd, so that each byte of the name counts.
fn mark(name: &[u8]) -> u64
    ensures { result ≡ mark_from 0 name.now }
{
    let mut v: u64 = 0;
    for b in name {
        v = v % 72057594037927936 * 251 + *b as u64;
    }
    v
}

// Whether the name at place k is the given one. Only where the marks are equal can it be.
fn alike(s: &[u8], k: usize, its: u64, name: &[u8], given: u64) -> bool
    requires { (its ≡ mark_at s.now k) × (given ≡ mark_from 0 name.now) }
    ensures { result ≡ same (name_at s.now k) name.now }
{
    if its != given {
        return false;
    }
    texts::same(crate::name_at(s, k), name)
}

// What is kept of a block of attributes: the place and the mark of each, and which slots their marks take.
#[derive(Drop)]
struct Kept {
    places: [usize; BLOCK],
    marks: [u64; BLOCK],
    seen: [u8; SLOTS],
}

impl Kept {
    // Whether no name of the block has the slot of the given mark.
    fn free(&self, given: u64) -> bool
        ensures { result ≡ eqb (get_or self.now.seen (given % slots) 0) 0 }
    {
        self.seen[given as usize % SLOTS] == 0
    }

    // Whether the name at place at stands at one of the first n places too.
    fn holds(&self, s: &[u8], n: usize, at: usize) -> bool
        requires { Marked s.now self.now n }
        ensures { result ≡ among s.now self.now.places n at }
    {
        let name = crate::name_at(s, at);
        let given = mark(name);
        if self.free(given) {
            return false;
        }
        for j in 0..n {
            if alike(s, self.places[j], self.marks[j], name, given) {
                return true;
            }
        }
        false
    }

    fn turn(&self, s: &[u8], n: usize, at: usize) -> Turn
        requires { Marked s.now self.now n }
        ensures { result ≡ turn_by (among s.now self.now.places n) s.now at }
    {
        crate::turns::turn_by(s, at, |k| self.holds(s, n, k))
    }

    // Keeps the attribute that follows the spaces at place at.
    fn keep(&mut self, s: &[u8], n: usize, at: usize)
        requires { n < block }
        ensures { self.new ≡ keeping s.now n at self.old }
    {
        let k = crate::space_end(s, at);
        let its = mark(crate::name_at(s, k));
        self.places[n] = k;
        self.marks[n] = its;
        self.seen[its as usize % SLOTS] = 1;
    }

    // Fills the block with the attributes from a place on, each of which is held against those before it.
    fn fill(&mut self, s: &[u8], from: usize) -> Turn
        ensures { Filled s.now from self.new result }
    {
        let mut i = from;
        for n in 0..BLOCK {
            match self.turn(s, n, i) {
                Turn::On(next) => {
                    self.keep(s, n, i);
                    i = next;
                }
                Turn::Ends(e) => {
                    return Turn::Ends(e);
                }
                Turn::Breaks(p) => {
                    return Turn::Breaks(p);
                }
            }
        }
        Turn::On(i)
    }

    // The attributes that follow the block, each of which is held against those of the block alone.
    fn follow(&self, s: &[u8], at: usize) -> Reach
        requires { Marked s.now self.now block }
        ensures { result ≡ walk (turn_by (among s.now self.now.places block) s.now) s.now at }
    {
        letters::walk(s, at, |i| self.turn(s, BLOCK, i))
    }
}

#[tactic(auto, unfolding(crate::specs::Twice::sooner))]
fn first_of(a: Reach, b: Reach) -> Reach
    ensures { result ≡ sooner a b }
{
    match a {
        Ok(_) => b,
        Err(p) => match b {
            Ok(_) => Err(p),
            Err(q) => Err(wire::least(p, q)),
        },
    }
}

// The attributes of a tag, block by block: the answer is where the first walk breaks that does.
pub(crate) fn many(s: &[u8], from: usize) -> Reach
    ensures { result ≡ attributes_at s.now from }
{
    let mut kept = Kept {
        places: [0; BLOCK],
        marks: [0; BLOCK],
        seen: [0; SLOTS],
    };
    let mut first = Ok(from);
    let mut i = from;
    loop {
        match kept.fill(s, i) {
            Turn::On(n) => {
                first = first_of(first, kept.follow(s, n));
                // For speed alone: a slot that stays taken costs a search.
                kept.seen = [0; SLOTS];
                i = n;
            }
            Turn::Ends(e) => {
                return first_of(first, Ok(e));
            }
            Turn::Breaks(p) => {
                return first_of(first, Err(p));
            }
        }
    }
}
