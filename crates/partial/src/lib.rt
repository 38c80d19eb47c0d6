// The partial wiring, by value: one step gives it the next input's choice and returns it, and it answers where a cube's
// literals go; one step back takes the last choice away. With it, the test of one pair and the first dead pair of two records.
#![tactic(auto)]

ghost use Rattle.std.specs.Prelude.{◌≡◌, true, ◌&&◌, [], ◌+◌, ◌-◌, ◌*◌, ◌/◌, ◌%◌, ◌≤◌, ◌<◌, length, get_or, take};
ghost use Rattle.bits.specs.Bits.{has, mask, any};
ghost use Rattle.rules.specs.Rules.{◌adding◌};
ghost use Rattle.wirings.specs.Wirings.{choice_at, rank, is_choice};
ghost use Rattle.wirings.specs.Pairs.{separates, dead, side, against, first_dead};
ghost use Rattle.partial.specs.Partial.{prefix, StandsFor, Formed, may_place, offer_from, located, led, carried, opposes, clears, found, row, rows};

use cubes::Cube;
use records::Record;

// The masks of a partial wiring of n inputs: the inputs of f below `depth` have their choices, byte i of `choices` for input i. Two masks
// say what remains: the inputs of f that are unplaced, and the inputs of g that are free. Two more hold the choices bit by bit,
// so that a cube is carried over without a loop: `inverted` has bit i if input i's choice is inverted, and byte i of `bits` has
// the bit of the input of g that serves input i.
#[derive(Clone, Copy, PartialEq, Eq)]
pub struct Masks {
    pub n: u8,
    pub depth: u8,
    pub unplaced: u8,
    pub free: u8,
    pub inverted: u8,
    pub choices: u64,
    pub bits: u64,
}

// A partial wiring: masks that stand for its n and its choices, each of which the rule of 01 allows.
#[derive(Clone, Copy)]
pub struct Wiring {
    pub masks: Masks,
    ghost formed: { Formed masks },
}

// A cube of f carried over to the inputs of g: the inputs that its placed literals ask to be 1, those they ask to be 0, and
// those at which a literal not yet placed may still come to stand.
#[derive(Clone, Copy, PartialEq, Eq)]
pub struct Carried {
    pub pos: u8,
    pub neg: u8,
    pub free: u8,
}

// A pair: cube u of list s of f, and cube v of the list of g from which it is to be kept apart.
#[derive(Clone, Copy, PartialEq, Eq)]
pub struct Pair {
    pub s: u8,
    pub u: usize,
    pub v: usize,
}

// The choice at place c of the order: by j upward, plain before inverted.
pub fn choice(c: u8) -> u8
    ensures { result ≡ choice_at c }
{
    (c >> 1) + ((c & 1) << 4)
}

// The place of a choice in that order.
pub fn rank(choice: u8) -> u8
    requires { choice < 32 }
    ensures { result ≡ rank choice }
{
    2 * (choice & 15) + (choice >> 4)
}

// Whether a byte is a choice of n inputs: 0 to n − 1 or 16 to 16 + n − 1.
pub fn is_choice(n: u8, b: u8) -> bool
    ensures { result ≡ is_choice n b }
{
    b < n || 16 <= b && b - 16 < n
}

// List s of a record: 0 its on list, 1 its off list. Any number is taken, as everywhere below: an enum would ask more of callers.
#[tactic(auto, unfolding(wirings::specs::Pairs::side))]
pub fn side<'a>(f: Record<'a>, s: u8) -> &'a [u8]
    ensures { result.now ≡ side s f.entry.bytes.now }
{
    match s {
        0 => f.on_list(),
        _ => f.off_list(),
    }
}

// The list of g from which list s of f is to be kept apart under q.
#[tactic(auto, unfolding(wirings::specs::Pairs::against))]
pub fn against(q: u8, s: u8) -> u8
    ensures { result ≡ against q s }
{
    match (q, s) {
        (0, 0) => 1,
        (0, _) => 0,
        _ => s,
    }
}

// Byte i is `byte` where bit i is 1, and else 0: of a copy of the inputs in each byte, bit i of byte i is kept and carried to the
// top of its byte; taken down, it is what `byte` is multiplied by there.
#[tactic(auto, using(crate::proofs::Bytes::copied_is))]
fn copied(byte: u8, inputs: u8) -> u64
    ensures { result ≡ mask 64 (λ k. has inputs (k / 8) && has byte (k % 8)) }
{
    let diagonal = (inputs as u64 * 0x0101_0101_0101_0101) & 0x8040_2010_0804_0201;
    (((diagonal + 0x0040_6070_787C_7E7F) >> 7) & 0x0101_0101_0101_0101) * byte as u64
}

// Byte i is 255 where bit i is 1, and else 0.
fn spread(inputs: u8) -> u64
    ensures { result ≡ mask 64 (λ k. has inputs (k / 8)) }
{
    copied(255, inputs)
}

// Bit j is 1 where some byte has bit j.
#[tactic(auto, using(crate::proofs::Bytes::folded_is))]
fn folded(bytes: u64) -> u8
    ensures { result ≡ mask 8 (λ j. any 8 (λ i. has bytes (8 * i + j))) }
{
    let four = bytes | (bytes >> 32);
    let two = four | (four >> 16);
    ((two | (two >> 8)) & 255) as u8
}

// The inputs of g that serve some of these inputs of f: the bytes of the others are left out.
fn led(bits: u64, inputs: u8) -> u8
    ensures { result ≡ led bits inputs }
{
    folded(bits & spread(inputs))
}

impl Carried {
    // Whether a placed literal is the opposite of a literal of the cube of g.
    #[tactic(auto, using(crate::proofs::Carrying::opposes_masks))]
    pub fn opposes(self, cube: Cube) -> bool
        ensures { result ≡ opposes self cube.pos cube.neg }
    {
        (self.pos & cube.neg) | (self.neg & cube.pos) != 0
    }

    // Whether no literal of the cube of g is, or may still be, opposed.
    #[tactic(auto, using(crate::proofs::Carrying::clears_masks))]
    pub fn clears(self, cube: Cube) -> bool
        ensures { result ≡ clears self cube.pos cube.neg }
    {
        (self.pos & cube.neg) | (self.neg & cube.pos) | (self.free & (cube.pos | cube.neg)) == 0
    }

    // The first cube of a list of g that makes a dead pair with this one, cube u of list s of f.
    #[tactic(auto, using(crate::proofs::Rows::row_walk))]
    fn row(self, list: &[u8], s: u8, u: usize) -> Option<Pair>
        ensures { result ≡ found (row self list.now s u) }
    {
        for (v, &[pos, neg]) in cubes::each(list).iter().enumerate() {
            if self.clears(Cube { pos, neg }) {
                return Some(Pair { s, u, v });
            }
        }
        None
    }
}

impl Wiring {
    // The empty one of n inputs.
    pub fn start(n: u8) -> Self
        requires { n ≤ 8 }
        ensures { StandsFor result.masks n [] }
    {
        let all = ((1u32 << n) - 1) as u8;
        Wiring {
            masks: Masks {
                n,
                depth: 0,
                unplaced: all,
                free: all,
                inverted: 0,
                choices: 0,
                bits: 0,
            },
        }
    }

    // Whether a byte is a choice whose input of g is free.
    #[tactic(auto, using(crate::proofs::Standing::too_large, crate::proofs::Standing::free_masks))]
    pub fn free(self, choice: u8) -> bool
        ensures { result ≡ may_place self.masks choice }
    {
        if choice >= 32 {
            return false;
        }
        (self.masks.free as u32 >> (choice & 15)) & 1 != 0
    }

    // The first place from c on, in the order of choices, whose choice is free; 2n if there is none. Place c is of input c / 2 of
    // g: if that is free, c itself, and else the plain choice of the next input that is, where n stands for none.
    #[tactic(auto, using(crate::proofs::Offering::offering))]
    pub fn offer(self, c: u8) -> u8
        requires { c ≤ 2 * self.masks.n }
        ensures { result ≡ offer_from self.masks.n (prefix self.masks) c }
    {
        let j = c >> 1;
        let left = (self.masks.free as u32 | (1u32 << self.masks.n)) >> j;
        if left & 1 != 0 {
            return c;
        }
        2 * (j + u32::trailing_zeros(left) as u8)
    }

    // The next input of f is given its choice.
    #[tactic(auto, using(crate::proofs::Standing::placing))]
    pub fn place(self, choice: u8) -> Self
        requires { may_place self.masks choice ≡ true }
        ensures { StandsFor result.masks self.masks.n (prefix self.masks adding choice) }
    {
        let i = self.masks.depth;
        let j = choice & 15;
        Wiring {
            masks: Masks {
                depth: i + 1,
                unplaced: self.masks.unplaced & !(1 << i),
                free: self.masks.free & !(1 << j),
                inverted: self.masks.inverted | ((choice >> 4) << i),
                choices: self.masks.choices + ((choice as u64) << (8 * i)),
                bits: self.masks.bits | (1u64 << (8 * i + j)),
                ..self.masks
            },
        }
    }

    // The choice that was placed last.
    #[tactic(auto, using(crate::proofs::Back::taking))]
    pub fn last(self) -> u8
        requires { 0 < self.masks.depth }
        ensures { result ≡ get_or (prefix self.masks) (self.masks.depth - 1) 0 }
    {
        ((self.masks.choices >> (8 * (self.masks.depth - 1))) & 255) as u8
    }

    // It is taken back.
    #[tactic(auto, using(crate::proofs::Back::taking))]
    pub fn back(self) -> Self
        requires { 0 < self.masks.depth }
        ensures { StandsFor result.masks self.masks.n (take (self.masks.depth - 1) (prefix self.masks)) }
    {
        let i = self.masks.depth - 1;
        let choice = self.last();
        let j = choice & 15;
        Wiring {
            masks: Masks {
                depth: i,
                unplaced: self.masks.unplaced | (1 << i),
                free: self.masks.free | (1 << j),
                inverted: self.masks.inverted & !(1 << i),
                choices: self.masks.choices - ((choice as u64) << (8 * i)),
                bits: self.masks.bits & !(1u64 << (8 * i + j)),
                ..self.masks
            },
        }
    }

    // Where a placed literal goes. A literal is written like a choice: input i as it is, or i + 16 if negated.
    #[tactic(auto, using(crate::proofs::Standing::literal_room, crate::proofs::Standing::located_masks))]
    pub fn locate(self, literal: u8) -> u8
        requires { is_choice self.masks.depth literal ≡ true }
        ensures { result ≡ located (prefix self.masks) literal }
    {
        let choice = ((self.masks.choices >> (8 * (literal & 15))) & 255) as u8;
        choice ^ (literal & 16)
    }

    // Where the literals of a cube of f go: an inverted choice turns its literal round.
    #[tactic(auto, using(crate::proofs::Carrying::all_led))]
    pub fn carry(self, cube: Cube) -> Carried
        ensures { result ≡ carried self.masks.n (prefix self.masks) cube.pos cube.neg }
    {
        let Cube { pos, neg } = cube;
        let turned = (pos ^ neg) & self.masks.inverted;
        let waits = (pos | neg) & self.masks.unplaced != 0;
        Carried {
            pos: led(self.masks.bits, pos ^ turned),
            neg: led(self.masks.bits, neg ^ turned),
            free: if waits { self.masks.free } else { 0 },
        }
    }

    // Whether a placed literal separates the two cubes. The literals are tested where they stand: byte i of `bits` is laid over the
    // inputs of g at which the literal of input i is opposed, and an inverted choice turns its literal round.
    #[tactic(auto, using(crate::proofs::Matrix::matrix_separates))]
    pub fn separated(self, ours: Cube, theirs: Cube) -> bool
        ensures { result ≡ separates (prefix self.masks) ours.pos ours.neg theirs.pos theirs.neg }
    {
        let turned = (ours.pos ^ ours.neg) & self.masks.inverted;
        let opposed = copied(theirs.neg, ours.pos ^ turned) | copied(theirs.pos, ours.neg ^ turned);
        self.masks.bits & opposed != 0
    }

    // Whether the two cubes are a dead pair: no placed literal separates them, and none that waits can come to.
    #[tactic(auto, using(crate::proofs::Matrix::waits, crate::proofs::Matrix::awaits), unfolding(wirings::specs::Pairs::dead))]
    pub fn dead(self, ours: Cube, theirs: Cube) -> bool
        ensures { result ≡ dead self.masks.n (prefix self.masks) ours.pos ours.neg theirs.pos theirs.neg }
    {
        let waits = (ours.pos | ours.neg) & self.masks.unplaced != 0;
        let may = (theirs.pos | theirs.neg) & self.masks.free != 0;
        !(waits && may) && !self.separated(ours, theirs)
    }

    // The first dead pair of a list of f, its list s, with a list of g.
    #[tactic(auto, using(crate::proofs::Rows::walk))]
    fn rows(self, list: &[u8], other: &[u8], s: u8) -> Option<Pair>
        ensures { result ≡ found (rows self.masks.n (prefix self.masks) list.now other.now s) }
    {
        for (u, &[pos, neg]) in cubes::each(list).iter().enumerate() {
            if let Some(pair) = self.carry(Cube { pos, neg }).row(other, s, u) {
                return Some(pair);
            }
        }
        None
    }

    // The first dead pair of f and g under q, in order of s, u, v.
    #[tactic(auto, using(crate::proofs::Rows::first_dead_on, crate::proofs::Rows::first_dead_off))]
    pub fn first_dead(self, f: Record, g: Record, q: u8) -> Option<Pair>
        ensures { result ≡ found (first_dead self.masks.n q f.entry.bytes.now g.entry.bytes.now (prefix self.masks)) }
    {
        if let Some(pair) = self.rows(side(f, 0), side(g, against(q, 0)), 0) {
            return Some(pair);
        }
        self.rows(side(f, 1), side(g, against(q, 1)), 1)
    }
}
