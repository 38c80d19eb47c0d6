// Cubes as masks: tests of one cube, and walks over a list of cubes. Each contract speaks of patterns and inputs; that
// masks do the same is proved in proofs/.
#![tactic(auto)]

ghost use Rattle.std.specs.Prelude.{◌≡◌, false, ℕ, ◌+◌, ◌*◌, ◌/◌, ◌%◌, ◌≤◌, get_or};
ghost use Rattle.std.specs.declared.option.Option.TheVariants.{None};
ghost use Rattle.bits.specs.Bits.{has, lesser};
ghost use Rattle.cubes.specs.Cubes.{cube_names, cubes_share, least_shared, some_cube, some_holds, least_with, patterns_held, inputs_used};
ghost use Rattle.cubes.specs.Values.{in_pairs, number_of};

// A cube: the mask of the inputs that it asks to be 1, and of those that it asks to be 0.
#[derive(Clone, Copy, PartialEq, Eq)]
pub struct Cube {
    pub pos: u8,
    pub neg: u8,
}

// The cubes of a list, each as its two masks. A byte that is left over belongs to none.
#[tactic(auto, using(crate::proofs::Lists::pairs_cut))]
pub fn each(list: &[u8]) -> &[[u8; 2]]
    ensures { result.now ≡ in_pairs list.now }
{
    list.as_chunks::<2>().0
}

// The lesser of two patterns, as far as there are two.
#[tactic(auto, unfolding(bits::specs::Bits::lesser))]
pub fn lesser(a: Option<u8>, b: Option<u8>) -> Option<u8>
    ensures { result ≡ lesser a b }
{
    match (a, b) {
        (Some(x), Some(y)) => Some(x.min(y)),
        (Some(x), None) => Some(x),
        (None, _) => b,
    }
}

impl Cube {
    // The smallest pattern that two cubes share. They share one if no input is asked to be both 1 and 0; it has 1 where it is
    // asked to, and else 0.
    #[tactic(auto, using(crate::proofs::Masks::shared))]
    pub fn shares(self, other: Cube) -> Option<u8>
        ensures { result ≡ least_shared 8 self.pos self.neg other.pos other.neg }
    {
        let ones = self.pos | other.pos;
        if ones & (self.neg | other.neg) != 0 {
            return None;
        }
        Some(ones)
    }

    // The smallest pattern that the cube shares with any cube of the list. Most lists share none, and that is seen first.
    #[tactic(auto, using(crate::proofs::Lists::number_found, crate::proofs::Lists::number_none))]
    pub fn least_with(self, list: &[u8]) -> Option<u8>
        ensures { result ≡ least_with 8 self.pos self.neg list.now }
    {
        if !self.any_open(list) {
            return None;
        }
        let least = self.least_number(list);
        if least < 256 {
            return Some(least as u8);
        }
        None
    }

    // Whether some cube of the list is open to the cube: no input that the one asks to be 1 is asked to be 0 by the other. Where
    // none is, none shares a pattern. This walk and the next have no early end, so that the compiler takes several cubes at once.
    #[tactic(auto, using(crate::proofs::Lists::walks))]
    fn any_open(self, list: &[u8]) -> bool
        ensures { result ≡ false → least_with 8 self.pos self.neg list.now ≡ None }
    {
        let opposite = joined([self.neg, self.pos]);
        let mut any = false;
        for &cube in each(list) {
            any |= opposite & joined(cube) == 0;
        }
        any
    }

    // The smallest pattern that the cube shares with any cube of the list, as a number.
    #[tactic(auto, using(crate::proofs::Lists::walks))]
    fn least_number(self, list: &[u8]) -> u16
        ensures { result ≡ number_of (least_with 8 self.pos self.neg list.now) }
    {
        let own = joined([self.pos, self.neg]);
        let mut least = 256u16;
        for &cube in each(list) {
            least = least.min(shared_number(own, joined(cube)));
        }
        least
    }

    // Whether some cube of the list shares a pattern with the cube.
    pub fn any_shares(self, list: &[u8]) -> bool
        ensures { result ≡ some_cube (cubes_share 8 self.pos self.neg) list.now }
    {
        each(list)
            .iter()
            .any(|&[pos, neg]| self.shares(Cube { pos, neg }).is_some())
    }
}

// The smallest pattern that two cubes share, as a number, of their masks as numbers: `shares` on 16 bits.
#[tactic(auto, using(crate::proofs::Masks::shared), unfolding(crate::specs::Values::number_of))]
fn shared_number(own: u16, other: u16) -> u16
    ensures { result ≡ number_of (least_shared 8 (own % 256) (own / 256) (other % 256) (other / 256)) }
{
    let both = own | other;
    if (both % 256) & (both / 256) != 0 {
        return 256;
    }
    both % 256
}

// The masks of a cube as one number, P below N. Of the pair as it lies in a list, that is one load.
fn joined(cube: [u8; 2]) -> u16
    ensures { result ≡ get_or cube 1 0 * 256 + get_or cube 0 0 }
{
    u16::from_le_bytes(cube)
}

// Whether some cube of the list holds pattern x, which is the cube that names every input as x has it.
#[tactic(auto, using(crate::proofs::Lists::as_cubes))]
pub fn any_holds(list: &[u8], x: u8) -> bool
    ensures { result ≡ some_holds list.now x }
{
    Cube { pos: x, neg: !x }.any_shares(list)
}

// The number of patterns of n inputs that some cube of the list holds.
pub fn patterns(list: &[u8], n: u8) -> u32
    requires { n ≤ 8 }
    ensures { result ≡ patterns_held n list.now }
{
    (0..1u32 << n)
        .filter(|x| any_holds(list, (*x & 255) as u8))
        .count() as u32
}

// The mask of the inputs that some cube of the list names.
fn names(list: &[u8]) -> u8
    ensures { (i : ℕ) → has result i ≡ some_cube (λ P N. cube_names P N i) list.now }
{
    let mut mask = 0;
    for &[pos, neg] in each(list) {
        mask |= pos | neg;
    }
    mask
}

// The number of inputs in use.
pub fn used(on: &[u8], off: &[u8]) -> u32
    ensures { result ≡ inputs_used on.now off.now }
{
    (names(on) | names(off)).count_ones()
}
