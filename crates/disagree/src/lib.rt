// Where two functions disagree under a wiring: the smallest pattern of g, over all pairs to be kept apart. A cube of f is carried
// over once, and shares its smallest pattern with the whole list of g, unless what is known already is no greater.
#![tactic(auto)]

ghost use Rattle.std.specs.Prelude.{◌≡◌};
ghost use Rattle.bits.specs.Bits.{lesser};
ghost use Rattle.records.specs.Records.{inputs};
ghost use Rattle.wirings.specs.Wirings.{disagreement};
ghost use Rattle.cubes.specs.Cubes.{least_with};
ghost use Rattle.partial.specs.Partial.{prefix};
ghost use Rattle.disagree.specs.Meeting.{meeting};

use cubes::Cube;
use partial::Wiring;
use records::Functions;

// The lesser of the least so far and the smallest pattern that the cube shares with any cube of the list. What it shares has 1
// wherever the cube asks for it, and is no smaller than `pos`: a least that is no greater stays, and the list is left out.
#[tactic(auto, using(crate::proofs::Lists::lesser_stays), unfolding(bits::specs::Bits::lesser))]
fn lesser_with(least: Option<u8>, cube: Cube, list: &[u8]) -> Option<u8>
    ensures { result ≡ lesser least (least_with 8 cube.pos cube.neg list.now) }
{
    match least {
        None => cube.least_with(list),
        Some(x) if x <= cube.pos => least,
        Some(_) => cubes::lesser(least, cube.least_with(list)),
    }
}

// The lesser of what is known and the smallest pattern that a cube of the one list, carried over, shares with a cube of the
// other.
#[tactic(auto, using(crate::proofs::Lists::walk))]
fn meeting(known: Option<u8>, w: Wiring, ours: &[u8], theirs: &[u8]) -> Option<u8>
    ensures { result ≡ lesser known (meeting (prefix w.masks) ours.now theirs.now) }
{
    let mut least = known;
    for &[pos, neg] in cubes::each(ours) {
        let one = w.carry(Cube { pos, neg });
        let carried = Cube {
            pos: one.pos,
            neg: one.neg,
        };
        least = lesser_with(least, carried, theirs);
    }
    least
}

// The smallest pattern of g at which f and g disagree under a whole wiring and the phase q: on against off and off against on, or
// on against on and off against off.
#[tactic(auto, using(crate::proofs::Lists::by_lists), unfolding(bits::specs::Bits::lesser))]
pub fn disagreement(w: Wiring, both: Functions, q: u8) -> Option<u8>
    requires depth_value { w.masks.depth ≡ w.masks.n }
    requires n_value { w.masks.n ≡ inputs both.g.bytes.now }
    ensures { result ≡ disagreement q both.entry.f.bytes.now both.entry.g.bytes.now (prefix w.masks) }
{
    let on = meeting(
        None,
        w,
        partial::side(both.f, 0),
        partial::side(both.g, partial::against(q, 0)),
    );
    meeting(
        on,
        w,
        partial::side(both.f, 1),
        partial::side(both.g, partial::against(q, 1)),
    )
}
