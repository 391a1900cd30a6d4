// A ring of facets in one row: each facet's corner, marked, and behind it the points that see the facet.
#![tactic(auto)]

pub mod cloud;

ghost use Rattle.std.specs.Prelude.{◌≡◌, ◌↔◌, List, [], ◌++◌, map, ◌+◌, ◌≤◌, ◌<◌, length, get_or, take, drop, slice_index, EachIndex, IsTrue, IfSome, MatchOption};
ghost use Rattle.algebra.specs.Lists.{Each};
ghost use Rattle.algebra.specs.Rings.{begun_at, first_of};
ghost use Rattle.rules.specs.Layout.{over};
ghost use Rattle.rules.specs.Limits.{most_points};
ghost use Rattle.hulls.specs.Rounds.{begun};
ghost use Rattle.hulls.specs.Rounds as Rounds;
ghost use Rattle.grid.specs.Listed.{listed};
ghost use Rattle.facets.specs.Laid.{mark_of, corner_of, Marked, leading, laid, two, parts, sweep_of, Held};

use cloud::Cloud;
use seeing::chosen::Chosen;
use seeing::facet::Facet;
use seeing::row::Row;

// The numbers of points are below it, and a corner stands for it and its number.
const MARK: u16 = 512;

// Writes the corners of a ring that no point sees.
pub fn write_corners(ring: &[u16], indices: &mut [u32])
    requires room { length ring.now ≤ length indices.old }
    requires marked { Each Marked ring.now }
    ensures { indices.new ≡ over (map corner_of ring.now) indices.old }
{
    for (i, x) in ring.iter().enumerate() {
        indices[i] = u32::from(*x - MARK);
    }
}

fn mark(i: usize) -> u16
    requires { i < most_points }
    ensures { result ≡ mark_of i }
{
    i as u16 + MARK
}

// The corner that a mark stands for.
fn corner(x: u16) -> usize
    requires { most_points ≤ x }
    ensures { result ≡ corner_of x }
{
    usize::from(x - MARK)
}

// Adds the facets from u to w and from w to v, each with those of the chosen points that see it.
pub fn lay_two(chosen: &Chosen, u: usize, w: usize, v: usize, out: &mut Row)
    requires ends { (u < length (listed chosen.now.points)) × (w < length (listed chosen.now.points)) × (v < length (listed chosen.now.points)) }
    requires low { (u < most_points) × (w < most_points) }
    requires room { length out.old + length (laid (two (listed chosen.now.points) chosen.now.list.now u w v)) ≤ most_points }
    ensures { out.new ≡ out.old ++ laid (two (listed chosen.now.points) chosen.now.list.now u w v) }
{
    let a = chosen.points.at(u);
    let b = chosen.points.at(w);
    let c = chosen.points.at(v);
    out.push(mark(u));
    out.push_seeing(chosen, Facet { from: a, to: b });
    out.push(mark(w));
    out.push_seeing(chosen, Facet { from: b, to: c });
}

// Adds the facet from u to v, which the points of the list see: split at the farthest of them, or as it is where there is none.
fn split(cloud: &Cloud, list: &[u16], u: usize, v: usize, out: &mut Row)
    requires within { EachIndex list.now (λ k. slice_index list.now k < length (listed cloud.now.points)) }
    requires ends { (u < length (listed cloud.now.points)) × (v < length (listed cloud.now.points)) }
    requires room { length out.old + length (laid (parts (listed cloud.now.points) list.now u v)) ≤ most_points }
    ensures { out.new ≡ out.old ++ laid (parts (listed cloud.now.points) list.now u v) }
{
    if list.is_empty() {
        out.push(mark(u));
        return;
    }
    let chosen = Chosen {
        points: cloud.points,
        list,
    };
    let facet = Facet {
        from: cloud.points.at(u),
        to: cloud.points.at(v),
    };
    let w = chosen.farthest(facet);
    lay_two(&chosen, u, w, v, out);
}

// How many unmarked numbers stand in front.
fn leading(list: &[u16]) -> usize
    ensures value { result ≡ leading list.now }
    ensures within { result ≤ length list.now }
{
    list.iter().take_while(|x| **x < MARK).count()
}

// Whether no point sees a facet: all numbers are marked.
pub fn settled(ring: &[u16]) -> bool
    ensures { IsTrue result ↔ EachIndex ring.now (λ k. Marked (slice_index ring.now k)) }
{
    ring.iter().all(|x| MARK <= *x)
}

// Where the first facet stands that no point sees.
pub fn first_unseen(ring: &[u16]) -> Option<usize>
    ensures within { IfSome result (λ p. p ≤ length ring.now) }
    ensures first { (facets : List Rounds.Facet) → Each (λ f. Each (λ i. i < most_points) f.seen) facets → ring.now ≡ laid facets
        → MatchOption result (laid (begun [] facets) ≡ ring.now) (λ p. laid (begun [] facets) ≡ begun_at p ring.now) }
{
    let mut p = 0;
    while p < ring.len() {
        let seen = leading(&ring[p + 1..]);
        if seen == 0 {
            return Some(p);
        }
        p += 1 + seen;
    }
    None
}

// Writes the ring, begun at place s.
pub fn begin_at(ring: &[u16], s: usize, out: &mut [u16])
    requires place { s ≤ length ring.now }
    requires room { length ring.now ≤ length out.old }
    ensures { take (length ring.now) out.new ≡ begun_at s ring.now }
{
    let (front, behind) = ring.split_at(s);
    out[..behind.len()].copy_from_slice(behind);
    out[behind.len()..ring.len()].copy_from_slice(front);
}

// The marked number at place q, or, behind the last, at place 0.
fn next_mark(ring: &[u16], q: usize) -> u16
    requires { 0 < length ring.now }
    ensures { result ≡ first_of (get_or ring.now 0 0) (drop q ring.now) }
{
    if q < ring.len() { ring[q] } else { ring[0] }
}

// One round: writes the ring with each facet split that a point sees.
pub fn sweep(cloud: &Cloud, ring: &[u16], out: &mut Row)
    requires held { (facets : List Rounds.Facet) × Held (listed cloud.now.points) ring.now facets }
    ensures { (facets : List Rounds.Facet) → Held (listed cloud.now.points) ring.now facets → out.new ≡ laid (sweep_of (listed cloud.now.points) facets) }
{
    out.clear();
    let mut p = 0;
    while p < ring.len() {
        let q = p + 1 + leading(&ring[p + 1..]);
        let u = corner(ring[p]);
        let v = corner(next_mark(ring, q));
        split(cloud, &ring[p + 1..q], u, v, out);
        p = q;
    }
}
