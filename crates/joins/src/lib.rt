// Piece A of a merge, joined with later pieces until it is finished. Its places stand in a queue: each is looked at in turn, and only again behind A's next join.
#![tactic(auto)]

pub mod queue;
pub mod ring;

ghost use Rattle.std.specs.Prelude.{◌≡◌, ◌<◌, ◌≤◌, ◌∷◌, length};
ghost use Rattle.algebra.specs.Lists.{Each};
ghost use Rattle.rules.specs.Merge.{may_join};
ghost use Rattle.grid.specs.Listed.{listed};
ghost use Rattle.joins.specs.Growing.{Finished};

use grid::points::Points;
use pieces::Pieces;
use queue::Queue;
use ring::Ring;

// Joins the piece with these corners with later pieces, as long as it has a join.
pub fn grow(
    points: &Points,
    first: [usize; 3],
    later: &mut Pieces,
    ring: &mut Ring,
    queue: &mut Queue,
)
    requires known { Each (Each (λ v. v < length (listed points.now))) (first ∷ later.old) }
    requires points { length (listed points.now) ≤ 512 }
    requires few { length later.old < 510 }
    ensures { Finished (may_join (listed points.now)) (length (listed points.now)) first later.old ring.new later.new }
{
    ring.begin(first);
    queue.begin();
    // So many of the queue's last places were refused since A's last join.
    let mut refused = 0;
    while refused < queue.len() {
        let s = queue.pop();
        let e = ring.next(s);
        let at_s = ring.corner(s);
        let at_e = ring.corner(e);
        let Some(mate) = later.find_mate(at_e, at_s) else {
            continue;
        };
        queue.push(s);
        if ring.may_join(points, s, e, mate.third) {
            later.swap_remove(mate.place);
            queue.push(ring.join(s, e, mate.third));
            refused = 0;
        } else {
            refused += 1;
        }
    }
}
