// Pieces as three edges each; and for each point a word that shows in which eights of pieces it stands.
ghost use Rattle.std.specs.Prelude.{◌≡◌, false, ℕ, ◌+◌, ◌*◌, ◌/◌, ◌%◌, ◌≤◌, ◌<◌, length, get_or, IfSome};
ghost use Rattle.pieces.specs.Pieces.{start_of, edge_of, piece_at, put_piece, moved, show, shows, moved_shows, Low, place_of, Within};

// The edge from point s to point e.
pub fn edge(s: usize, e: usize) -> u32
    requires { (s < 512) × (e < 512) }
    ensures { result ≡ edge_of s e }
{
    (s * 512 + e) as u32
}

// The point where an edge begins.
pub fn start(edge: u32) -> usize
    ensures { result ≡ start_of edge }
{
    (edge / 512) as usize
}

// An edge that was looked for: which piece has it, and which of the piece's three it is.
#[derive(Clone, Copy, Debug, PartialEq, Eq)]
pub struct Found {
    pub piece: usize,
    pub side: usize,
}

// Room for the edges of the most pieces, in whole eights.
#[derive(Drop)]
pub struct Store {
    pub edges: [u32; 1536],
    pub eights: [u64; 512],
}

impl Store {
    pub fn new() -> Store
        ensures edges { length result.edges ≡ 1536 }
        ensures eights { length result.eights ≡ 512 }
    {
        Store {
            edges: [0; 1536],
            eights: [0; 512],
        }
    }

    // Shows at point v that it stands in the eight of piece k.
    #[tactic(auto, using(algebra::proofs::Bits::one_shifted), unfolding(crate::specs::Pieces::show))]
    fn show(&mut self, v: usize, k: usize)
        requires { (v < 512) × (k < 512) }
        ensures edges { self.new.edges ≡ self.old.edges }
        ensures eights { self.new.eights ≡ show self.old.eights v k }
    {
        self.eights[v] |= 1u64 << (k / 8);
    }

    // Writes piece k, with the edges x, y, z.
    #[tactic(auto, unfolding(crate::specs::Pieces::put_piece))]
    pub fn put(&mut self, k: usize, x: u32, y: u32, z: u32)
        requires piece { k < 512 }
        requires points { (start_of x < 512) × (start_of y < 512) × (start_of z < 512) }
        ensures edges { self.new.edges ≡ put_piece self.old.edges k x y z }
        ensures eights { self.new.eights ≡ shows self.old.eights k x y z }
    {
        self.edges[3 * k] = x;
        self.edges[3 * k + 1] = y;
        self.edges[3 * k + 2] = z;
        self.show(start(x), k);
        self.show(start(y), k);
        self.show(start(z), k);
    }

    // Writes the piece at `last` in the place of piece b too.
    pub fn copy(&mut self, last: usize, b: usize)
        requires { (last < 512) × (b < 512) × Low self.old.edges last }
        ensures edges { self.new.edges ≡ moved self.old.edges b last }
        ensures eights { self.new.eights ≡ moved_shows self.old.edges self.old.eights b last }
    {
        let x = self.edges[3 * last];
        let y = self.edges[3 * last + 1];
        let z = self.edges[3 * last + 2];
        self.put(b, x, y, z);
    }

    // The corners of piece k.
    pub fn corners(&self, k: usize) -> [usize; 3]
        requires { k < 512 }
        ensures { result ≡ piece_at self.now.edges k }
    {
        let x = start(self.edges[3 * k]);
        let y = start(self.edges[3 * k + 1]);
        let z = start(self.edges[3 * k + 2]);
        [x, y, z]
    }

    // The corner of a piece that is on neither end of an edge of it.
    pub fn third_corner(&self, found: Found) -> usize
        requires { (found.piece < 512) × (found.side < 3) }
        ensures { result ≡ start_of (get_or self.now.edges (3 * found.piece + (found.side + 2) % 3) 0) }
    {
        start(self.edges[3 * found.piece + (found.side + 2) % 3])
    }

    // Whether an edge may be one of the 24 of eight g. There is no early end, so that all are looked at at once.
    fn may_hold(&self, g: usize, want: u32) -> bool
        requires { g < 64 }
        ensures { result ≡ false → (i : ℕ) → i < 24 → get_or self.now.edges (24 * g + i) 0 ≡ want → ⊥ }
    {
        let mut hit = false;
        for edge in &self.edges[24 * g..24 * g + 24] {
            hit |= *edge == want;
        }
        hit
    }

    // Where an edge first stands in eight g, of the pieces from number `from` on, where there are `count`.
    pub fn find(&self, want: u32, g: usize, from: usize, count: usize) -> Option<Found>
        requires { (g < 64) × (from ≤ 512) × (count ≤ 512) }
        ensures first { Within self.now.edges want g from count (place_of result) }
        ensures side { IfSome result (λ found. (found.piece < count) × (found.side < 3)) }
    {
        if !self.may_hold(g, want) {
            return None;
        }
        let mut found = None;
        'search: for piece in from.max(8 * g)..count.min(8 * g + 8) {
            for side in 0..3 {
                if self.edges[3 * piece + side] == want {
                    found = Some(Found { piece, side });
                    break 'search;
                }
            }
        }
        found
    }
}
