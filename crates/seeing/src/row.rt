// Numbers of points, one behind the other.
ghost use Rattle.std.specs.Prelude.{◌≡◌, ◌+◌, ◌≤◌, ◌<◌, cond, List, ℕ, [], ◌∷◌, ◌++◌, length, take};
ghost use Rattle.algebra.specs.Lists.{count_from};
ghost use Rattle.rules.specs.Limits.{most_points};
ghost use Rattle.grid.specs.Listed.{listed};
ghost use Rattle.grid.specs.Points.{pt_of};
ghost use Rattle.seeing.specs.Seeing.{seeing};

use crate::chosen::Chosen;
use crate::facet::Facet;
use entries::MOST_POINTS;
use std::marker::Model;

// Room for the numbers of the most points, and one place more, to which what is not kept is written.
const PLACES: usize = MOST_POINTS + 1;

#[derive(Drop)]
pub struct Row {
    places: [u16; PLACES],
    len: usize,
}

impl Model for Row {
    ghost Value = { List ℕ };

    ghost view = { λ row. take row.len row.places };

    ghost invariant = { λ row. row.len ≤ most_points };
}

impl Row {
    pub fn new() -> Row
        ensures { result ≡ [] }
    {
        Row {
            places: [0; PLACES],
            len: 0,
        }
    }

    // The numbers below n.
    pub fn counted(n: usize) -> Row
        requires { n ≤ most_points }
        ensures { result ≡ count_from 0 n }
    {
        let mut places = [0u16; PLACES];
        for i in 0..n {
            places[i] = i as u16;
        }
        Row { places, len: n }
    }

    pub fn as_slice(&self) -> &[u16]
        ensures same { result.now ≡ self.now }
        ensures fits { length self.now ≤ most_points }
    {
        &self.places[..self.len]
    }

    pub fn clear(&mut self)
        ensures { self.new ≡ [] }
    {
        self.len = 0;
    }

    pub fn push(&mut self, x: u16)
        requires { length self.old < most_points }
        ensures { self.new ≡ self.old ++ (x ∷ []) }
    {
        self.places[self.len] = x;
        self.len += 1;
    }

    pub fn extend(&mut self, from: &[u16])
        requires { length self.old + length from.now ≤ most_points }
        ensures { self.new ≡ self.old ++ from.now }
    {
        let end = self.len + from.len();
        self.places[self.len..end].copy_from_slice(from);
        self.len = end;
    }

    // Adds those of the chosen points that see the facet. Each is written, and the next over it if it does not see the facet, so that no test
    // is waited for.
    pub fn push_seeing(&mut self, chosen: &Chosen, facet: Facet)
        requires { length self.old + length (seeing (listed chosen.now.points) (pt_of facet.from) (pt_of facet.to) chosen.now.list.now) ≤ most_points }
        ensures { self.new ≡ self.old ++ seeing (listed chosen.now.points) (pt_of facet.from) (pt_of facet.to) chosen.now.list.now }
    {
        let n = facet.normal();
        let limit = n.dot(facet.from.vector());
        let mut end = self.len;
        for i in 0..chosen.list.len() {
            let j = chosen.list[i];
            self.places[end] = j;
            end += usize::from(limit < n.dot(chosen.points.at(usize::from(j)).vector()));
        }
        self.len = end;
    }
}

#[cfg(test)]
mod tests {
    use super::*;

    #[test]
    fn numbers_behind_numbers(rt: HostRuntime) {
        let mut row = Row::new();
        row.extend(&[3, 1]);
        row.push(4);
        row.extend(&[]);
        row.extend(&[1, 5]);
        assert_eq!(rt; row.as_slice(), [3, 1, 4, 1, 5].as_slice());
    }
}
