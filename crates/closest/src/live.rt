// The lists of the rows that have something left: for each place the number, the row and the position listed there, and for each row its place.
ghost use Rattle.std.specs.Prelude.{◌≡◌, ◌<◌, ◌≤◌, length};
ghost use Rattle.matching.specs.Definitions.Sizes.{set_rows};
ghost use Rattle.closest.specs.Live.{Sized, May, entered, Noted, Gathered, Refreshed};

use crate::rows::Rows;
use matching::sizes::ROWS;

#[derive(Drop)]
pub struct Lists {
    pub listed: [[u32; 2]; ROWS],
    pub points: [[i16; 2]; ROWS],
    pub spot: [u16; ROWS],
}

impl Lists {
    // Lists row r at place w.
    // `Sized` says what the types say: `Gathered` promises it on, to laws that see the lists alone.
    fn enter(&mut self, r: usize, w: usize, rows: &Rows)
        requires { Sized rows.now.ns.now rows.now.at.now self.old × (r < set_rows) × (w < set_rows) }
        ensures { self.new ≡ entered rows.now.ns.now rows.now.at.now self.old w r }
    {
        self.listed[w] = [rows.ns[r], r as u32];
        self.points[w] = rows.at[r];
        self.spot[r] = w as u16;
    }

    // Lists row r at place w where it has something left; gives the next place.
    fn list(&mut self, r: usize, w: usize, rows: &Rows, left: &[u32]) -> usize
        requires { Sized rows.now.ns.now rows.now.at.now self.old × (length left.now ≡ set_rows) × (r < set_rows) × (w < set_rows) }
        ensures { Noted rows.now.ns.now rows.now.at.now left.now r w self.old self.new result }
    {
        if left[r] == 0 {
            return w;
        }
        self.enter(r, w, rows);
        w + 1
    }

    // Lists those of the rows from first to end that have something left, from place first on; gives the list's end.
    pub fn gather(&mut self, first: usize, end: usize, rows: &Rows, left: &[u32]) -> usize
        requires { Sized rows.now.ns.now rows.now.at.now self.old × (length left.now ≡ set_rows)
            × (first ≤ end) × (end ≤ set_rows) }
        ensures { Gathered rows.now.ns.now rows.now.at.now left.now first end self.old self.new result }
    {
        let mut w = first;
        for k in first..end {
            w = self.list(k, w, rows, left);
        }
        w
    }

    // Takes a row that is used up off the list that ends at place e: the last row listed fills its place. Gives the new end.
    pub fn refresh(&mut self, row: usize, e: usize, rows: &Rows, left: &[u32]) -> usize
        requires sized { Sized rows.now.ns.now rows.now.at.now self.old × (length left.now ≡ set_rows) }
        requires may { May self.old row e }
        ensures { Refreshed rows.now.ns.now rows.now.at.now left.now row e self.old self.new result }
    {
        if left[row] != 0 {
            return e;
        }
        let r = self.listed[e - 1][1] as usize;
        let w = usize::from(self.spot[row]);
        self.enter(r, w, rows);
        e - 1
    }
}
