// The lengths and both tables, judged from the top; sound tables are in a set of rows then.
ghost use Rattle.std.specs.Prelude.{◌≡◌, length};
ghost use Rattle.tables.specs.Definitions.Sizes.{table_size};
ghost use Rattle.tables.specs.Definitions.Tables.{first_fault};
ghost use Rattle.matching.specs.declared.Master.TheVariants.{A as master_a, B as master_b};
ghost use Rattle.load.specs.Index.{Indexed, Named};
ghost use Rattle.load.specs.Laws.Loaded.{rows_in};
ghost use Rattle.contract.specs.Definitions.Buffers.{lent, lengths_of};
ghost use Rattle.contract.specs.Definitions.Requests.{pair_shape};
ghost use Rattle.contract.specs.Definitions.Refusals.{lengths_right};
ghost use Rattle.pairing.specs.Verdicts.{by_faults, LengthsJudged, Ready, TablesJudged};

use contract::{Refusal, Refused, Verdict};
use load::fault::fault;
use load::index::SLOTS;
use load::load;
use load::table::Rows;
use matching::Sorts;
use matching::sizes::ROWS;
use tables::sizes::{LIST, TABLE};

// Room for both tables in a set of rows, and for an index by number.
#[derive(Drop)]
pub struct Room {
    pub ns: [u32; ROWS],
    pub at: [[i16; 2]; ROWS],
    pub cs: [u32; ROWS],
    pub heads: [u16; SLOTS],
    pub next: [u16; ROWS],
}

impl Room {
    pub fn new() -> Room {
        Room {
            ns: [0; ROWS],
            at: [[0; 2]; ROWS],
            cs: [0; ROWS],
            heads: [0; SLOTS],
            next: [0; ROWS],
        }
    }

    // Loads two tables, where they are sound. Gives the rows of each sort.
    pub fn load(&mut self, a: &[u8], b: &[u8], list: &[u8]) -> Result<Sorts, Refused>
        ensures { TablesJudged a.now b.now list.now (Ready a.now b.now list.now self.new.ns self.new.at self.new.cs self.new.heads self.new.next) result }
    {
        lengths(a, b, list)?;
        let sorts = load(a, b, &mut self.ns, &mut self.at, &mut self.cs);
        judge(a, b, sorts, &self.ns, &mut self.heads, &mut self.next)?;
        Ok(sorts)
    }
}

// The verdict on the lengths. It comes ahead of a room, too, so that a refusal does not wait for the room's zeros.
pub fn lengths(a: &[u8], b: &[u8], list: &[u8]) -> Verdict
    ensures { LengthsJudged a.now b.now list.now result }
{
    if lengths_right(a, b, list) {
        return Ok(());
    }
    Err(Refusal::Length.into())
}

// The tables and the list have their stated lengths.
#[tactic(auto, unfolding(contract::specs::Definitions::Refusals::lengths_right))]
fn lengths_right(a: &[u8], b: &[u8], list: &[u8]) -> bool
    ensures { result ≡ lengths_right (lengths_of (lent a.now b.now list.now)) pair_shape }
{
    [a.len(), b.len(), list.len()] == [TABLE, TABLE, LIST]
}

// Both tables, whose numbers are in the set; its rows are indexed.
// No method: `Named` is of ns alone, and of a room the clause would have to say that its columns stay.
fn judge(a: &[u8], b: &[u8], s: Sorts, ns: &[u32], heads: &mut [u16], next: &mut [u16]) -> Verdict
    requires a_len { (length a.now ≡ table_size) × (length b.now ≡ table_size) × Indexed heads.old next.old }
    requires named { Named a.now (rows_in s master_a) ns.now × Named b.now (rows_in s master_b) ns.now }
    ensures { (result ≡ by_faults (first_fault a.now) (first_fault b.now)) × Indexed heads.new next.new }
{
    // The rows of A, and below of B, as `rows_in` has them: each `fault` has a refusal of its own, which a loop would look up.
    let rows_a = Rows {
        on: s.on.a,
        off: s.off.a,
    };
    if let Some(row) = fault(a, rows_a, ns, heads, next) {
        return Err(Refused {
            refusal: Refusal::TableA,
            row,
        });
    }
    let rows_b = Rows {
        on: s.on.b,
        off: s.off.b,
    };
    if let Some(row) = fault(b, rows_b, ns, heads, next) {
        return Err(Refused {
            refusal: Refusal::TableB,
            row,
        });
    }
    Ok(())
}
