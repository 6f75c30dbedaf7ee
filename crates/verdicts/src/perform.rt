// An edit performed, once the list is known to be finished: its own places from the top, and where none of them refuses it, its effect on a table.
ghost use Rattle.std.specs.Prelude.{◌≡◌, length};
ghost use Rattle.tables.specs.Definitions.Sizes.{edit_size, table_size};
ghost use Rattle.tables.specs.Definitions.Tables.{nodes_in};
ghost use Rattle.tables.specs.Definitions.Edits.{kind_of};
ghost use Rattle.tables.specs.Laws.Changes.{change_of, arrives};
ghost use Rattle.verdicts.specs.Edit.{node_answer, edit_answer, Placed, Applied, Performed};

use contract::{Refusal, Verdict};
use matching::Master;
use tables::edits::{Change, apply, fields_right, kind_of, master, master_of, number_of};
use tables::find::{count, row_of};
use tables::sizes::NODES;

// The row of an edit's node: the number of an arrival must be in none, and a row free behind the nodes; every other number must be in one.
#[tactic(auto, unfolding(crate::specs::Edit::place_answer), using(crate::specs::Laws::Edit::no_arrival))]
fn place(change: Change, nodes: usize, row: Option<usize>) -> Result<usize, Refusal>
    ensures { Placed (arrives change) nodes row result }
{
    match change {
        Change::Arrival if row.is_some() => Err(Refusal::Number),
        Change::Arrival if nodes == NODES => Err(Refusal::Full),
        Change::Arrival => Ok(nodes),
        _ => row.ok_or(Refusal::Number),
    }
}

// A change of the table of its master.
#[tactic(auto, unfolding(crate::specs::Edit::node_answer))]
fn change_table(change: Change, t: &mut [u8], edit: &[u8]) -> Verdict
    requires { (length t.old ≡ table_size) × (length edit.now ≡ edit_size) × (change ≡ change_of (kind_of edit.now)) }
    ensures { (result ≡ node_answer edit.now (nodes_in t.old))
        × Applied edit.now t.old t.new result }
{
    let number = number_of(edit);
    if number == 0 || !fields_right(change, edit) {
        return Err(Refusal::Field.into());
    }
    let nodes = count(t);
    let row = place(change, nodes, row_of(t, number))?;
    apply(change, t, edit, nodes, row);
    Ok(())
}

// An edit of the table that it names: the other one stays.
#[tactic(auto, unfolding(crate::specs::Edit::edit_answer, crate::specs::Edit::master_answer))]
pub fn perform(a: &mut [u8], b: &mut [u8], edit: &[u8]) -> Verdict
    requires { (length a.old ≡ table_size) × (length b.old ≡ table_size) × (length edit.now ≡ edit_size) }
    ensures { (result ≡ edit_answer edit.now (nodes_in a.old) (nodes_in b.old))
        × Performed edit.now a.old b.old a.new b.new result }
{
    let Ok(change) = Change::try_from(kind_of(edit)) else {
        return Err(Refusal::Kind.into());
    };
    let Some(master) = master(master_of(edit)) else {
        return Err(Refusal::Master.into());
    };
    match master {
        Master::A => change_table(change, a, edit),
        Master::B => change_table(change, b, edit),
    }
}
