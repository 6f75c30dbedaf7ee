// What a node has left, once the list is known to be finished.
ghost use Rattle.std.specs.Prelude.{◌≡◌, length};
ghost use Rattle.lists.specs.Lists.{links_of};
ghost use Rattle.tables.specs.Definitions.Sizes.{table_size};
ghost use Rattle.verdicts.specs.Spare.{node_spare, master_spare};

use contract::{Answer, Refusal};
use lists::spare::spare;
use matching::Master;
use tables::edits::master;
use tables::find::{capacity_in, row_of};

// Of the node with this number in the table of its master, beside the links.
#[tactic(auto, unfolding(crate::specs::Spare::node_spare, tables::specs::Definitions::Tables::node_from))]
fn of_node(t: &[u8], links: &[[u32; 4]], master: Master, number: u16) -> Answer
    requires { length t.now ≡ table_size }
    ensures { result ≡ node_spare t.now master (links_of links.now) number }
{
    if number == 0 {
        return Err(Refusal::Field.into());
    }
    let number = u32::from(number);
    let Some(row) = row_of(t, number) else {
        return Err(Refusal::Number.into());
    };
    // What is left is at most a capacity, one byte: `as` only drops zero bytes.
    Ok(spare(links, master, number, capacity_in(t, row)) as u16)
}

// Of the master that the byte names.
#[tactic(auto, unfolding(crate::specs::Spare::master_spare))]
pub fn of_master(a: &[u8], b: &[u8], links: &[[u32; 4]], byte: u8, number: u16) -> Answer
    requires { (length a.now ≡ table_size) × (length b.now ≡ table_size) }
    ensures { result ≡ master_spare a.now b.now (links_of links.now) byte number }
{
    let Some(master) = master(byte) else {
        return Err(Refusal::Master.into());
    };
    match master {
        Master::A => of_node(a, links, master, number),
        Master::B => of_node(b, links, master, number),
    }
}
