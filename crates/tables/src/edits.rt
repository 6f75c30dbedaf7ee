// An edit: what it asks for, whether its fields are right for that, and its effect on the bytes of one table.
ghost use Rattle.std.specs.Prelude.{◌+◌, ◌≤◌, ◌<◌, ◌≡◌, eqb, length};
ghost use Rattle.tables.specs.Definitions.Sizes.{edit_size, table_size, node_rows};
ghost use Rattle.tables.specs.Definitions.Rows.{put};
ghost use Rattle.tables.specs.Definitions.Tables.{capacity_good};
ghost use Rattle.tables.specs.Definitions.Edits.{kind_of, master_of, number_of, capacity_field, positions_zero, positions_good};
ghost use Rattle.tables.specs.Definitions.Edits.{edit_fields, closed, edit_table};
ghost use Rattle.tables.specs.Laws.Changes.{change_of, Names, Reads, Applies};

use super::{fields, rows, sizes};
use matching::Master;

// What an edit asks for.
#[derive(Clone, Copy, PartialEq, Eq)]
pub enum Change {
    Arrival,
    Departure,
    Move,
    Capacity,
}

// A byte that is no kind of edit.
#[derive(Clone, Copy, PartialEq, Eq)]
pub struct UnknownKind(pub u8);

impl TryFrom<u8> for Change {
    type Error = UnknownKind;

    ghost try_from_gives = { Reads };

    #[tactic(auto, unfolding(crate::specs::Laws::Changes::change_of))]
    fn try_from(kind: u8) -> Result<Self, UnknownKind> {
        match kind {
            1 => Ok(Change::Arrival),
            2 => Ok(Change::Departure),
            3 => Ok(Change::Move),
            4 => Ok(Change::Capacity),
            _ => Err(UnknownKind(kind)),
        }
    }
}

// The master that a byte names.
// No TryFrom, as Change has: Master is `matching`'s type, which knows no bytes, and `Names` speaks of an Option.
pub fn master(byte: u8) -> Option<Master>
    ensures { Names byte result }
{
    match byte {
        0 => Some(Master::A),
        1 => Some(Master::B),
        _ => None,
    }
}

// The byte that says its kind.
// The length is a clause of each function of an edit's bytes: callers lend a slice, and an array would ask more of them.
pub fn kind_of(edit: &[u8]) -> u8
    requires { length edit.now ≡ edit_size }
    ensures { result ≡ kind_of edit.now }
{
    edit[0]
}

// The byte that names its master.
pub fn master_of(edit: &[u8]) -> u8
    requires { length edit.now ≡ edit_size }
    ensures { result ≡ master_of edit.now }
{
    edit[1]
}

// The number of its node.
#[tactic(auto, unfolding(crate::specs::Definitions::Edits::number_of))]
pub fn number_of(edit: &[u8]) -> u32
    requires { length edit.now ≡ edit_size }
    ensures { result ≡ number_of edit.now }
{
    fields::number_at(edit, sizes::EDIT_NUMBER)
}

// Whether the fields that the change uses are in range, and the others zero.
pub fn fields_right(c: Change, edit: &[u8]) -> bool
    requires { (length edit.now ≡ edit_size) × (c ≡ change_of (kind_of edit.now)) }
    ensures { result ≡ edit_fields edit.now }
{
    match c {
        Change::Arrival => positions_good(edit) && capacity_good(edit),
        Change::Departure => positions_zero(edit) && capacity_zero(edit),
        Change::Move => positions_good(edit) && capacity_zero(edit),
        Change::Capacity => positions_zero(edit) && capacity_good(edit),
    }
}

#[tactic(auto, unfolding(crate::specs::Definitions::Edits::positions_zero))]
fn positions_zero(edit: &[u8]) -> bool
    requires { length edit.now ≡ edit_size }
    ensures { result ≡ positions_zero edit.now }
{
    fields::two_at(edit, sizes::EDIT_X) == 0 && fields::two_at(edit, sizes::EDIT_Y) == 0
}

#[tactic(auto, unfolding(crate::specs::Definitions::Edits::positions_good))]
fn positions_good(edit: &[u8]) -> bool
    requires { length edit.now ≡ edit_size }
    ensures { result ≡ positions_good edit.now }
{
    rows::position_good_at(edit, sizes::EDIT_X) && rows::position_good_at(edit, sizes::EDIT_Y)
}

#[tactic(auto, unfolding(crate::specs::Definitions::Edits::capacity_field))]
fn capacity_zero(edit: &[u8]) -> bool
    requires { length edit.now ≡ edit_size }
    ensures { result ≡ eqb (capacity_field edit.now) 0 }
{
    fields::two_at(edit, sizes::EDIT_CAPACITY) == 0
}

#[tactic(auto, unfolding(crate::specs::Definitions::Edits::capacity_field))]
fn capacity_good(edit: &[u8]) -> bool
    requires { length edit.now ≡ edit_size }
    ensures { result ≡ capacity_good (capacity_field edit.now) }
{
    rows::capacity_good(fields::two_at(edit, sizes::EDIT_CAPACITY))
}

// The edit on the table of its master: `count` is the number of its nodes, `place` the edited node's row.
pub fn apply(c: Change, t: &mut [u8], edit: &[u8], count: usize, place: usize)
    requires { Applies c edit.now t.old count place }
    ensures { t.new ≡ edit_table edit.now t.old }
{
    match c {
        Change::Arrival => copy_at(t, sizes::NODE * count, &edit[sizes::EDIT_NUMBER..]),
        Change::Departure => close_row(t, place),
        Change::Move => copy_at(
            t,
            sizes::NODE * place + sizes::NODE_X,
            &edit[sizes::EDIT_X..sizes::EDIT_CAPACITY],
        ),
        Change::Capacity => copy_at(
            t,
            sizes::NODE * place + sizes::NODE_CAPACITY,
            &edit[sizes::EDIT_CAPACITY..],
        ),
    }
}

pub fn copy_at(t: &mut [u8], at: usize, from: &[u8])
    requires { at + length from.now ≤ length t.old }
    ensures { t.new ≡ put t.old at from.now }
{
    t[at..at + from.len()].copy_from_slice(from);
}

// Row k taken out: the later rows move up by one, and the last becomes zero.
fn close_row(t: &mut [u8], k: usize)
    requires { (length t.old ≡ table_size) × (k < node_rows) }
    ensures { t.new ≡ closed t.old k }
{
    let last = sizes::TABLE - sizes::NODE;
    t.copy_within(sizes::NODE * (k + 1).., sizes::NODE * k);
    t[last..].fill(0);
}
