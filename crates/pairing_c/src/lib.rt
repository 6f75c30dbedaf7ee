// The calls for C: each is the call of its name of `pairing`, with the same clauses.
#![tactic(auto)]

ghost use Rattle.std.specs.Prelude.{◌≡◌, [], ◌∷◌};
ghost use Rattle.contract.specs.Definitions.Buffers.{lent};
ghost use Rattle.contract.specs.Definitions.Calls.{pair_call, step_call, edit_call, spare_call, bands_call};

// Writes the finished list of two tables into `list`; its value counts the links.
#[unsafe(no_mangle)]
pub extern "C" fn pairing_pair(a: &[u8], b: &[u8], list: &mut [u8]) -> u32
    ensures { record { code = result; held = lent a.now b.now list.new; others = [] }
        ≡ pair_call a.now b.now list.old }
{
    pairing::pairing_pair(a, b, list)
}

// Writes the next link into a list that holds a leading part of them: value 1, or 0 where none is left.
#[unsafe(no_mangle)]
pub extern "C" fn pairing_step(a: &[u8], b: &[u8], list: &mut [u8]) -> u32
    ensures { record { code = result; held = lent a.now b.now list.new; others = [] }
        ≡ step_call a.now b.now list.old }
{
    pairing::pairing_step(a, b, list)
}

// Changes one table by an edit and leaves the finished list of both; its value counts the rows kept.
#[unsafe(no_mangle)]
pub extern "C" fn pairing_edit(a: &mut [u8], b: &mut [u8], list: &mut [u8], edit: &[u8]) -> u32
    ensures { record { code = result; held = lent a.new b.new list.new; others = edit.now ∷ [] }
        ≡ edit_call a.old b.old list.old edit.now }
{
    pairing::pairing_edit(a, b, list, edit)
}

// What a node has left: its master is a byte, 0 for A and 1 for B.
#[unsafe(no_mangle)]
pub extern "C" fn pairing_spare(a: &[u8], b: &[u8], list: &[u8], master: u8, number: u16) -> u32
    ensures { record { code = result; held = lent a.now b.now list.now; others = [] }
        ≡ spare_call a.now b.now list.now master number }
{
    pairing::pairing_spare(a, b, list, master, number)
}

// Fills `counts`: how many links have a squared distance of 0, 1, .. 32 binary digits.
#[unsafe(no_mangle)]
pub extern "C" fn pairing_bands(a: &[u8], b: &[u8], list: &[u8], counts: &mut [u8]) -> u32
    ensures { record { code = result; held = lent a.now b.now list.now; others = counts.new ∷ [] }
        ≡ bands_call a.now b.now list.now counts.old }
{
    pairing::pairing_bands(a, b, list, counts)
}
