// The table of slaves that two owners share (requests No. 7 to No. 9), lent as a slice of entries. Each function over it is thin; what it
// decides, crates slave_plans and slave_figures do, on plain values.
#![tactic(auto)]

ghost use Rattle.std.specs.Prelude.{◌≡◌, get_or};
ghost use Rattle.basics.specs.Refusal.{number_in};
ghost use Rattle.slave_plans.specs.Table.{none};
ghost use Rattle.slave_plans.specs.Plan.{index_sought, occupancy_counted, table_placed};
ghost use Rattle.slave_plans.specs.Answer.{found_of, change_refusal, changed, removed};
ghost use Rattle.slave_figures.specs.Keeping.{enter_kept, entered_by, remove_kept, check_of};

use basics::Refusal;
use slave_figures::{Checked, Figures, Kept};
use slave_plans::{Found, Occupancy, Placement, Slave, Sought};

// The entry at an index; past the end, zeros.
fn entry_at(table: &[Slave], index: usize) -> Slave
    ensures { result ≡ get_or table.now index none }
{
    table.get(index).copied().unwrap_or_default()
}

// Puts the entry of a plan where it goes. A refused plan, and an index past the end, change nothing. It answers 0 or the refusal's number, as
// C's `change_address` does and the functions of the figures take it.
fn put(table: &mut [Slave], plan: Result<Placement, Refusal>) -> u32
    ensures number { result ≡ number_in plan }
    ensures table_after { table.new ≡ table_placed plan table.old }
{
    match plan {
        Ok(placement) => {
            if placement.index < table.len() {
                table[placement.index] = placement.entry;
            }
            0
        }
        Err(refusal) => refusal.number(),
    }
}

// The lowest index, from a start on, of an entry that is sought; at least the table's length if there is none. In a table of a wrong length
// no entry is looked at.
fn seek(table: &[Slave], start: u8, sought: Sought) -> usize
    ensures { result ≡ index_sought start sought table.now }
{
    let first = slave_plans::search_start(table.len(), start);
    for index in first..table.len() {
        if slave_plans::is_sought(table[index], sought) {
            return index;
        }
    }
    first.max(table.len())
}

// How many entries the owner holds, and the lowest free one: counted from the last entry on, so that the free one seen last is the lowest.
// In a table of a wrong length no entry is looked at.
fn count(table: &[Slave], owner: bool) -> Occupancy
    ensures { result ≡ occupancy_counted owner table.now }
{
    let first = slave_plans::search_start(table.len(), 0);
    let mut occupancy = slave_plans::count_start(table.len());
    for index in (first..table.len()).rev() {
        occupancy = slave_plans::count_entry(occupancy, index, table[index], owner);
    }
    occupancy
}

// Enters a slave for its owner as the lowest free entry from the figures' on, and answers 0 or the refusal's number, with the figures afterwards.
pub fn enter(table: &mut [Slave], figures: Figures, slave: Slave) -> Kept
    ensures value { result ≡ enter_kept figures slave table.old }
    ensures table_after { table.new ≡ entered_by figures slave table.old }
{
    let at = seek(
        table,
        0,
        Sought::Held {
            owner: slave.owner,
            address: slave.address,
        },
    );
    let free = seek(table, figures.lowest, Sought::Free);
    let next = seek(table, slave_figures::behind(free), Sought::Free);
    let occupancy = slave_figures::occupancy(figures, slave.owner, free);
    let plan = slave_plans::enter(table.len(), at, occupancy, slave);
    let number = put(table, plan);
    slave_figures::after_enter(number, figures, slave.owner, next)
}

// Finds the identifiers of an owner's slave by its address.
pub fn find(table: &[Slave], owner: bool, address: u16) -> Found
    ensures { result ≡ found_of owner address table.now }
{
    let at = seek(table, 0, Sought::Held { owner, address });
    let entry = entry_at(table, at);
    slave_plans::find(table.len(), at, entry, address)
}

// Changes the address of an owner's slave, and answers 0 or the refusal's number.
pub fn change_address(table: &mut [Slave], owner: bool, from: u16, to: u16) -> u32
    ensures value { result ≡ change_refusal owner from to table.old }
    ensures table_after { table.new ≡ changed owner from to table.old }
{
    let at = seek(
        table,
        0,
        Sought::Held {
            owner,
            address: from,
        },
    );
    let entry = entry_at(table, at);
    let other = seek(table, 0, Sought::Held { owner, address: to });
    let plan = slave_plans::change(table.len(), at, entry, other, from, to);
    put(table, plan)
}

// Removes an owner's slave, whose entry is zeroed, and answers 0 or the refusal's number, with the figures afterwards.
pub fn remove(table: &mut [Slave], figures: Figures, owner: bool, address: u16) -> Kept
    ensures value { result ≡ remove_kept figures owner address table.old }
    ensures table_after { table.new ≡ removed owner address table.old }
{
    let at = seek(table, 0, Sought::Held { owner, address });
    let plan = slave_plans::remove(table.len(), at, address);
    let number = put(table, plan);
    slave_figures::after_remove(number, figures, owner, at)
}

// Checks whether figures are the table's.
pub fn check_figures(table: &[Slave], figures: Figures) -> Checked
    ensures { result ≡ check_of figures table.now }
{
    let no = count(table, false);
    let yes = count(table, true);
    slave_figures::check(table.len(), no, yes, figures)
}
