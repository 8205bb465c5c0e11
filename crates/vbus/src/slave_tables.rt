// A table of slaves that two owners share, lent as a slice of entries.
ghost use Rattle.std.specs.Prelude.{◌≡◌};
ghost use Rattle.slave_plans.specs.Answer.{found_of, change_refusal, changed, removed};
ghost use Rattle.slave_figures.specs.Keeping.{enter_kept, entered_by, remove_kept, check_of};

use slave_figures::{Checked, Figures, Kept};
use slave_plans::{Found, Slave};

// Enters a slave for its owner as the lowest free entry from the figures' on, and answers 0 or the refusal's number, with the figures afterwards.
#[unsafe(no_mangle)]
pub extern "C" fn vbus_slave_enter(table: &mut [Slave], figures: Figures, slave: Slave) -> Kept
    ensures value { result ≡ enter_kept figures slave table.old }
    ensures table_after { table.new ≡ entered_by figures slave table.old }
{
    slaves::enter(table, figures, slave)
}

// Finds the identifiers of an owner's slave by its address.
#[unsafe(no_mangle)]
pub extern "C" fn vbus_slave_find(table: &[Slave], owner: bool, address: u16) -> Found
    ensures { result ≡ found_of owner address table.now }
{
    slaves::find(table, owner, address)
}

// Changes the address of an owner's slave, and answers 0 or the refusal's number.
#[unsafe(no_mangle)]
pub extern "C" fn vbus_slave_change_address(
    table: &mut [Slave],
    owner: bool,
    from: u16,
    to: u16,
) -> u32
    ensures value { result ≡ change_refusal owner from to table.old }
    ensures table_after { table.new ≡ changed owner from to table.old }
{
    slaves::change_address(table, owner, from, to)
}

// Removes an owner's slave, whose entry is zeroed, and answers 0 or the refusal's number, with the figures afterwards.
#[unsafe(no_mangle)]
pub extern "C" fn vbus_slave_remove(
    table: &mut [Slave],
    figures: Figures,
    owner: bool,
    address: u16,
) -> Kept
    ensures value { result ≡ remove_kept figures owner address table.old }
    ensures table_after { table.new ≡ removed owner address table.old }
{
    slaves::remove(table, figures, owner, address)
}

// Checks whether figures are the table's.
#[unsafe(no_mangle)]
pub extern "C" fn vbus_slave_check_figures(table: &[Slave], figures: Figures) -> Checked
    ensures { result ≡ check_of figures table.now }
{
    slaves::check_figures(table, figures)
}
