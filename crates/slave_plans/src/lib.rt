// What each operation on a table of slaves (requests No. 7 and No. 8) decides, from what crate slaves has seen of the table: its size, the
// indices where an owner's addresses stand, which are the size for an address that stands nowhere, and how much of it is taken.
#![tactic(auto, unfolding(basics::specs::Choice::choose))]

ghost use Rattle.std.specs.Prelude.{◌≡◌, [], ◌∷◌, IfOk};
ghost use Rattle.basics.specs.Choice.{first};
ghost use Rattle.basics.specs.Refusal.{number_in};
ghost use Rattle.slave_plans.specs.Answer.{length_line, not_slave, is_absent, is_full, is_taken, enter_lines, find_lines, found_by, found_as, change_lines, readdressed};
ghost use Rattle.slave_plans.specs.Table.{none, is_free, has_address};
ghost use Rattle.slave_plans.specs.Plan.{search_start, is_sought, occupancy_start, occupancy_with};

use basics::Refusal;

// An entry of the table. It is free exactly if its address is 0, and nobody's then.
#[repr(C)]
#[derive(Clone, Copy, Default)]
pub struct Slave {
    pub address: u16,
    pub owner: bool,
    pub product: u32,
    pub device: u32,
}

// How many entries an owner holds, and the index of the lowest free one, which is at least the table's size if there is none.
#[derive(Clone, Copy)]
pub struct Occupancy {
    pub held: usize,
    pub free: usize,
}

// What is looked for in a table.
#[derive(Clone, Copy)]
pub enum Sought {
    // A free entry.
    Free,
    // The entry of an owner that has an address.
    Held { owner: bool, address: u16 },
}

// An entry, and the index where it is put.
#[derive(Clone, Copy)]
pub struct Placement {
    pub index: usize,
    pub entry: Slave,
}

// The identifiers of the slave that was found, or a refusal's number and zeros.
#[repr(C)]
#[derive(Clone, Copy, Default)]
pub struct Found {
    pub number: u32,
    pub product: u32,
    pub device: u32,
}

impl From<Result<Slave, Refusal>> for Found {
    ghost from_gives = { λ entry found. found ≡ found_as entry };

    fn from(entry: Result<Slave, Refusal>) -> Found {
        match entry {
            Ok(entry) => Found {
                number: 0,
                product: entry.product,
                device: entry.device,
            },
            Err(refusal) => Found {
                number: refusal.number(),
                ..Found::default()
            },
        }
    }
}

// The first entry to look at. In a table of a wrong length, behind the last one: it is refused, and may not be there whole.
pub fn search_start(size: usize, start: u8) -> usize
    ensures { result ≡ search_start size start }
{
    if size == 32 { start as usize } else { size }
}

// A free entry, whichever owner it shows.
#[tactic(auto, unfolding(crate::specs::Table::is_free))]
fn is_free(entry: Slave) -> bool
    ensures { result ≡ is_free entry }
{
    entry.address == 0
}

// An owner's entry with an address.
#[tactic(auto, unfolding(crate::specs::Table::has_address))]
fn has_address(entry: Slave, owner: bool, address: u16) -> bool
    ensures { result ≡ has_address owner address entry }
{
    entry.owner == owner && entry.address == address
}

// The entry is what is looked for.
pub fn is_sought(entry: Slave, sought: Sought) -> bool
    ensures { result ≡ is_sought sought entry }
{
    match sought {
        Sought::Free => is_free(entry),
        Sought::Held { owner, address } => has_address(entry, owner, address),
    }
}

// The occupancy of no entries.
pub fn count_start(size: usize) -> Occupancy
    ensures { result ≡ occupancy_start size }
{
    Occupancy {
        held: 0,
        free: size,
    }
}

// The occupancy of the entries from an index on, from that of the entries behind it. The count of a table is far from where the sum wraps.
#[tactic(auto, unfolding(basics::specs::Choice::choose, crate::specs::Plan::occupancy_with, crate::specs::Table::belongs_to, crate::specs::Table::is_free))]
pub fn count_entry(behind: Occupancy, index: usize, entry: Slave, owner: bool) -> Occupancy
    ensures { result ≡ occupancy_with owner index entry behind }
{
    if is_free(entry) {
        return Occupancy {
            free: index,
            ..behind
        };
    }
    if entry.owner != owner {
        return behind;
    }
    Occupancy {
        held: behind.held.wrapping_add(1),
        ..behind
    }
}

// Refusal 24: the table doesn't have 32 entries.
pub fn check_length(size: usize) -> Result<(), Refusal>
    ensures { number_in result ≡ first (length_line size ∷ []) }
{
    if size != 32 {
        return Err(Refusal::WrongTableLength);
    }
    Ok(())
}

// Refusal 14: no slave's address.
#[tactic(auto, unfolding(crate::specs::Answer::not_slave))]
fn not_slave(address: u16) -> bool
    ensures { result ≡ not_slave address }
{
    address / 4096 % 8 != 2 || basics::high_word(address) || address / 16 % 256 == 0
}

// Refusal 17: the address stands nowhere, or is 0, that of the free entries.
#[tactic(auto, unfolding(crate::specs::Answer::is_absent))]
fn is_absent(size: usize, at: usize, address: u16) -> bool
    ensures { result ≡ is_absent size at address }
{
    address == 0 || size <= at
}

// Refusal 16: the owner holds 24 entries or more, or no entry is free.
#[tactic(auto, unfolding(crate::specs::Answer::is_full))]
fn is_full(size: usize, occupancy: Occupancy) -> bool
    ensures { result ≡ is_full size occupancy }
{
    24 <= occupancy.held || size <= occupancy.free
}

// Refusal 15 for a new address: it is another one, and stands somewhere.
#[tactic(auto, unfolding(crate::specs::Answer::is_taken))]
fn is_taken(size: usize, other: usize, from: u16, to: u16) -> bool
    ensures { result ≡ is_taken size other from to }
{
    to != from && other < size
}

// The slave in place of the lowest free entry.
pub fn enter(
    size: usize,
    at: usize,
    occupancy: Occupancy,
    slave: Slave,
) -> Result<Placement, Refusal>
    ensures refused { number_in result ≡ first (enter_lines size at occupancy slave) }
    ensures placed { IfOk result (λ placement. placement ≡ record { index = occupancy.free; entry = slave }) }
{
    check_length(size)?;
    if not_slave(slave.address) {
        return Err(Refusal::NotSlaveAddress);
    }
    if slave_id::too_wide(slave.product, slave.device) {
        return Err(Refusal::NotSlaveId);
    }
    if at < size {
        return Err(Refusal::AddressTaken);
    }
    if is_full(size, occupancy) {
        return Err(Refusal::TableFull);
    }
    Ok(Placement {
        index: occupancy.free,
        entry: slave,
    })
}

// The address stands somewhere; finding and removing are refused alike.
fn check_present(size: usize, at: usize, address: u16) -> Result<(), Refusal>
    ensures { number_in result ≡ first (find_lines size at address) }
{
    check_length(size)?;
    if is_absent(size, at, address) {
        return Err(Refusal::NoSuchAddress);
    }
    Ok(())
}

// The identifiers of the entry where the address stands.
#[tactic(auto, unfolding(basics::specs::Choice::choose, crate::specs::Answer::found_by))]
pub fn find(size: usize, at: usize, entry: Slave, address: u16) -> Found
    ensures { result ≡ found_by size at entry address }
{
    Found::from(check_present(size, at, address).map(|()| entry))
}

// The entry where the old address stands, with the new one.
pub fn change(
    size: usize,
    at: usize,
    entry: Slave,
    other: usize,
    from: u16,
    to: u16,
) -> Result<Placement, Refusal>
    ensures refused { number_in result ≡ first (change_lines size at other from to) }
    ensures placed { IfOk result (λ placement. placement ≡ record { index = at; entry = readdressed to entry }) }
{
    check_length(size)?;
    if not_slave(to) {
        return Err(Refusal::NotSlaveAddress);
    }
    if is_absent(size, at, from) {
        return Err(Refusal::NoSuchAddress);
    }
    if is_taken(size, other, from, to) {
        return Err(Refusal::AddressTaken);
    }
    Ok(Placement {
        index: at,
        entry: Slave {
            address: to,
            ..entry
        },
    })
}

// A free entry where the address stands.
pub fn remove(size: usize, at: usize, address: u16) -> Result<Placement, Refusal>
    ensures refused { number_in result ≡ first (find_lines size at address) }
    ensures placed { IfOk result (λ placement. placement ≡ record { index = at; entry = none }) }
{
    check_present(size, at, address)?;
    Ok(Placement {
        index: at,
        entry: Slave::default(),
    })
}
