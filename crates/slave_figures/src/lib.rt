// What is kept with a table of slaves in place of counting (request No. 9): how many entries each owner holds, and the lowest free one. Any
// figures may be handed in; from true ones come true ones.
#![tactic(auto, unfolding(basics::specs::Choice::choose))]

ghost use Rattle.std.specs.Prelude.{◌≡◌};
ghost use Rattle.slave_figures.specs.Keeping.{held_by, figures_with, kept_by, same_figures, check_by, checked_as};
ghost use Rattle.slave_figures.specs.Plan.{index_behind, enter_figures, remove_figures, figures_counted};

use basics::Refusal;
use slave_plans::Occupancy;

// How many entries each owner holds, and the index of the lowest free one, which is 32 if there is none.
#[repr(C)]
#[derive(Clone, Copy)]
pub struct Figures {
    pub no: u8,
    pub yes: u8,
    pub lowest: u8,
}

// What entering and removing answer: 0 or the refusal's number, and the figures afterwards, which a refusal leaves as they were.
#[repr(C)]
#[derive(Clone, Copy)]
pub struct Kept {
    pub number: u32,
    pub figures: Figures,
}

// Whether figures are true, or a refusal's number and no.
#[repr(C)]
#[derive(Clone, Copy)]
pub struct Checked {
    pub number: u32,
    pub right: bool,
}

impl From<Result<bool, Refusal>> for Checked {
    ghost from_gives = { λ right checked. checked ≡ checked_as right };

    fn from(right: Result<bool, Refusal>) -> Checked {
        match right {
            Ok(right) => Checked { number: 0, right },
            Err(refusal) => Checked {
                number: refusal.number(),
                right: false,
            },
        }
    }
}

// How many entries an owner holds.
#[tactic(auto, unfolding(basics::specs::Choice::choose, crate::specs::Keeping::held_by))]
fn held(figures: Figures, owner: bool) -> u8
    ensures { result ≡ held_by owner figures }
{
    if owner { figures.yes } else { figures.no }
}

// How many entries an owner holds, with the free entry that was found from the lowest on.
pub fn occupancy(figures: Figures, owner: bool, free: usize) -> Occupancy
    ensures { result ≡ record { held = held_by owner figures; free = free } }
{
    Occupancy {
        held: held(figures, owner) as usize,
        free,
    }
}

// The index behind one, where the search for the next free entry begins.
pub fn behind(index: usize) -> u8
    ensures { result ≡ index_behind index }
{
    index.saturating_add(1).min(255) as u8
}

// Another number for an owner, and another lowest free entry.
#[tactic(auto, unfolding(basics::specs::Choice::choose, crate::specs::Keeping::figures_with))]
fn with_held(figures: Figures, owner: bool, held: u8, lowest: u8) -> Figures
    ensures { result ≡ figures_with owner held lowest figures }
{
    if owner {
        Figures {
            yes: held,
            lowest,
            ..figures
        }
    } else {
        Figures {
            no: held,
            lowest,
            ..figures
        }
    }
}

// An answer: the figures afterwards or, refused, those that there were.
fn answer(number: u32, after: Figures, figures: Figures) -> Kept
    ensures { result ≡ kept_by number after figures }
{
    Kept {
        number,
        figures: if number == 0 { after } else { figures },
    }
}

// The figures after entering, from the next free entry, for which 32 stands if there is none. An owner whose number would wrap is refused.
pub fn after_enter(number: u32, figures: Figures, owner: bool, next: usize) -> Kept
    ensures { result ≡ enter_figures number figures owner next }
{
    let more = held(figures, owner).wrapping_add(1);
    let after = with_held(figures, owner, more, next.min(32) as u8);
    answer(number, after, figures)
}

// The figures after removing, where the entry at an index is free now. Only false figures have 0 for an owner with an entry to remove; 0 stays 0.
pub fn after_remove(number: u32, figures: Figures, owner: bool, index: usize) -> Kept
    ensures { result ≡ remove_figures number figures owner index }
{
    let less = held(figures, owner).saturating_sub(1);
    let lowest = index.min(figures.lowest as usize) as u8;
    let after = with_held(figures, owner, less, lowest);
    answer(number, after, figures)
}

// The figures are those that counting gave for the two owners.
fn are_counted(no: Occupancy, yes: Occupancy, figures: Figures) -> bool
    ensures { result ≡ same_figures (figures_counted no yes) figures }
{
    no.held == figures.no as usize
        && yes.held == figures.yes as usize
        && no.free == figures.lowest as usize
}

// Whether figures are those that counting gave for the two owners.
#[tactic(auto, unfolding(basics::specs::Choice::choose, crate::specs::Keeping::check_by))]
pub fn check(size: usize, no: Occupancy, yes: Occupancy, figures: Figures) -> Checked
    ensures { result ≡ check_by size (figures_counted no yes) figures }
{
    Checked::from(slave_plans::check_length(size).map(|()| are_counted(no, yes, figures)))
}
