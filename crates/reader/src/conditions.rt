// The five conditions on a whole book, each by the lowest action, group or bar that breaks it.
ghost use Rattle.std.specs.Prelude.{ℕ, ◌<◌, Decides, length, slice_index};
ghost use Rattle.sets.specs.Sets.{In, Apart, Meet, One, Lowest};
ghost use Rattle.model.specs.Tasks.{Fits};
ghost use Rattle.faults.specs.declared.Fault.TheVariants.{AddsAndDeletes, SharedGroup, NotOneAtStart, BrokenGroup, BarAtStart};
ghost use Rattle.book.specs.Views.{task};
ghost use Rattle.faults.specs.Faults.{Breaks};

use book::outline::Outline;
use model::Action;

pub fn adds_and_deletes(outline: &Outline) -> Option<u8>
    ensures { Lowest result (λ a. Breaks (task outline.now) (AddsAndDeletes a)) }
{
    outline
        .actions
        .iter()
        .position(|a| sets::meets(a.adds, a.deletes))
        .map(|i| i as u8)
}

// Whether the group shares a fact with an earlier one.
fn shares(groups: &[u64], g: usize) -> bool
    requires { g < length groups.now }
    ensures { Decides result ((h : ℕ) × (h < g) × Meet (slice_index groups.now h) (slice_index groups.now g)) }
{
    groups[..g].iter().any(|h| sets::meets(*h, groups[g]))
}

pub fn shared_group(outline: &Outline) -> Option<u8>
    ensures { Lowest result (λ g. Breaks (task outline.now) (SharedGroup g)) }
{
    let groups = outline.groups.as_slice();
    (0..groups.len() as u8).find(|g| shares(groups, *g as usize))
}

pub fn not_one_at_start(outline: &Outline) -> Option<u8>
    ensures { Lowest result (λ g. Breaks (task outline.now) (NotOneAtStart g)) }
{
    outline
        .groups
        .iter()
        .position(|g| !sets::share_one(outline.initial, *g))
        .map(|g| g as u8)
}

fn rests(a: Action, g: u64) -> bool
    ensures { Decides result (Apart a.adds g × Apart a.deletes g) }
{
    !sets::meets(a.adds, g) && !sets::meets(a.deletes, g)
}

fn adds_one_deletes_one(a: Action, g: u64) -> bool
    ensures { Decides result (One a.adds g × One a.deletes g) }
{
    sets::share_one(a.adds, g) && sets::share_one(a.deletes, g)
}

fn moves(a: Action, g: u64) -> bool
    ensures { Decides result (One a.adds g × One a.deletes g × ((i : ℕ) → In i g → In i a.deletes → In i a.needs)) }
{
    adds_one_deletes_one(a, g) && sets::is_part(a.deletes & g, a.needs)
}

fn fits(a: Action, g: u64) -> bool
    ensures { Decides result (Fits a g) }
{
    sets::share_at_most_one(a.needs, g) && (rests(a, g) || moves(a, g))
}

// Whether some group does not fit the action.
fn breaks(groups: &[u64], a: Action) -> bool
    ensures { Decides result ((g : ℕ) × (g < length groups.now) × (Fits a (slice_index groups.now g) → ⊥)) }
{
    groups.iter().any(|g| !fits(a, *g))
}

pub fn broken_group(outline: &Outline) -> Option<u8>
    ensures { Lowest result (λ a. Breaks (task outline.now) (BrokenGroup a)) }
{
    outline
        .actions
        .iter()
        .position(|a| breaks(&outline.groups, *a))
        .map(|i| i as u8)
}

pub fn bar_at_start(outline: &Outline) -> Option<u8>
    ensures { Lowest result (λ i. Breaks (task outline.now) (BarAtStart i)) }
{
    outline
        .bars
        .iter()
        .position(|bar| sets::is_part(*bar, outline.initial))
        .map(|i| i as u8)
}
