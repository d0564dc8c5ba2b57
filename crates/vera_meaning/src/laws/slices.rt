ghost use Rattle.std.specs.Prelude.{◌≡◌, ◌≢◌, ℕ, suc, ◌<◌, ◌≤◌, List, ◌∷◌};
ghost use Rattle.store_api.specs.Places.{Contents};
ghost use Rattle.slice_core.specs.Tree.{Ends, Ended, Spent};
ghost use Rattle.slice_core.specs.Slices.{on};
ghost use Rattle.vera_meaning.specs.Rests.{Here, Item, Rest, nothing_left};
ghost use Rattle.vera_meaning.specs.Statements.{take_item, rest_at, gone_on, size_of};
ghost use Rattle.vera_meaning.specs.Slices.{until_tick, all_items, slice_of};

/// The bounds that make the definition of a slice end never count: more ticks than the budget has, and more items
/// without a tick than there are, give the same slice.
pub fn bounds_do_not_count()
    ensures ticks { (here : Here) (r : Rest) (budget bound : ℕ) → budget ≤ bound → all_items here (suc bound) r.agenda budget ≡ slice_of here r budget }
    ensures free { (here : Here) (r : Rest) (budget bound free : ℕ) → budget ≤ bound → size_of r.agenda < free → until_tick here (all_items here bound) free r.agenda budget ≡ slice_of here r budget }
{}

/// A thread with nothing to do ends, and needs no tick for it.
pub fn nothing_to_do_ends()
    ensures { (here : Here) (budget : ℕ) → slice_of here nothing_left budget ≡ Ends Ended nothing_left }
{}

/// A slice takes its first item off, and is then the slice of what remains, with the ticks that are left, or leaves
/// that to another slice.
pub fn items_in_order()
    ensures { (here : Here) (i : Item) (rest : List Item) (budget : ℕ) → slice_of here (record { agenda = i ∷ rest }) budget ≡ take_item here i budget (λ exit left. gone_on exit (rest_at i rest exit) (slice_of here (record { agenda = rest_at i rest exit }) left)) }
{}

/// A slice that isn't spent is the same with a larger budget: it asks, puts, prints and drives the same, and ends
/// the same.
pub fn larger_budget_changes_spent_slices_alone()
    ensures { (here : Here) (r : Rest) (budget larger : ℕ) (c : Contents) → budget ≤ larger → (on (slice_of here r budget) c).outcome ≢ Spent → on (slice_of here r larger) c ≡ on (slice_of here r budget) c }
{}
