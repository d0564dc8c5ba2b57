ghost use Rattle.std.specs.Prelude.{◌≡◌, IsSome};
ghost use Rattle.std.specs.Map.{lookup};
ghost use Rattle.store_api.specs.declared.loc.Loc.{Loc};
ghost use Rattle.store_api.specs.Places.{Contents, loc_eq};
ghost use Rattle.slice_core.specs.Tree.{Tree};
ghost use Rattle.slice_core.specs.Slices.{on, AgreeOn, EachOnce};
ghost use Rattle.slice_core.specs.Walks.{walked, end_of, IsAsked};

/// Contents that have what a slice noted give the same slice.
pub fn frame<R>()
    ensures { (t : Tree R) (c d : Contents) → AgreeOn (on t c).notes d → on t d ≡ on t c }
{}

/// What a slice notes of a place is what stands there.
pub fn notes_hold<R>()
    ensures { (t : Tree R) (c : Contents) → AgreeOn (on t c).notes c }
{}

/// No place is noted twice, and none stands twice among the writes.
pub fn each_place_once<R>()
    ensures notes { (t : Tree R) (c : Contents) → EachOnce (on t c).notes }
    ensures writes { (t : Tree R) (c : Contents) → EachOnce (on t c).writes }
{}

/// Noted are exactly the places that the slice asks before it puts something there.
pub fn noted_are_asked<R>()
    ensures noted { (t : Tree R) (c : Contents) (l : Loc) → IsSome (lookup (loc_eq l) (on t c).notes) → IsAsked t c l }
    ensures asked { (t : Tree R) (c : Contents) (l : Loc) → IsAsked t c l → IsSome (lookup (loc_eq l) (on t c).notes) }
{}

/// A slice's writes leave what its puts, done one after another in the contents, leave; and so it is with its
/// effects, its outcome and its new rest.
pub fn contents_after<R>()
    ensures { (t : Tree R) (c : Contents) → walked t c ≡ end_of (on t c) c }
{}
