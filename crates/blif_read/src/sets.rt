//! Sets of nets.
ghost use Rattle.std.specs.Prelude.{◌≡◌, ℕ, ◌<◌, ◌∷◌, [], ◌++◌, List, Bool, length, slice_set, slice_index_or, IfOk, false, true, if◌then◌else◌, not};
ghost use Rattle.std.specs.List.{list_any};
ghost use Rattle.std.specs.Bool.{OnTrue};
ghost use Rattle.blif_read.specs.Refusals.{is_in, meet};
ghost use Rattle.blif_read.specs.Sets.{IsSet, AllBelow, clashes};

use four_state::NoMemory;
use std::alloc::Global;
use std::marker::Model;

/// Some of the nets, as a mark for each.
#[derive(Drop)]
pub struct NetSet {
    marks: Vec<bool>,
}

impl Model for NetSet {
    ghost use Rattle.std.specs.Prelude.{List, Bool};

    ghost Value = { List Bool };

    ghost view = { λ s. s.marks.items };
}

impl NetSet {
    /// No net of so many.
    pub fn new(alloc: Global, count: usize) -> Result<NetSet, NoMemory>
        ensures count { IfOk result (λ s. length s ≡ count) }
        ensures empty { IfOk result (λ s. IsSet s []) }
    {
        Ok(NetSet {
            marks: vec![in alloc; false; count]?,
        })
    }

    pub fn has(&self, net: usize) -> bool
        requires { net < length self.now }
        ensures { (known : List ℕ) → IsSet self.now known → result ≡ is_in known net }
    {
        self.marks[net]
    }

    pub fn insert(&mut self, net: usize)
        requires { net < length self.old }
        ensures same { length self.new ≡ length self.old }
        ensures set { (known : List ℕ) → IsSet self.old known → IsSet self.new (known ++ net ∷ []) }
    {
        self.marks[net] = true;
    }

    /// Whether one of the nets is in the set.
    pub fn has_any(&self, nets: &[usize]) -> bool
        requires { AllBelow (length self.now) nets.now }
        ensures { (known : List ℕ) → IsSet self.now known → result ≡ meet known nets.now }
    {
        for net in nets {
            if self.has(*net) {
                return true;
            }
        }
        false
    }

    pub fn insert_all(&mut self, nets: &[usize])
        requires { AllBelow (length self.old) nets.now }
        ensures same { length self.new ≡ length self.old }
        ensures set { (known : List ℕ) → IsSet self.old known → IsSet self.new (known ++ nets.now) }
    {
        for net in nets {
            self.insert(*net);
        }
    }

    /// Inserts the nets. `false` where one of them is there already or stands twice, and then not all are inserted.
    pub fn insert_new(&mut self, nets: &[usize]) -> bool
        requires { AllBelow (length self.old) nets.now }
        ensures same { length self.new ≡ length self.old }
        ensures clash { (known : List ℕ) → IsSet self.old known → clashes known nets.now ≡ (if result then false else true) }
        ensures set { OnTrue result ((known : List ℕ) → IsSet self.old known → IsSet self.new (known ++ nets.now)) }
    {
        for net in nets {
            if self.has(*net) {
                return false;
            }
            self.insert(*net);
        }
        true
    }

    /// Inserts the nets of two lists as `insert_new` does those of one.
    pub fn insert_both(&mut self, nets: &[usize], more: &[usize]) -> bool
        requires nets { AllBelow (length self.old) nets.now }
        requires more { AllBelow (length self.old) more.now }
        ensures same { length self.new ≡ length self.old }
        ensures clash { (known : List ℕ) → IsSet self.old known → clashes known (nets.now ++ more.now) ≡ (if result then false else true) }
        ensures set { OnTrue result ((known : List ℕ) → IsSet self.old known → IsSet self.new (known ++ nets.now ++ more.now)) }
    {
        if !self.insert_new(nets) {
            return false;
        }
        self.insert_new(more)
    }

    /// Whether one of the nets isn't in the set.
    pub fn lacks_any(&self, nets: &[usize]) -> bool
        requires { AllBelow (length self.now) nets.now }
        ensures { (known : List ℕ) → IsSet self.now known → result ≡ list_any (λ net. not (is_in known net)) nets.now }
    {
        for net in nets {
            if !self.has(*net) {
                return true;
            }
        }
        false
    }
}
