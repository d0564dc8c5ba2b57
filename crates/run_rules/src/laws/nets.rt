ghost use Rattle.std.specs.Prelude.{◌≡◌, ◌≢◌, ℕ, ◌<◌, ◌==◌, List, [], ◌∷◌, ◌++◌, length, All, Some, None, slice_get, if◌then◌else◌};
ghost use Rattle.four_state.specs.declared.bit.Bit.{Bit};
ghost use Rattle.four_state.specs.declared.bit.Bit3.{Bit3};
ghost use Rattle.four_state.specs.declared.bit.Bit3.TheVariants.{X};
ghost use Rattle.vera_ast.specs.declared.tree.interfaces.Direction.TheVariants.{Output};
ghost use Rattle.vera_ast.specs.Signals.{NamedSignal, AreApart};
ghost use Rattle.blif_read.specs.Netlists.{Parts};
ghost use Rattle.blif_read.specs.Nets.{number};
ghost use Rattle.blif_read.specs.Valid.{IsValid};
ghost use Rattle.run_rules.specs.Drives.{Driven, with_value};
ghost use Rattle.run_rules.specs.Nets.{net_name, nets_of, driven_nets, net_bit, put_bits};
ghost use Rattle.run_rules.specs.Links.{AllLink};

/// Where output signals are apart, two of their nets have one name only if they are one bit of one signal.
pub fn net_names_are_apart()
    ensures signal { (signals : List NamedSignal) (n m : ℕ) (a b : NamedSignal) (i j : ℕ) → AreApart signals → slice_get signals n ≡ Some a → slice_get signals m ≡ Some b → a.signal.direction ≡ Output → b.signal.direction ≡ Output → net_name a.signal i ≡ net_name b.signal j → n ≡ m }
    ensures bit { (signals : List NamedSignal) (n m : ℕ) (a b : NamedSignal) (i j : ℕ) → AreApart signals → slice_get signals n ≡ Some a → slice_get signals m ≡ Some b → a.signal.direction ≡ Output → b.signal.direction ≡ Output → i < a.signal.width.bits → j < b.signal.width.bits → net_name a.signal i ≡ net_name b.signal j → i ≡ j }
{}

/// Two names have one number only if they are one name, or no net has it.
pub fn net_numbers_are_apart()
    ensures { (names : List (List ℕ)) (x y : List ℕ) → number names x ≡ number names y → number names x < length names → x ≡ y }
{}

/// Where output signals are apart, driving one of them with as many bits as it is wide puts these bits on its nets,
/// and changes no other net. Where the netlist lacks a net of the signal, this holds of each net that it has.
pub fn driving_puts_bits()
    ensures nets { (names : List (List ℕ)) (signals : List NamedSignal) (driven : Driven) (n : ℕ) (s : NamedSignal) (bits : List Bit) → AreApart signals → slice_get signals n ≡ Some s → s.signal.direction ≡ Output → length bits ≡ s.signal.width.bits → All (λ net. net < length names) (nets_of names s.signal) → driven_nets names signals (with_value driven n bits) ≡ put_bits (nets_of names s.signal) bits (driven_nets names signals driven) }
    ensures there { (names : List (List ℕ)) (signals : List NamedSignal) (driven : Driven) (n : ℕ) (s : NamedSignal) (bits : List Bit) (net : ℕ) → AreApart signals → slice_get signals n ≡ Some s → s.signal.direction ≡ Output → length bits ≡ s.signal.width.bits → net < length names → driven_nets names signals (with_value driven n bits) net ≡ put_bits (nets_of names s.signal) bits (driven_nets names signals driven) net }
{}

/// Where output signals are apart, the net of each bit of a signal that is driven has this bit, and a net that is none
/// of the signal's keeps its value.
pub fn driving_gives_each_net_its_bit()
    ensures bit { (names : List (List ℕ)) (signals : List NamedSignal) (driven : Driven) (n : ℕ) (s : NamedSignal) (bits : List Bit) (i : ℕ) (b : Bit) → AreApart signals → slice_get signals n ≡ Some s → s.signal.direction ≡ Output → length bits ≡ s.signal.width.bits → slice_get bits i ≡ Some b → number names (net_name s.signal i) < length names → driven_nets names signals (with_value driven n bits) (number names (net_name s.signal i)) ≡ net_bit b }
    ensures other { (names : List (List ℕ)) (signals : List NamedSignal) (driven : Driven) (n : ℕ) (s : NamedSignal) (bits : List Bit) (net : ℕ) → slice_get signals n ≡ Some s → All (λ other. other ≢ net) (nets_of names s.signal) → driven_nets names signals (with_value driven n bits) net ≡ driven_nets names signals driven net }
{}

/// Before any drive each net is x.
pub fn undriven_nets_are_x()
    ensures { (names : List (List ℕ)) (signals : List NamedSignal) → driven_nets names signals (λ n. None) ≡ (λ net. X) }
{}

/// Bits are put on nets one after another: no bit changes nothing, and one more net takes one more bit.
pub fn bits_are_put_in_order()
    ensures none { (value : ℕ → Bit3) → put_bits [] [] value ≡ value }
    ensures more { (nets : List ℕ) (bits : List Bit) (net : ℕ) (b : Bit) (value : ℕ → Bit3) → length nets ≡ length bits → put_bits (nets ++ net ∷ []) (bits ++ b ∷ []) value ≡ (λ other. if other == net then net_bit b else put_bits nets bits value other) }
{}

/// A valid netlist has each net of an output signal that links to it.
pub fn linked_nets_are_there()
    ensures { (p : Parts) (signals : List NamedSignal) (n : ℕ) (s : NamedSignal) → IsValid p → AllLink p signals → slice_get signals n ≡ Some s → s.signal.direction ≡ Output → All (λ net. net < length p.nets) (nets_of p.nets s.signal) }
{}
