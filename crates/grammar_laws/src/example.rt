//! What the theory says of the small grammar, at any limit of depth.

ghost use Rattle.std.specs.Prelude.{◌≡◌, ℕ, ◌<◌, ◌≤◌, ◌+◌, ◌-◌, List, [], ◌∷◌, ◌++◌, length, true, false, Ok, Err};
ghost use Rattle.grammar_laws.specs.declared.fault.Fault.{Fault};
ghost use Rattle.grammar_laws.specs.declared.fault.Fault.TheVariants.{Stop};
ghost use Rattle.grammar_laws.specs.declared.fault.Why.TheVariants.{Syntax, Depth};
ghost use Rattle.grammar_laws.specs.Words.{Cell, bare, begins};
ghost use Rattle.grammar_laws.specs.Readers.{Outcome, Parser, many, many_from, grown};
ghost use Rattle.grammar_laws.specs.Answers.{Derived, Parses, IsSyntaxPlace, IsTooDeep, Reach, LeastIsDeep};
ghost use Rattle.grammar_laws.specs.ExampleGrammar.{Token, Tree, code, file};
ghost use Rattle.grammar_laws.specs.ExampleShared as shared;
ghost use Rattle.grammar_laws.specs.ExampleReading as reading;
ghost use Rattle.grammar_laws.specs.Lines.{line_at};
ghost use Rattle.grammar_laws.specs.ExampleRows.{value, name, other, semicolon, opening, closing, paren, assign, block_of_one};

/// What is read is a file with that value, no token deeper than the limit; and each such file is read.
pub fn example_is_read_exactly()
    ensures found { (limit : ℕ) (ts : List Token) (tree : List Tree) (rest : List Token) → reading.file limit ts ≡ Ok (tree, rest) → Parses (Derived file) limit ts tree }
    ensures only { (limit : ℕ) (ts : List Token) (tree : List Tree) → Parses (Derived file) limit ts tree → reading.file limit ts ≡ Ok (tree, []) }
{}

/// Other tokens stop at the syntax place, or at the first token before it that is too deep.
pub fn example_refuses_exactly()
    ensures syntax { (limit left : ℕ) (ts : List Token) → reading.file limit ts ≡ Err (Stop Syntax left) → IsSyntaxPlace (Derived file) limit ts left }
    ensures depth { (limit left : ℕ) (ts : List Token) → reading.file limit ts ≡ Err (Stop Depth left) → IsTooDeep (Derived file) limit ts left }
{}

/// A token that is told as too deep is the first whose least depth is above the limit, over all files that begin with the tokens up to the syntax place.
pub fn example_depth_is_the_least()
    ensures { (limit left : ℕ) (ts reach : List Token) → reading.file limit ts ≡ Err (Stop Depth left) → Reach (Derived file) ts reach → LeastIsDeep (Derived file) limit ts reach left }
{}

/// A place's line is that of the token there, and at the end that of the last token.
pub fn example_lines()
    ensures within { line_at value (name ∷ other ∷ []) 1 ≡ 8 }
    ensures at_the_end { line_at value (name ∷ other ∷ []) 0 ≡ 8 }
    ensures first { line_at value (name ∷ other ∷ []) 2 ≡ 7 }
    ensures none { line_at value [] 0 ≡ 1 }
{}

/// Of the two refusals one holds at most.
pub fn example_refusals_exclude_each_other()
    ensures { (limit place left : ℕ) (ts : List Token) → IsSyntaxPlace (Derived file) limit ts place → IsTooDeep (Derived file) limit ts left → ⊥ }
{}

/// Tokens have one tree at most, whatever their depth.
pub fn example_has_one_tree()
    ensures { (one two : List (Cell Token)) (a b : List Tree) → Derived file one a → Derived file two b → bare one ≡ bare two → a ≡ b }
{}

/// A name in a block where no depth is left for a statement: a declaration goes on, a statement is too deep, and what can be neither stops behind the name.
pub fn example_at_the_end_of_depth()
    ensures declaration { reading.file 0 (opening ∷ name ∷ other ∷ []) ≡ Err (Stop Syntax 0) }
    ensures whole { reading.file 0 (opening ∷ name ∷ other ∷ semicolon ∷ closing ∷ []) ≡ Ok (block_of_one ∷ [], []) }
    ensures statement { reading.file 0 (opening ∷ name ∷ assign ∷ []) ≡ Err (Stop Depth 2) }
    ensures neither { reading.file 0 (opening ∷ name ∷ paren ∷ []) ≡ Err (Stop Syntax 1) }
    ensures at_the_end { reading.file 0 (opening ∷ name ∷ []) ≡ Err (Stop Syntax 0) }
    ensures deeper { reading.file 1 (opening ∷ name ∷ assign ∷ name ∷ []) ≡ Err (Stop Depth 1) }
{}

/// Productions that share what they begin with are one language with the form in which they are read.
pub fn example_shares_beginnings()
    ensures read { (d : ℕ) (w : List (Cell Token)) (rest : List Token) (tree : Tree) → shared.published d w rest tree → shared.as_read d w rest tree }
    ensures published { (d : ℕ) (w : List (Cell Token)) (rest : List Token) (tree : Tree) → shared.as_read d w rest tree → shared.published d w rest tree }
{}

/// A loop over items: what was found, with what the turns that are left give, stays the whole.
pub fn example_loop_goes_on()
    ensures begins { (codes : List ℕ) (p : Parser Token Tree) (ts : List Token) → grown [] (many_from code codes p (length ts - 0) ts) ≡ many code codes p ts }
    ensures goes_on { (codes : List ℕ) (p : Parser Token Tree) (found : List Tree) (total : Outcome Token (List Tree)) (n at : ℕ) (ts : List Token) (a : Tree) (mid : List Token) → at < n → begins code codes ts ≡ true → p ts ≡ Ok (a, mid)
        → grown found (many_from code codes p (n - at) ts) ≡ total → grown (found ++ a ∷ []) (many_from code codes p (n - (at + 1)) mid) ≡ total }
    ensures stops { (codes : List ℕ) (p : Parser Token Tree) (found : List Tree) (total : Outcome Token (List Tree)) (n at : ℕ) (ts : List Token) (e : Fault) → at < n → begins code codes ts ≡ true → p ts ≡ Err e
        → grown found (many_from code codes p (n - at) ts) ≡ total → total ≡ Err e }
    ensures ends { (codes : List ℕ) (p : Parser Token Tree) (found : List Tree) (total : Outcome Token (List Tree)) (n at : ℕ) (ts : List Token) → begins code codes ts ≡ false → grown found (many_from code codes p (n - at) ts) ≡ total → total ≡ Ok (found, ts) }
    ensures over { (codes : List ℕ) (p : Parser Token Tree) (found : List Tree) (total : Outcome Token (List Tree)) (n at : ℕ) (ts : List Token) → n ≤ at → grown found (many_from code codes p (n - at) ts) ≡ total → total ≡ Ok (found, ts) }
{}
