//! Laws of states. Each is the contract of a function that does nothing.

ghost use Rattle.std.specs.Prelude.{◌≡◌, ℕ, List, [], ◌∷◌, ◌++◌, length, ◌↔◌};
ghost use Rattle.std.specs.List.{AllByRecursion, flat_map};
ghost use Rattle.stroke_core.specs.Seed.{Seed};
ghost use Rattle.stroke_lattice.specs.State.{State, HasStroke, HasTombstone, nothing, placed, withdrawn};
ghost use Rattle.stroke_lattice.specs.State.{IsBelow, IsJoin, AreCompatible, IsJoinOf, IsLeastAbove};
ghost use Rattle.stroke_lattice.specs.Walks.{AreStrokes, AreTombstones};
ghost use Rattle.stroke_lattice.specs.Pieces.{strokes_of, tombstones_of, items_of, pieces_of, AreFull};

/// States with the same strokes and the same tombstones are equal.
pub fn contents_decide_a_state()
    ensures { (a b : State) → ((tag : ℕ) (seed : Seed) → HasStroke a tag seed ↔ HasStroke b tag seed)
        → ((tag : ℕ) → HasTombstone a tag ↔ HasTombstone b tag) → a ≡ b }
{}

/// A state above another that has as many strokes and as many tombstones is that state.
pub fn counts_decide_a_higher_state()
    ensures { (a b : State) → IsBelow a b → length (strokes_of a) ≡ length (strokes_of b)
        → length (tombstones_of a) ≡ length (tombstones_of b) → a ≡ b }
{}

/// The state without strokes and tombstones has none.
pub fn contents_of_nothing()
    ensures strokes { (tag : ℕ) (seed : Seed) → HasStroke nothing tag seed → ⊥ }
    ensures tombstones { (tag : ℕ) → HasTombstone nothing tag → ⊥ }
{}

/// A state of one stroke has that stroke alone.
pub fn contents_of_placed()
    ensures strokes { (tag t : ℕ) (seed x : Seed) → HasStroke (placed tag seed) t x ↔ ((t ≡ tag) × (x ≡ seed)) }
    ensures tombstones { (tag t : ℕ) (seed : Seed) → HasTombstone (placed tag seed) t → ⊥ }
{}

/// A state of one tombstone has that tombstone alone.
pub fn contents_of_withdrawn()
    ensures strokes { (tag t : ℕ) (seed : Seed) → HasStroke (withdrawn tag) t seed → ⊥ }
    ensures tombstones { (tag t : ℕ) → HasTombstone (withdrawn tag) t ↔ (t ≡ tag) }
{}

/// A state below another is below each state that this one is below.
pub fn below_is_transitive()
    ensures { (a b c : State) → IsBelow a b → IsBelow b c → IsBelow a c }
{}

/// Two states have at most one join.
pub fn at_most_one_join()
    ensures { (a b j k : State) → IsJoin a b j → IsJoin a b k → j ≡ k }
{}

/// Two states have a join exactly where they do not clash.
pub fn compatible_states_have_a_join()
    ensures { (a b : State) → AreCompatible a b ↔ ((join : State) × IsJoin a b join) }
{}

/// There is a state above two others exactly where they do not clash.
pub fn compatible_states_have_a_bound()
    ensures { (a b : State) → AreCompatible a b ↔ ((bound : State) × IsBelow a bound × IsBelow b bound) }
{}

/// Joining is commutative.
pub fn joining_is_commutative()
    ensures { (a b join : State) → IsJoin a b join ↔ IsJoin b a join }
{}

/// Joining is associative: on both sides there is a join, and the same one, or on neither.
pub fn joining_is_associative()
    ensures { (a b c join : State) → ((ab : State) × IsJoin a b ab × IsJoin ab c join)
        ↔ ((bc : State) × IsJoin b c bc × IsJoin a bc join) }
{}

/// Joining is idempotent.
pub fn joining_is_idempotent()
    ensures { (a join : State) → IsJoin a a join ↔ (join ≡ a) }
{}

/// A list of states has at most one join.
pub fn at_most_one_join_of_a_list()
    ensures { (states : List State) (j k : State) → IsJoinOf states j → IsJoinOf states k → j ≡ k }
{}

/// The join of a list of states is their least upper bound.
pub fn join_of_a_list_is_least()
    ensures { (states : List State) (join : State) → IsJoinOf states join → IsLeastAbove states join }
{}

/// The join of no states is the state without strokes and tombstones.
pub fn join_of_an_empty_list()
    ensures { (join : State) → IsJoinOf [] join ↔ (join ≡ nothing) }
{}

/// To join a list with one more state is to join that state with the join of the list.
pub fn join_of_a_longer_list()
    ensures { (states : List State) (s delta join : State) → IsJoinOf states s
        → (IsJoinOf (states ++ delta ∷ []) join ↔ IsJoin s delta join) }
{}

/// A list with one more state has a join where that state does not clash with the join of the list.
pub fn compatible_lists_have_a_join()
    ensures { (states : List State) (s delta : State) → IsJoinOf states s → AreCompatible s delta
        → (join : State) × IsJoinOf (states ++ delta ∷ []) join }
{}

/// A walk over the strokes of a state gives one list, and so does one over its tombstones.
pub fn walks_give_one_list()
    ensures strokes { (s : State) (entries : List (ℕ × Seed)) → AreStrokes s entries → entries ≡ strokes_of s }
    ensures tombstones { (s : State) (tags : List ℕ) → AreTombstones s tags → tags ≡ tombstones_of s }
{}

/// The join of the pieces of a state is the state.
pub fn pieces_join()
    ensures { (max : ℕ) (s : State) → IsJoinOf (pieces_of max s) s }
{}

/// The pieces of a state have its strokes and then its tombstones, each once and in their order.
pub fn pieces_keep_the_order()
    ensures { (max : ℕ) (s : State) → flat_map items_of (pieces_of max s) ≡ items_of s }
{}

/// The state without strokes and tombstones has no piece.
pub fn pieces_of_nothing()
    ensures { (max : ℕ) → pieces_of max nothing ≡ [] }
{}

/// Each piece has a stroke or a tombstone.
pub fn no_piece_is_empty()
    ensures { (max : ℕ) (s : State) → AllByRecursion (λ piece. piece ≡ nothing → ⊥) (pieces_of max s) }
{}

/// Each piece but the last is full: with the next stroke or tombstone its frame would be too long.
pub fn pieces_are_full()
    ensures { (max : ℕ) (s : State) → AreFull max (pieces_of max s) }
{}
