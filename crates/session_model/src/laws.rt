ghost use Rattle.std.specs.Prelude.{◌≡◌, ◌↔◌, ◌≤◌, ◌<◌, ◌^◌, ◌⊎◌, ◌&&◌, ◌||◌, [], ◌∷◌, ℕ, Bool, List, Ok, Some, true, false, length, map, nat_eq};
ghost use Rattle.graph_model.specs.Ids.{has, rises};
ghost use Rattle.graph_model.specs.Graph.{Graph, IsReached, entity_of, has_edge, ids, lists};
ghost use Rattle.graph_model.specs.Served.{IsKept, IsSame, MayAsk, Storage, may_hold_all};
ghost use Rattle.graph_model.specs.declared.ask.Ask.{Ask as AskModel};
ghost use Rattle.graph_model.specs.declared.entity.Entity.{Entity};
ghost use Rattle.graph_model.specs.Stores.{is_valid_store};
ghost use Rattle.type_desc.specs.declared.desc.TypeDesc.{TypeDesc};
ghost use Rattle.refactor_table.specs.declared.name.Pair.{Pair};
ghost use Rattle.session_model.specs.Commands.{Command, command_of};
ghost use Rattle.session_model.specs.Instances.{Held, Instance, Instances, has_instance, instance_at, kept_instances, reached, gathered_lazily, gathered_eagerly, held_ids};
ghost use Rattle.session_model.specs.Loading.{closure_of, conversion, eager_refs, load};
ghost use Rattle.session_model.specs.Answer.{State, gathered_records, are_too_big, opened, first_instances, needs_start, command_turn, turn, reached_records, saved_instances};
ghost use Rattle.session_model.specs.Sound.{IsSound, IsHere, AreTypes, IsRightGraph, IsProperCommand, IsToLoad, AreNamedInTurn, all_refs, changes_held};

/// The ids that the model's walks give are exactly the ends of walks from the starts, by rising id.
pub fn walks_are_exact()
    ensures exact { (g : Graph) (starts : List ℕ) (x : ℕ) → (has x (reached g starts) ≡ true) ↔ IsReached g starts x }
    ensures order { (g : Graph) (starts : List ℕ) → rises (reached g starts) ≡ true }
{}

/// What either storer gathers is a store that may be made while the saved objects are held, with at least one record.
pub fn stores_are_valid()
    ensures lazily { (state : State) (x most next : ℕ) → IsSound state
        → are_too_big most (gathered_records state.instances (gathered_lazily state.instances x)) ≡ false → most ≤ 16777216 → next ≤ state.next_id
        → is_valid_store state.graph (held_ids state.instances) next (record { records = gathered_records state.instances (gathered_lazily state.instances x); next_id = state.next_id }) ≡ true }
    ensures eagerly { (state : State) (x most next : ℕ) → IsSound state
        → are_too_big most (gathered_records state.instances (gathered_eagerly state.instances x)) ≡ false → most ≤ 16777216 → next ≤ state.next_id
        → is_valid_store state.graph (held_ids state.instances) next (record { records = gathered_records state.instances (gathered_eagerly state.instances x); next_id = state.next_id }) ≡ true }
    ensures lazily_some { (instances : Instances) (x : ℕ) → IsHere instances x → 0 < length (gathered_records instances (gathered_lazily instances x)) }
    ensures eagerly_some { (instances : Instances) (x : ℕ) → IsHere instances x → 0 < length (gathered_records instances (gathered_eagerly instances x)) }
{}

/// A script's state is sound: where it starts, once its root is in memory, and after every line, refused or not.
pub fn states_stay_sound()
    ensures start { (types : List TypeDesc) (graph : Graph) (number next_id : ℕ) → AreTypes types → 1024 ≤ next_id → next_id ≤ 2 ^ 48 → IsRightGraph types next_id graph → IsSound (opened types graph number next_id) }
    ensures begun { (state : State) (instances : Instances) → IsSound state → state.started ≡ false → first_instances state ≡ Ok instances → IsSound (record state { instances = instances; started = true }) }
    ensures command { (most : ℕ) (state : State) (command : Command) → IsSound state → (needs_start command ≡ true → state.started ≡ true) → IsProperCommand command → IsSound (command_turn most state command).state }
    ensures spelled { (text : List ℕ) (command : Command) → command_of text ≡ Some command → IsProperCommand command }
    ensures turn { (most : ℕ) (state : State) (text : List ℕ) → IsSound state → IsSound (turn most state text).state }
{}

/// What a script loads is kept, so each entity may be looked up, and its ids may be held in the order in which they are met.
pub fn loads_are_allowed()
    ensures root { (state : State) → IsSound state → state.started ≡ false → lists state.graph 1 ≡ true → IsToLoad state 1 }
    ensures named { (state : State) (x : ℕ) (i : Instance) (y : ℕ) → IsSound state → instance_at state.instances x ≡ Some i → has y (all_refs i) ≡ true → nat_eq y 0 ≡ false → has_instance state.instances y ≡ false → IsToLoad state y }
    ensures kept { (state : State) (y z : ℕ) → IsSound state → IsToLoad state y → lists (closure_of state.types state.pairs state.instances state.graph y) z ≡ true → IsKept state.graph (held_ids state.instances) z }
    // After the first id each is named in the graph by one that was met before it.
    ensures held { (state : State) (y : ℕ) (xs : List ℕ) → IsSound state → IsToLoad state y
        → ((z : ℕ) → has z xs ≡ true → lists (closure_of state.types state.pairs state.instances state.graph y) z ≡ true)
        → AreNamedInTurn state.graph (y ∷ []) xs → may_hold_all state.graph (held_ids state.instances) (y ∷ xs) ≡ true }
    // What an object names along `ref` and `refs` once it was converted, its entity names too.
    ensures names { (state : State) (x : ℕ) (entity : Entity) (y : ℕ) → IsSound state → entity_of state.graph x ≡ Some entity
        → has y (eager_refs (conversion state.types state.pairs entity)) ≡ true → (y ≡ 0) ⊎ (has_edge state.graph x y ≡ true) }
{}

/// What a storage counts as kept is what `collect` answers, and `export` looks only at what is kept.
pub fn counts_are_exact()
    ensures collect { (graph : Graph) (held kept : List ℕ) → rises (ids graph) ≡ true → rises kept ≡ true → ((x : ℕ) → (has x kept ≡ true) ↔ IsKept graph held x)
        → length (reached_records graph (1 ∷ held)) ≡ length kept }
    ensures export { (graph : Graph) (held : List ℕ) (x : ℕ) → lists (reached_records graph (1 ∷ [])) x ≡ true → IsKept graph held x }
{}

/// The held ids are those of the saved objects: what is stored or loaded is held too, and what is forgotten no longer.
pub fn held_ids_follow()
    ensures exact { (instances : Instances) (y : ℕ) → rises (map (λ (h : Held). h.id) instances) ≡ true
        → (has y (held_ids instances) ≡ true) ↔ ((i : Instance) × (instance_at instances y ≡ Some i) × (i.saved ≡ true)) }
    ensures stored { (instances : Instances) (gathered : List ℕ) → rises (map (λ (h : Held). h.id) instances) ≡ true
        → (y : ℕ) → has y (held_ids (saved_instances instances gathered)) ≡ (has y (ids (gathered_records instances gathered)) || has y (held_ids instances)) }
    ensures loaded { (types : List TypeDesc) (pairs : List Pair) (graph : Graph) (old : Instances) (id : ℕ) (new : Instances) → rises (map (λ (h : Held). h.id) old) ≡ true → load types pairs graph old id ≡ Ok new
        → (y : ℕ) → has y (held_ids new) ≡ (has y (ids (closure_of types pairs old graph id)) || has y (held_ids old)) }
    ensures forgotten { (instances : Instances) (bound : List ℕ) → rises (map (λ (h : Held). h.id) instances) ≡ true
        → (y : ℕ) → has y (held_ids (kept_instances instances bound)) ≡ (has y (held_ids instances) && has_instance (kept_instances instances bound) y) }
    ensures others { (most : ℕ) (state : State) (command : Command) → IsSound state → (needs_start command ≡ true → state.started ≡ true) → changes_held command ≡ false
        → (y : ℕ) → has y (held_ids (command_turn most state command).state.instances) ≡ has y (held_ids state.instances) }
{}

/// No line makes the next id fall.
pub fn next_ids_never_fall()
    ensures command { (most : ℕ) (state : State) (command : Command) → IsSound state → (needs_start command ≡ true → state.started ≡ true) → state.next_id ≤ (command_turn most state command).state.next_id }
    ensures turn { (most : ℕ) (state : State) (text : List ℕ) → IsSound state → state.next_id ≤ (turn most state text).state.next_id }
{}

/// Whether an ask is allowed depends on which ids are held, and not on their order.
pub fn asks_see_sets()
    ensures allowed { (is_next_type : List (List ℕ) → List ℕ → Bool) (s t : Storage) (ask : AskModel) → IsSame s t → MayAsk is_next_type s ask → MayAsk is_next_type t ask }
{}
