ghost use Rattle.std.specs.Prelude.{◌≡◌, ◌≢◌, ◌<◌, ◌≤◌, ◌+◌, ◌*◌, ◌^◌, ◌++◌, [], ◌∷◌, ℕ, List, Some, None, true, length, slice_get};
ghost use Rattle.graph_model.specs.Ids.{has};
ghost use Rattle.graph_model.specs.Graph.{Graph, entity_of, lists};
ghost use Rattle.graph_model.specs.Stores.{may_hold};
ghost use Rattle.core_steps.specs.Core.{Book, Core, Hand, Phase, Sweeping, channel_at, graph, held, pins_of};
ghost use Rattle.core_steps.specs.Events.{BeginCycle, Event, Step, is_quiet, is_worker};
ghost use Rattle.core_steps.specs.Rows.{Part, part_step};
ghost use Rattle.core_steps.specs.Steps.{IsStartGraph, StepMade, book_after, changed, part_at, permits, pins_then, place_in, place_of, run, start, step, steps_by, with_actor};
ghost use Rattle.core_steps.specs.Good.{IsGood, IsLiveId, channel_of};
ghost use Rattle.core_steps.specs.Settled.{HoldsReached, IsSettledFrom, IsSweptAbove, are_quiet};

/// Each core of a run from a start is good: live, and tricolour while its cycle is open and closed after it.
/// So it is from any good core, and one more actor changes nothing in that.
pub fn cores_stay_good()
    ensures start { (g : Graph) (next_id m n actors format : ℕ) → 0 < n → IsStartGraph g next_id → IsGood (start g next_id m n actors format) }
    ensures step { (c : Core) (s : Step) (d : Core) → IsGood c → step c s ≡ Some d → IsGood d }
    ensures run { (c : Core) (ss : List Step) (d : Core) → IsGood c → run c ss ≡ Some d → IsGood d }
    ensures actor { (c : Core) → IsGood c → IsGood (with_actor c) }
{}

/// A good core without an open store is settled from its own cycle, and a quiet step keeps a good core settled.
pub fn cores_stay_settled()
    ensures own { (c : Core) → IsGood c → c.book.opened ≡ None → IsSettledFrom c.monitor.cycle c }
    ensures step { (b : ℕ) (c : Core) (s : Step) (d : Core) → is_quiet s.event ≡ true → IsGood c → IsSettledFrom b c → step c s ≡ Some d → IsSettledFrom b d }
    ensures actor { (b : ℕ) (c : Core) → IsSettledFrom b c → IsSettledFrom b (with_actor c) }
{}

/// Once a quiet cycle has swept all channels the tables have exactly what is reached, as long as no store and no change of a pin follows.
pub fn quiet_cycles_leave_the_reached()
    // A cycle begins in a good core, and no store and no change of a pin comes before all channels are done with it.
    ensures cycle { (c : Core) (s : Step) (ss : List Step) (d : Core) → IsGood c → s.event ≡ BeginCycle → are_quiet ss ≡ true → run c (s ∷ ss) ≡ Some d → IsSweptAbove c.monitor.cycle d → HoldsReached d }
    ensures settled { (b : ℕ) (c : Core) → IsGood c → IsSettledFrom b c → IsSweptAbove b c → HoldsReached c }
    ensures stays { (c : Core) (ss : List Step) (d : Core) → IsGood c → HoldsReached c → are_quiet ss ≡ true → run c ss ≡ Some d → HoldsReached d }
{}

/// An allowed step changes one shard, one hand and the book, as its event says.
pub fn steps_change_one_shard()
    ensures made { (c : Core) (s : Step) (d : Core) → step c s ≡ Some d → StepMade c s d }
    ensures makes { (c : Core) (a k : ℕ) (e : Event) (q new_q : Part) (h new_h : Hand) → part_at c k ≡ Some q → slice_get c.hands a ≡ Some h → permits c.book (held c.channels) a e ≡ true → part_step (place_of c k) q h e ≡ Some (new_q, new_h) → step c record { actor = a; shard = k; event = e } ≡ Some (changed c a k new_q new_h e) }
    ensures shards { (c : Core) (s : Step) (d : Core) → step c s ≡ Some d → (k : ℕ) → k ≢ s.shard → part_at d k ≡ part_at c k }
    ensures hands { (c : Core) (s : Step) (d : Core) → step c s ≡ Some d → (a : ℕ) → a ≢ s.actor → slice_get d.hands a ≡ slice_get c.hands a }
    ensures lengths { (c : Core) (s : Step) (d : Core) → step c s ≡ Some d → (length d.channels ≡ length c.channels) × (length d.hands ≡ length c.hands) }
    ensures book { (c : Core) (s : Step) (d : Core) → step c s ≡ Some d → d.book ≡ book_after c.book s.event }
{}

/// What a worker's event asks of the rest of the core, and what it leaves alone.
pub fn workers_leave_stores()
    // It is permitted or not whoever makes it, and whatever the book and the held ids are.
    ensures permits { (b c : Book) (xs ys : List ℕ) (a d : ℕ) (e : Event) → is_worker e ≡ true → permits b xs a e ≡ permits c ys d e }
    ensures place { (n k : ℕ) (b c : Book) (q : Part) (h : Hand) (e : Event) → is_worker e ≡ true → part_step (place_in n b k) q h e ≡ part_step (place_in n c k) q h e }
    ensures book { (b : Book) (e : Event) → is_worker e ≡ true → book_after b e ≡ b }
    ensures pins { (c : Core) (s : Step) (d : Core) → is_worker s.event ≡ true → step c s ≡ Some d → pins_of d.channels ≡ pins_of c.channels }
    ensures quiet { (e : Event) → is_worker e ≡ true → is_quiet e ≡ true }
{}

/// What an actor changes that makes no step, and what one more step makes of a run.
pub fn runs_go_on()
    ensures step { (c : Core) (ss : List Step) (d : Core) (s : Step) (e : Core) → run c ss ≡ Some d → step d s ≡ Some e → run c (ss ++ s ∷ []) ≡ Some e }
    ensures actor { (c : Core) (ss : List Step) (d : Core) → run c ss ≡ Some d → run (with_actor c) ss ≡ Some (with_actor d) }
    ensures unused { (c : Core) (ss : List Step) (d : Core) (a : ℕ) → run c ss ≡ Some d → length d.hands ≤ a → steps_by a ss ≡ [] }
{}

/// What can be read off a good core.
pub fn good_cores_tell()
    ensures pending { (c : Core) → IsGood c → c.monitor.pending ≤ length c.channels * 2 ^ 48 + length c.hands * 2 ^ 33 }
    // While a channel sweeps, its pins are marked, and so is what may be pinned there.
    ensures pinned { (c : Core) (k b x : ℕ) (left : List ℕ) → IsGood c → k < length c.channels → (channel_at c.channels k).phase ≡ Sweeping b left → has x (channel_at c.channels k).pins ≡ true → has x (channel_at c.channels k).marked ≡ true }
    ensures may_hold { (c : Core) (k b x : ℕ) (left : List ℕ) → IsGood c → k < length c.channels → (channel_at c.channels k).phase ≡ Sweeping b left → may_hold (graph c.book) (held c.channels) x ≡ true → lists (channel_at c.channels k).table x ≡ true → has x (channel_at c.channels k).marked ≡ true }
    // With no store open the table has the graph's entity of a live id.
    ensures live { (c : Core) (x : ℕ) → IsGood c → c.book.opened ≡ None → IsLiveId c x → lists (graph c.book) x ≡ true → entity_of (channel_of c x).table x ≡ entity_of (graph c.book) x }
{}
