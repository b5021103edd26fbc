// Laws on what lines are answered.
ghost use Rattle.std.specs.Prelude.{◌≡◌, ◌<◌, [], ◌∷◌, ◌++◌, ℕ, List, length};
ghost use Rattle.session_model.specs.Answer.{State, turn};
ghost use Rattle.session_lines.specs.Limits.{most_bytes};
ghost use Rattle.store_run.specs.Acknowledged.{count_stored};

/// Every answer is made of whole lines. One begins with `stored ` exactly where a store was made, and it is the last.
pub fn answers_are_lines()
    ensures ends { (state : State) (line : List ℕ) → (front : List ℕ) × ((turn most_bytes state line).text ≡ front ++ 10 ∷ []) }
    ensures stored { (state : State) (line : List ℕ) → count_stored (turn most_bytes state line).text ≡ length (turn most_bytes state line).stores }

    // A part of an answer that is not all of it says nothing of a store.
    ensures parts { (state : State) (line part rest : List ℕ) → (turn most_bytes state line).text ≡ part ++ rest → 0 < length rest → count_stored part ≡ 0 }
{}
