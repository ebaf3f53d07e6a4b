//! Laws of the definitions that the contracts cite.
ghost use Rattle.std.specs.Prelude.{◌≡◌, ℕ, List, ◌∷◌, ◌++◌};
ghost use Rattle.desk_script.specs.declared.line_request.LineRequest.{LineRequest};
ghost use Rattle.desk_script.specs.Asked.{asked_by, asked_on, names_after};
ghost use Rattle.desk_script.specs.OpenTables.{open_tables};
ghost use Rattle.desk_script.specs.Replay.{Replays};
ghost use Rattle.desk_script.specs.OnlyReplay.{IsOnlyReplay};

/// The lines of a script have no two answers without a want of memory.
pub fn answers_are_determined()
    ensures { (lines answers : List (List ℕ)) → Replays lines answers → IsOnlyReplay lines answers }
{}

/// The open tables are those that the lines say to open, each once, in this order, the first 64 of them.
#[tactic(auto, using(crate::proofs::OpenedTables::names_after_are))]
pub fn open_tables_are_the_first_said()
    ensures { (lines : List (List ℕ)) → names_after lines ≡ open_tables lines }
{}

/// A line asks what it says of the tables that the lines before it have opened, whatever comes after it.
pub fn each_line_asks_of_the_tables_before_it()
    ensures { (front rest : List (List ℕ)) (line : List ℕ) → (others : List LineRequest)
        × (asked_on (front ++ line ∷ rest) ≡ asked_on front ++ asked_by (open_tables front) line ∷ others) }
{}
