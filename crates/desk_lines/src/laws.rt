//! Laws over the kinds of answers.
ghost use Rattle.std.specs.Prelude.{◌≡◌, ◌++◌, ℕ, List, Option};
ghost use Rattle.riichi_hand.specs.Rules.{Rules};
ghost use Rattle.desk_lines.specs.Filling.{IsCutBehindLine, SetsNone, replies_by};
ghost use Rattle.desk_lines.specs.Explained.{IsExplained, without_indented};
ghost use Rattle.desk_lines.specs.LineAnswer.{IsBy};
ghost use Rattle.desk_lines.specs.LineAnswers.{answers_by, answers_to};
ghost use Rattle.desk_lines.specs.Lines.{lines};
ghost use Rattle.desk_lines.specs.Records.{AnswerRecords};
ghost use Rattle.desk_lines.specs.Telling.{text_of};
ghost use Rattle.riichi_explain.specs.declared.explaining.Shown.{Shown};

/// Where the answers of a kind are those of a function, as in words and as JSON, no others are told. Those with reasons are the
/// plain ones, without the lines that begin with two spaces.
#[tactic(auto, using(crate::proofs::AnswerLemmas::answers_told, crate::proofs::ExplainedLemmas::explained_answers))]
pub fn kinds_of_answers_agree()
    ensures by_a_function { (answer : Rules → List ℕ → Option (List ℕ)) (rules : Rules)
        → (lines told : List (List ℕ)) → AnswerRecords (IsBy answer) rules lines told
        → told ≡ answers_by answer rules lines }
    ensures explained { (shown : Shown) (rules : Rules) (lines told : List (List ℕ))
        → AnswerRecords (IsExplained shown) rules lines told
        → without_indented (text_of told) ≡ answers_to rules lines }
{}

/// A text may be answered piece by piece, each cut behind a line: the answers to the pieces are those to the whole. Where the
/// first line sets no profile these are the answers to a stream.
#[tactic(auto, using(crate::proofs::FillingLemmas::pieces, crate::proofs::FillingLemmas::as_whole))]
pub fn pieces_are_answered_as_the_whole()
    ensures pieces { (answer : List ℕ → Option (List ℕ)) (text front rest : List ℕ)
        → IsCutBehindLine text front rest
        → replies_by answer text ≡ replies_by answer front ++ replies_by answer rest }
    ensures streams { (answer : Rules → List ℕ → Option (List ℕ)) (rules : Rules) (text : List ℕ)
        → SetsNone text
        → text_of (answers_by answer rules (lines text)) ≡ replies_by (answer rules) text }
{}
