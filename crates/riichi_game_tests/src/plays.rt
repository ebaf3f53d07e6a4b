//! Games that are played line by line, with the answer to each.
use crate::facts::same;
use riichi_game::Progress;
use riichi_game_text::*;
use riichi_hand::Rules;
use riichi_places::final_points;
use riichi_table::Outcome;
use riichi_text::AnswerText;
use std::process::Abort;

/// A game that is being played.
#[derive(Clone, Copy)]
pub(crate) struct Play {
    game: GameLine,
    progress: Progress,
    text: AnswerText,
}

impl Play {
    /// A game that these words begin.
    pub(crate) fn new(rt: &impl Abort, words: &str) -> Play {
        let game = read_game(Rules::One, words.as_bytes()).expect(rt, "a game");
        Play {
            game,
            progress: Progress::first(&game.rules),
            text: AnswerText::new(),
        }
    }

    /// That a line has this answer.
    pub(crate) fn answers(&mut self, rt: &impl Abort, line: &str, answer: &str) {
        self.text.clear();
        let Play { game, progress, .. } = *self;
        match read_entry(&game.names, &progress, &game.rules, line.as_bytes()) {
            Err(fault) => push_refused(&mut self.text, &fault),
            Ok(accepted) => self.accept(&accepted),
        }
        same(rt, self.text.as_str(), answer);
    }

    fn accept(&mut self, accepted: &AcceptedLine) {
        self.text.clear();
        let before = self.progress;
        self.progress = accepted.after;
        match &accepted.outcome {
            Outcome::End => {}
            Outcome::Penalty { player, points } => {
                let name = self.game.names.get(*player);
                push_penalty(&mut self.text, &name, *points);
            }
            _ => push_deal(&mut self.text, &before.state, &self.progress.state.points),
        }
    }

    /// That this is told at the end of the text.
    pub(crate) fn ends(&mut self, rt: &impl Abort, answer: &str) {
        self.text.clear();
        let Progress {
            state,
            is_over,
            penalties,
        } = self.progress;
        if is_over {
            let finals = final_points(&self.game.rules, &state, &penalties);
            push_over(&mut self.text, &self.game.names, state.sticks, &finals);
        } else {
            push_stands(&mut self.text, &state);
        }
        same(rt, self.text.as_str(), answer);
    }
}
