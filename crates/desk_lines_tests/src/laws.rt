use desk_lines::laws::*;

#[test]
fn states_the_laws(_rt: HostRuntime) {
    kinds_of_answers_agree();
    pieces_are_answered_as_the_whole();
}
