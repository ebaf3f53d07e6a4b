//! The texts of what a player needs.
ghost use Rattle.std.specs.Prelude.{◌≡◌, ◌+◌, ◌*◌, ◌≤◌, ◌++◌, length};
ghost use Rattle.std.specs.List.{flat_map};
ghost use Rattle.arrayvec.specs.ArrayString.{array_string_len};
ghost use Rattle.riichi_score.specs.Text.{payment_text};
ghost use Rattle.riichi_game_text.specs.Names.{names_in};
ghost use Rattle.riichi_need_text.specs.NeedTexts as spec;

use arrayvec::ArrayString;
use riichi_game::LimitHand;
use riichi_game_text::{MOST_NAME, Names};
use riichi_hand::{By, Rules};
use riichi_need::{ALL_FU, Need, Needs, Question, Row, Way, limit_of, pays_so};
use riichi_score::{Payment, paid_for};
use riichi_table::Player;
use riichi_text::{MOST_U8, MOST_U32, push_number};

/// The bytes of the longest line that says what is asked.
const MOST_ASKED: usize = "need ".len() + MOST_NAME + " place ".len() + MOST_U8;

const MOST_PAYMENT: usize = MOST_U32 + "/".len() + MOST_U32;

const MOST_COUNTED_HAND: usize = " ".len() + MOST_U8 + ".".len() + MOST_U8;

const MOST_COUNTED_HANDS: usize = 14 * MOST_COUNTED_HAND;

const MOST_LIMIT_HAND: usize = " sanbaiman".len();

const MOST_PRICE: usize = MOST_PAYMENT + MOST_LIMIT_HAND + 4 * MOST_COUNTED_HANDS;

/// The bytes of the longest line of what is needed.
const MOST_NEED: usize = "from ".len()
    + MOST_NAME
    + " strictly ".len()
    + MOST_PRICE
    + " tie ".len()
    + MOST_PRICE;

/// The room of what a player needs: what is asked, and a line for each way of winning.
pub const NEEDS_ROOM: usize = MOST_ASKED + 5 * ("\n".len() + MOST_NEED) + "\n".len();

/// What a player needs, as text.
pub type NeedsText = ArrayString<NEEDS_ROOM>;

/// What a player needs: what is asked, and below it a line for each way of winning. Payments are those of the table, without
/// counters.
pub fn needs_text(names: &Names, question: &Question, needs: &Needs) -> NeedsText
    ensures { result.bytes ≡ spec.needs_text (names_in names.now) question.now needs.now }
{
    let mut text = NeedsText::new();
    push_asked(&mut text, names, question);
    push_ron(
        &mut text,
        names,
        question,
        Player::First,
        &needs.by_ron.first,
    );
    push_ron(
        &mut text,
        names,
        question,
        Player::Second,
        &needs.by_ron.second,
    );
    push_ron(
        &mut text,
        names,
        question,
        Player::Third,
        &needs.by_ron.third,
    );
    push_ron(
        &mut text,
        names,
        question,
        Player::Fourth,
        &needs.by_ron.fourth,
    );
    text.push_str("\n");
    push_need(&mut text, names, question, Way::Tsumo, &needs.by_tsumo);
    text.push_str("\n");
    text
}

/// Writes what is needed off another player's discard, behind the line before it.
fn push_ron(
    text: &mut NeedsText,
    names: &Names,
    question: &Question,
    from: Player,
    need: &Option<Need>,
)
    requires { array_string_len text.old + 1 + MOST_NEED ≤ NEEDS_ROOM }
    ensures bytes { text.new.bytes
        ≡ text.old.bytes ++ spec.ron_text (names_in names.now) question.now from need.now }
    ensures len { array_string_len text.new ≤ array_string_len text.old + 1 + MOST_NEED }
{
    if let Some(need) = need {
        text.push_str("\n");
        push_need(text, names, question, Way::Ron { from }, need);
    }
}

/// Writes who asks for which place, without the line's end.
fn push_asked(text: &mut NeedsText, names: &Names, question: &Question)
    requires { array_string_len text.old + MOST_ASKED ≤ NEEDS_ROOM }
    ensures bytes { text.new.bytes
        ≡ text.old.bytes ++ spec.asked_text (names_in names.now) question.now }
    ensures len { array_string_len text.new ≤ array_string_len text.old + MOST_ASKED }
{
    text.push_str("need ");
    text.push_str(names.get(question.player).as_str());
    text.push_str(" place ");
    push_number(text, question.place);
}

/// Writes what is needed by one way of winning, without the line's end.
fn push_need(text: &mut NeedsText, names: &Names, question: &Question, way: Way, need: &Need)
    requires { array_string_len text.old + MOST_NEED ≤ NEEDS_ROOM }
    ensures bytes { text.new.bytes
        ≡ text.old.bytes ++ spec.need_text (names_in names.now) question.now way need.now }
    ensures len { array_string_len text.new ≤ array_string_len text.old + MOST_NEED }
{
    push_way(text, names, way);
    text.push_str(" strictly ");
    push_price(text, question, way, &need.strictly);
    text.push_str(" tie ");
    push_price(text, question, way, &need.with_tie);
}

fn push_way(text: &mut NeedsText, names: &Names, way: Way)
    requires { array_string_len text.old + 5 + MOST_NAME ≤ NEEDS_ROOM }
    ensures bytes { text.new.bytes ≡ text.old.bytes ++ spec.way_text (names_in names.now) way }
    ensures len { array_string_len text.new ≤ array_string_len text.old + 5 + MOST_NAME }
{
    match way {
        Way::Ron { from } => push_from(text, names, from),
        Way::Tsumo => text.push_str("tsumo"),
    }
}

fn push_from(text: &mut NeedsText, names: &Names, from: Player)
    requires { array_string_len text.old + 5 + MOST_NAME ≤ NEEDS_ROOM }
    ensures bytes { text.new.bytes
        ≡ text.old.bytes ++ spec.way_text (names_in names.now) (Way.Ron from) }
    ensures len { array_string_len text.new ≤ array_string_len text.old + 5 + MOST_NAME }
{
    text.push_str("from ");
    text.push_str(names.get(from).as_str());
}

/// Writes a payment and the hands that pay so.
fn push_price(text: &mut NeedsText, question: &Question, way: Way, row: &Option<Row>)
    requires { array_string_len text.old + MOST_PRICE ≤ NEEDS_ROOM }
    ensures bytes { text.new.bytes ≡ text.old.bytes ++ spec.price_text question.now way row.now }
    ensures len { array_string_len text.new ≤ array_string_len text.old + MOST_PRICE }
{
    match row {
        None => text.push_str("none"),
        Some(row) => push_base_price(text, question, way, row.base),
    }
}

fn push_base_price(text: &mut NeedsText, question: &Question, way: Way, base: u32)
    requires room { array_string_len text.old + MOST_PRICE ≤ NEEDS_ROOM }
    ensures bytes { text.new.bytes ≡ text.old.bytes ++ spec.base_price_text question.now way base }
    ensures len { array_string_len text.new ≤ array_string_len text.old + MOST_PRICE }
{
    let dealer = question.player.is(question.state.dealer);
    push_payment(text, &paid_for(base.min(8000), way.by(), dealer, 0));
    push_limit_hand(text, limit_of(base));
    let rules = question.rules.hand;
    push_counted_hands(text, rules, way.by(), base, 1);
    push_counted_hands(text, rules, way.by(), base, 2);
    push_counted_hands(text, rules, way.by(), base, 3);
    push_counted_hands(text, rules, way.by(), base, 4);
}

/// Writes a payment as the answer to a win has it.
fn push_payment(text: &mut NeedsText, payment: &Payment)
    requires { array_string_len text.old + MOST_PAYMENT ≤ NEEDS_ROOM }
    ensures bytes { text.new.bytes ≡ text.old.bytes ++ payment_text payment.now }
    ensures len { array_string_len text.new ≤ array_string_len text.old + MOST_PAYMENT }
{
    match payment {
        Payment::Ron { points } => push_number(text, *points),
        Payment::Tsumo { other, dealer } => {
            push_number(text, *other);
            text.push_str("/");
            push_number(text, *dealer);
        }
        Payment::DealerTsumo { each } => {
            push_number(text, *each);
            text.push_str(" all");
        }
    }
}

/// Writes the name of a limit hand behind a space, where there is one.
fn push_limit_hand(text: &mut NeedsText, hand: Option<LimitHand>)
    requires { array_string_len text.old + MOST_LIMIT_HAND ≤ NEEDS_ROOM }
    ensures bytes { text.new.bytes ≡ text.old.bytes ++ spec.limit_hand_text hand }
    ensures len { array_string_len text.new ≤ array_string_len text.old + MOST_LIMIT_HAND }
{
    match hand {
        None => {}
        Some(LimitHand::Mangan) => text.push_str(" mangan"),
        Some(LimitHand::Haneman) => text.push_str(" haneman"),
        Some(LimitHand::Baiman) => text.push_str(" baiman"),
        Some(LimitHand::Sanbaiman) => text.push_str(" sanbaiman"),
        Some(LimitHand::Yakuman { .. }) => text.push_str(" yakuman"),
    }
}

/// Writes each hand of so many han that has these base points, by its han and fu.
fn push_counted_hands(text: &mut NeedsText, rules: Rules, by: By, base: u32, han: u8)
    requires { array_string_len text.old + MOST_COUNTED_HANDS ≤ NEEDS_ROOM }
    ensures bytes { text.new.bytes ≡ text.old.bytes ++ spec.counted_hands_text rules by base han }
    ensures len { array_string_len text.new ≤ array_string_len text.old + MOST_COUNTED_HANDS }
{
    push_counted_hands_of(text, rules, by, base, han, &ALL_FU);
}

/// The same of these fu.
fn push_counted_hands_of(
    text: &mut NeedsText,
    rules: Rules,
    by: By,
    base: u32,
    han: u8,
    all_fu: &[u8],
)
    requires { array_string_len text.old + length all_fu.now * MOST_COUNTED_HAND ≤ NEEDS_ROOM }
    ensures bytes { text.new.bytes
        ≡ text.old.bytes ++ flat_map (spec.counted_hand_text rules by base han) all_fu.now }
    ensures len { array_string_len text.new
        ≤ array_string_len text.old + length all_fu.now * MOST_COUNTED_HAND }
{
    for fu in all_fu {
        push_if_paid(text, rules, by, base, han, *fu);
    }
}

fn push_if_paid(text: &mut NeedsText, rules: Rules, by: By, base: u32, han: u8, fu: u8)
    requires { array_string_len text.old + MOST_COUNTED_HAND ≤ NEEDS_ROOM }
    ensures bytes { text.new.bytes ≡ text.old.bytes ++ spec.counted_hand_text rules by base han fu }
    ensures len { array_string_len text.new ≤ array_string_len text.old + MOST_COUNTED_HAND }
{
    if pays_so(rules, by, base, han, fu) {
        text.push_str(" ");
        push_number(text, han);
        text.push_str(".");
        push_number(text, fu);
    }
}
