//! By what the discards of a shape are put in order.
ghost use Rattle.std.specs.Prelude.{◌≡◌};

/// By what the best discards of fourteen tiles are put in order.
#[derive(Clone, Copy, Debug, PartialEq, Eq)]
pub enum Order {
    /// By the live copies that they leave, as in a shape's answer.
    Live,
    /// By what the next two steps leave; among equals by the live copies.
    Second,
    /// By the live copies after which the wait is good; among equals by the live copies.
    Good,
}

impl Order {
    ghost use Rattle.riichi_study.specs.Prospects.{order_word};
    ghost use Rattle.riichi_study.specs.Values.{order_of};

    /// Its word, as a line says it.
    pub fn word(self) -> &'static str
        ensures { result.now ≡ order_word self }
    {
        match self {
            Order::Live => "live",
            Order::Second => "second",
            Order::Good => "good",
        }
    }

    pub(crate) fn read(value: &[u8]) -> Option<Order>
        ensures { result ≡ order_of value.now }
    {
        match value {
            b"live" => Some(Order::Live),
            b"second" => Some(Order::Second),
            b"good" => Some(Order::Good),
            _ => None,
        }
    }
}
