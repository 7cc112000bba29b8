//! What the words order.

use flame_popfile::Format;

/// What is written and read.
#[derive(Clone, Copy)]
pub(crate) struct Order {
    /// How many agents.
    pub(crate) agents: u32,
    /// In which version.
    pub(crate) format: Format,
    /// The last step.
    pub(crate) until: Until,
    /// Whether times are printed.
    pub(crate) timed: bool,
}

/// The last step that is made.
#[derive(Clone, Copy, PartialEq, Eq)]
pub(crate) enum Until {
    /// The text of the population.
    Text,
    /// The JSON value of the text, by serde_json alone.
    Value,
    /// The population of the value.
    Start,
}

/// The order where there are no words.
pub(crate) const SMALL: Order = Order {
    agents: 1000,
    format: Format::One,
    until: Until::Start,
    timed: false,
};

fn format_of(word: &str) -> Option<Format> {
    match word {
        "1" => Some(Format::One),
        "2" => Some(Format::Two),
        _ => None,
    }
}

fn until_of(word: &str) -> Option<Until> {
    match word {
        "text" => Some(Until::Text),
        "value" => Some(Until::Value),
        "start" => Some(Until::Start),
        _ => None,
    }
}

/// The order of these words; none where one of them is none of those that are known.
pub(crate) fn order_of(agents: &str, format: &str, until: &str) -> Option<Order> {
    let agents = agents.parse::<u32>().ok()?;
    Some(Order {
        agents,
        format: format_of(format)?,
        until: until_of(until)?,
        timed: true,
    })
}
