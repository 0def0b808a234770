//! The steps of a run.

/// What happens at a member.
#[derive(Clone, Copy)]
pub enum Step<'a> {
    /// It is asked the command of the entry with these digits.
    Ask(usize, &'a str),
    /// Its clock ticks.
    Tick(usize),
    /// Its clock ticks, and it stops as soon as the change is recorded: what it sends is lost, and it starts anew.
    Stop(usize),
    /// The addressee receives the message of this number.
    Deliver(usize),
}

impl<'a> Step<'a> {
    /// The step that an argument spells, if it is one.
    pub fn read(word: &'a str) -> Option<Step<'a>> {
        let (form, rest) = word.split_once(':').unwrap_or(("", word));
        let (number, digits) = rest.split_once(':').unwrap_or((rest, ""));
        let Ok(number) = number.parse::<usize>() else {
            return None;
        };
        match form {
            "" => Some(Step::Deliver(number)),
            "ask" => Some(Step::Ask(number, digits)),
            "tick" => Some(Step::Tick(number)),
            "stop" => Some(Step::Stop(number)),
            _ => None,
        }
    }
}
