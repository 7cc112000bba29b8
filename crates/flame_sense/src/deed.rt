//! What call statements do.

ghost use Rattle.std.specs.Prelude.{◌≡◌, IfSome, option_map};
ghost use Rattle.flame_spec.specs.CallFaults.{deed_of};
ghost use Rattle.flame_spec.specs.LookUps.{agent_born};
ghost use Rattle.flame_sense.specs.StandsFor.{agent_of, context_seen};
ghost use Rattle.flame_sense.specs.Acts.{act_seen, act_of, IsNoDeeper};

use crate::found::{Definition, helper_named};
use crate::scene::{Scene, message_where};
use crate::words::{Form, Span, span_where};
use flame_spec::{AgentType, MessageType};

/// What a call statement does.
#[derive(Clone, Copy)]
pub(crate) enum Deed<'a> {
    /// It sets the memory variable that stands here.
    Sets(Span),
    /// It sends a message of this type, with its number.
    Sends(usize, &'a MessageType),
    /// It bears an agent of this type, with its number.
    Bears(usize, &'a AgentType),
    /// It calls this helper.
    Calls(Definition<'a>),
}

/// The first agent type that the word bears, with its number.
fn agent_born<'a>(word: &str, agents: &'a [AgentType]) -> Option<(usize, &'a AgentType)>
    ensures { option_map agent_of result ≡ agent_born agents.now word.now }
{
    for (number, agent) in agents.iter().enumerate() {
        if Form::AddAgent.is_written(word, agent.name.as_str()) {
            return Some((number, agent));
        }
    }
    None
}

impl<'a> Scene<'a, '_> {
    /// What a call statement of the word does, if anything.
    pub(crate) fn deed_of(&self, word: &str) -> Option<Deed<'a>>
        ensures acts { option_map act_seen result ≡ option_map act_of (deed_of (context_seen self.now) word.now) }
        ensures depth { IfSome result (IsNoDeeper self.now.units.now) }
    {
        if let Some(span) = span_where(Form::Set, word, self.memory()) {
            return Some(Deed::Sets(span));
        }
        if let Some((number, message)) = message_where(
            Form::AddMessage,
            word,
            self.model.messages.items(),
        ) {
            return match self.runs {
                Some(_) => Some(Deed::Sends(number, message)),
                None => None,
            };
        }
        if let Some((number, agent)) = agent_born(word, self.model.agents.items()) {
            return match self.runs {
                Some(_) => Some(Deed::Bears(number, agent)),
                None => None,
            };
        }
        match helper_named(self.model, self.units, word) {
            Some(helper) => Some(Deed::Calls(helper)),
            None => None,
        }
    }
}
