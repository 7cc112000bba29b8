//! What a command line orders.

use flame_rows::Text;

/// The order that a command line gives.
#[derive(Debug, Drop)]
pub enum Order {
    /// Run a model.
    Run(RunOrder),
    /// Check the model of this name.
    Check(Text),
    /// Print the functions of the model of this name in order, and which stands before which.
    Graph(Text),
    /// Print the code of the functions of the model of this name, and of its helpers.
    Code(Text),
    /// Run the model that the program carries.
    Trial(TrialOrder),
    /// Write the population of a model in format 2: the names of the model file, of the population file, and of
    /// the file that is written.
    Migrate(Text, Text, Text),
    /// Run one iteration, and write the history of its schedule.
    Trace(TraceOrder),
    /// Check such a history: the names of the model file, of the population file, and of the file that has it.
    Replay(Text, Text, Text),
}

/// Run a model on a population.
#[derive(Debug, Drop)]
pub struct RunOrder {
    /// The name of the model file.
    pub model: Text,
    /// The name of the population file.
    pub pop: Text,
    /// What the names of the written files begin with.
    pub out: Text,
    /// How many iterations, 0 to 1,000,000.
    pub turns: u32,
    /// The format of the written files, 1 or 2.
    pub format: u32,
    /// How they are run.
    pub how: How,
}

/// Run the model that the program carries on a population that it makes.
#[derive(Debug, Drop)]
pub struct TrialOrder {
    /// What the population is drawn from.
    pub seed: u32,
    /// How many agents it has, 0 to 10,000.
    pub size: u32,
    /// How many iterations, 0 to 20.
    pub turns: u32,
    /// How they are run.
    pub how: How,
}

/// Run one iteration of a model on a population, and write the history of its schedule.
#[derive(Debug, Drop)]
pub struct TraceOrder {
    /// The name of the model file.
    pub model: Text,
    /// The name of the population file.
    pub pop: Text,
    /// The name of the written file.
    pub out: Text,
    /// How many workers, 1 to 64.
    pub workers: u32,
    /// How many turns of loops and calls of helpers each call of a transition function may take, 0 to 1,000,000,000.
    pub fuel: u32,
}

/// How iterations are run. No result depends on it but where a function needs more fuel than it is given.
#[derive(Debug, Drop)]
pub struct How {
    /// How many workers, 1 to 64.
    pub workers: u32,
    /// How many turns of loops and calls of helpers each call of a transition function may take, 0 to 1,000,000,000.
    pub fuel: u32,
    /// How the workers share the work.
    pub way: Way,
    /// By nodes: the name of the variable by which agents are parted; none where they are dealt out in turn.
    pub by: Option<Text>,
}

/// How workers share the work, and what they wait for before they begin a function.
#[derive(Clone, Copy, Debug, PartialEq, Eq)]
pub enum Way {
    /// They wait for the whole layer before.
    Layers,
    /// They wait for what the function itself needs.
    Flow,
    /// Each is a node with a part of the agents of its own; functions run one after another.
    Nodes,
}
