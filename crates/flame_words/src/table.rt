//! The table of commands: how each is spelled, which words it takes in which order, and which options it has. A further
//! command, option or choice is an entry here; whoever reads words reads them by this table alone.

ghost use Rattle.std.specs.Prelude.{◌≡◌, option_map};
ghost use Rattle.std.specs.List.{find, list_any};
ghost use Rattle.std.specs.Str.{bytes_eq};
ghost use Rattle.flame_words.specs.CommandTable.{command_of, spelling, places, options, place_name, place_takes};
ghost use Rattle.flame_words.specs.CommandTable.{flag_name};
ghost use Rattle.flame_words.specs.CommandTable.{flag_takes, default, flag_of, is_among};

/// A command.
#[derive(Clone, Copy, Debug)]
pub(crate) enum Command {
    Run,
    Check,
    Graph,
    Code,
    Trial,
    Migrate,
    Trace,
    Replay,
}

/// A positional word of a command.
#[derive(Clone, Copy, Debug)]
pub(crate) enum Place {
    Model,
    Population,
    Out,
    Turns,
    Seed,
    Size,
    TrialTurns,
    Trace,
}

/// An option of a command.
#[derive(Clone, Copy, Debug)]
pub(crate) enum Flag {
    Workers,
    Fuel,
    Sync,
    By,
    Format,
}

/// What a word is taken as.
#[derive(Clone, Copy, Debug)]
pub(crate) enum Takes {
    /// Any text.
    Text,
    /// A number from the first to the second.
    Number(u32, u32),
    /// One of some words.
    OneOf(Choice),
}

/// The words of which an option takes one.
#[derive(Clone, Copy, Debug)]
pub(crate) enum Choice {
    Ways,
    Formats,
}

/// All commands.
const COMMANDS: [Command; 8] = [
    Command::Run,
    Command::Check,
    Command::Graph,
    Command::Code,
    Command::Trial,
    Command::Migrate,
    Command::Trace,
    Command::Replay,
];

impl Command {
    /// The command that is spelled so.
    pub fn of(word: &str) -> Option<Command>
        ensures { result ≡ command_of word.now }
    {
        COMMANDS.iter().copied().find(|c| c.spelling() == word)
    }

    /// How it is spelled.
    pub fn spelling(self) -> &'static str
        ensures { result.now ≡ spelling self }
    {
        match self {
            Command::Run => "run",
            Command::Check => "check",
            Command::Graph => "graph",
            Command::Code => "code",
            Command::Trial => "trial",
            Command::Migrate => "migrate",
            Command::Trace => "trace",
            Command::Replay => "replay",
        }
    }

    /// Its positional words, in order.
    pub fn places(self) -> &'static [Place]
        ensures { result.now ≡ places self }
    {
        match self {
            Command::Run => &[Place::Model, Place::Population, Place::Out, Place::Turns],
            Command::Check => &[Place::Model],
            Command::Graph => &[Place::Model],
            Command::Code => &[Place::Model],
            Command::Trial => &[Place::Seed, Place::Size, Place::TrialTurns],
            Command::Migrate => &[Place::Model, Place::Population, Place::Out],
            Command::Trace => &[Place::Model, Place::Population, Place::Out],
            Command::Replay => &[Place::Model, Place::Population, Place::Trace],
        }
    }

    /// Its options.
    pub fn options(self) -> &'static [Flag]
        ensures { result.now ≡ options self }
    {
        match self {
            Command::Run => &[
                Flag::Workers,
                Flag::Fuel,
                Flag::Sync,
                Flag::By,
                Flag::Format,
            ],
            Command::Check => &[],
            Command::Graph => &[],
            Command::Code => &[],
            Command::Trial => &[Flag::Workers, Flag::Fuel, Flag::Sync, Flag::By],
            Command::Migrate => &[],
            Command::Trace => &[Flag::Workers, Flag::Fuel],
            Command::Replay => &[],
        }
    }

    /// Its option of this spelling.
    pub fn option(self, word: &str) -> Option<Flag>
        ensures { result ≡ flag_of self word.now }
    {
        self.options().iter().copied().find(|f| f.name() == word)
    }
}

impl Place {
    /// What it is called where it is missing.
    pub fn name(self) -> &'static str
        ensures { result.now ≡ place_name self }
    {
        match self {
            Place::Model => "MODEL",
            Place::Population => "POP",
            Place::Out => "OUT",
            Place::Turns => "N",
            Place::Seed => "SEED",
            Place::Size => "SIZE",
            Place::TrialTurns => "N",
            Place::Trace => "TRACE",
        }
    }

    /// What it is taken as.
    pub fn takes(self) -> Takes
        ensures { result ≡ place_takes self }
    {
        match self {
            Place::Model => Takes::Text,
            Place::Population => Takes::Text,
            Place::Out => Takes::Text,
            Place::Turns => Takes::Number(0, 1_000_000),
            Place::Seed => Takes::Number(0, u32::MAX),
            Place::Size => Takes::Number(0, 10_000),
            Place::TrialTurns => Takes::Number(0, 20),
            Place::Trace => Takes::Text,
        }
    }
}

impl Flag {
    /// How it is spelled.
    pub fn name(self) -> &'static str
        ensures { result.now ≡ flag_name self }
    {
        match self {
            Flag::Workers => "--workers",
            Flag::Fuel => "--fuel",
            Flag::Sync => "--sync",
            Flag::By => "--by",
            Flag::Format => "--format",
        }
    }

    /// What its value is taken as.
    pub fn takes(self) -> Takes
        ensures { result ≡ flag_takes self }
    {
        match self {
            Flag::Workers => Takes::Number(1, 64),
            Flag::Fuel => Takes::Number(0, 1_000_000_000),
            Flag::Sync => Takes::OneOf(Choice::Ways),
            Flag::By => Takes::Text,
            Flag::Format => Takes::OneOf(Choice::Formats),
        }
    }

    /// The value that it has where none is given, if it has one.
    pub fn default(self) -> Option<&'static str>
        ensures { option_map (λ word. word.now) result ≡ default self }
    {
        match self {
            Flag::Workers => Some("1"),
            Flag::Fuel => Some("1000000"),
            Flag::Sync => Some("layers"),
            Flag::By => None,
            Flag::Format => Some("1"),
        }
    }
}

impl Choice {
    /// Whether the word is among its words.
    pub fn has(self, word: &str) -> bool
        ensures { result ≡ is_among self word.now }
    {
        match self {
            Choice::Ways => word == "layers" || word == "flow" || word == "nodes",
            Choice::Formats => word == "1" || word == "2",
        }
    }
}
