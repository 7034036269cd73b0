//! What the program is asked to do.
use walk_meaning::Kind;

/// What is written of a run over the mapping cache.
#[derive(Clone, Copy, Debug)]
pub enum RunCommand {
    /// Its records, but for accesses and instructions, and the last state.
    Run,
    /// The same with all records.
    Trace,
    /// What `Run` writes, and then the mappings.
    Tables,
    /// What an access of a process comes to at the end.
    Walk {
        process: u8,
        kind: Kind,
        address: u32,
    },
}

/// What the program is asked to do.
#[derive(Clone, Copy, Debug)]
pub enum Command {
    /// Write how the program is used.
    Help,
    /// Read the input, and count its events.
    Check,
    /// Run the input over the mapping cache, and write what this says of the run.
    Schedule(RunCommand),
    /// Write the generated text of a number, or with `summary` run it and write one line.
    Make { number: u32, summary: bool },
    /// Read a listing, and write its image.
    Pack,
    /// Read an image, and write its listing as text of version 2 without names.
    Unpack,
    /// Read a listing and its schedule, and write both as text of version 2 without names.
    Migrate,
    /// Read a listing and the lines of a cut, and write whether the cut holds.
    Confine,
    /// Run the input over leaf tables that are shared between spaces, write the records that `Run` writes, and then how many
    /// frames are in use.
    Share,
    /// Run the input without a record, undo so many of its last events, and write the state before them.
    Back { number: u32 },
}

/// The forms of one word, each with what it asks for.
pub(crate) static BARE_COMMANDS: [(&str, Command); 9] = [
    ("check", Command::Check),
    ("run", Command::Schedule(RunCommand::Run)),
    ("trace", Command::Schedule(RunCommand::Trace)),
    ("tables", Command::Schedule(RunCommand::Tables)),
    ("pack", Command::Pack),
    ("unpack", Command::Unpack),
    ("migrate", Command::Migrate),
    ("confine", Command::Confine),
    ("share", Command::Share),
];
