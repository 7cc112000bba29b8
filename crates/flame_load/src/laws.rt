//! Laws of loading. Each function is its contract: it computes nothing.

ghost use Rattle.flame_load.specs.LoadLaws.{ThereIsAReader, TextsAreReadOnce, LoadedAreAccepted, LoadedWriteInts, AcceptedAreLoaded, AllInputsAreRead, InputsAreAFront, OnlyInputsCount, PlainFilesAreRead};

use flame_lex::laws::{one_reading, some_reading};
use flame_nest::laws::{flat_models, formed_files, plain_files};
use flame_parse::laws::{one_unit, read_files};
use flame_spec_laws::{start_states_of_types, trees_are_seen, trees_are_told};
use flame_xmml::laws::{plain_in_wide, well_formed_wide};

/// A text is read as one thing: the C functions that it spells, or one fault.
pub fn one_text_reading()
    ensures { TextsAreReadOnce }
{
    one_reading();
    one_unit();
    trees_are_told();
}

/// There is a reader that gives for each text what the text is read as.
pub fn some_text_reader()
    ensures { ThereIsAReader }
{
    some_reading();
    read_files();
    trees_are_seen();
}

/// The source that files stand for is accepted, and where the source of files is accepted they stand for it.
pub fn accepted_sources()
    ensures loaded { LoadedAreAccepted }
    ensures accepted { AcceptedAreLoaded }
{
    well_formed_wide();
    formed_files();
    start_states_of_types();
}

/// Each number that the function files of a source write is one of `int`, where files stand for the source: a number of C
/// itself, and one that a `#define` line gives a word.
pub fn written_numbers()
    ensures { LoadedWriteInts }
{}

/// Where files stand for a source, the inputs that are read are its model files, and then its function files.
pub fn all_inputs()
    ensures { AllInputsAreRead }
{}

/// Where the model files are read, the inputs that are read are a front of the model files and the function files of their flat
/// model, whatever is refused.
pub fn front_inputs()
    ensures { InputsAreAFront }
{}

/// Files that agree on all inputs that are read are read alike, and stand for the same or are refused alike.
pub fn only_inputs()
    ensures { OnlyInputsCount }
{}

/// A model file without data types and nested files, whose variables are of `int`, stands for its model as it is.
pub fn plain_model_files()
    ensures { PlainFilesAreRead }
{
    plain_in_wide();
    well_formed_wide();
    plain_files();
    flat_models();
}
