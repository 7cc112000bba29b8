//! Laws of populations and texts. A law is its contract: it computes nothing.

ghost use Rattle.flame_popfile.specs.StartLaws.{ReadPopulationsFit};
ghost use Rattle.flame_popfile.specs.WrittenLaws.{WrittenReadsBack};

/// Where the names of a model have no fault, as in each accepted source, a population of it without faults holds a start
/// of it. Its world is one of the model: a value for each constant, and for each agent type a bag of memories as wide as
/// declared, with all numbers within int. The number of its iteration is 0 at least, and so many iterations may follow it,
/// the last of which has the number 2147483647 at most.
pub fn read_populations_fit()
    ensures { ReadPopulationsFit }
{}

/// What was written reads back, in each version: of an accepted source, the text of an iteration whose number is from 0
/// to 2147483647 is a JSON value, and that value is a population which holds the number and the world.
pub fn written_reads_back()
    ensures { WrittenReadsBack }
{}
