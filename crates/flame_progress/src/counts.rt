//! What functions and boards wait for.

ghost use Rattle.std.specs.Prelude.{◌≡◌, false};
ghost use Rattle.flame_pieces.specs.Waiting.{thing_at, with_done};

use flame_pieces::Waits;

/// What functions and boards wait for.
#[derive(Debug, Drop)]
pub struct Counts {
    /// Functions wait for functions to be shut.
    pub functions: Waits,
    /// Functions wait for boards to be frozen.
    pub inputs: Waits,
    /// Boards wait for functions to be shut.
    pub outputs: Waits,
}

impl Counts {
    /// The function of this number is shut, which was not before.
    pub(crate) fn shut(&mut self, function: u32)
        requires functions { (thing_at self.old.functions.things function).done ≡ false }
        requires outputs { (thing_at self.old.outputs.things function).done ≡ false }
        ensures { self.new ≡ record self.old {
          functions = with_done function self.old.functions;
          outputs = with_done function self.old.outputs;
        } }
    {
        self.functions.finish(function);
        self.outputs.finish(function);
    }

    /// The board of this number is frozen, which was not before.
    pub(crate) fn freeze(&mut self, message: u32)
        requires { (thing_at self.old.inputs.things message).done ≡ false }
        ensures { self.new ≡ record self.old { inputs = with_done message self.old.inputs } }
    {
        self.inputs.finish(message);
    }
}
