// The receiver of a run's replies.
ghost use Rattle.std.specs.Prelude.{Bool};
ghost use Rattle.machine.specs.declared.act.Reply.{Reply};

use machine::Reply;

/// Receives the replies of a run, each one before the next step is made. For example, a program prints them, or a list
/// keeps them.
pub trait Listener {
    /// How a reply changes the listener, together with what `hear` returns for it.
    ghost hears: { Self → Reply → Bool → Self → Type 0 };

    /// Receives a reply. Returns whether the run is to go on.
    fn hear(&mut self, reply: &Reply) -> bool
        ensures { hears self.old reply.now result self.new };
}
