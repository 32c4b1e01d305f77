//! What the routines of objects do.
ghost use Rattle.std.specs.Prelude.{List, Option, IsTrue, IfOk};
ghost use Rattle.tree_specs.specs.declared.moment.Moment.{Moment as MomentData};
ghost use Rattle.tree_specs.specs.declared.question.Act.{Act as ActData};
ghost use Rattle.tree_specs.specs.Words.Ranges.{is_sound_act};
ghost use Rattle.outside.specs.Runs.{answer_acts};
ghost use Rattle.outside.specs.Tellings.{Tells};

use tree_specs::{Act, Memory, Moment};

/// Destructors, handlers and callbacks, which are asked at each moment of their run what they do.
pub trait Routines {
    /// The moments with their acts so far, where they are told. Of a moment at which no memory was found nothing is
    /// told.
    ghost told: { Self → Option (List (MomentData × ActData)) };

    /// What the routine of this moment does: a call whose numbers are in range, or a return.
    ///
    /// # Errors
    ///
    /// `Memory` where memory for the act isn't found. Nothing is told then.
    fn answer(&mut self, m: &Moment) -> Result<Act, Memory>
        ensures sound { IfOk result (λ act. IsTrue (is_sound_act act)) }
        ensures told { Tells (told self.old) (told self.new) (answer_acts m.entry.now result) };
}
