//! The draws of a schedule, and the calls that they make.
ghost use Rattle.std.specs.Prelude.{◌≡◌, ◌<◌, ◌≤◌, ◌+◌, ◌%◌};
ghost use Rattle.tree_specs.specs.declared.schedule.Version.TheVariants.{One};
ghost use Rattle.tree_specs.specs.declared.question.Input.TheVariants as inputs;
ghost use Rattle.tree_specs.specs.Texts.Text.{input_text};
ghost use Rattle.tree_specs.specs.Texts.Load.{next_state, drawn, kind, second_draw, third_draw, first_place, call_drawn, after_call};

use crate::line::Line;
use std::marker::Model;

/// Where a schedule stands between two calls. Contracts see the state of its draws, and how many lines with `new` there
/// are.
#[derive(Drop)]
pub(crate) struct Place {
    state: u32,
    made: u32,
}

/// What the draws of a call say.
#[derive(Clone, Copy)]
struct Draws {
    /// Which of eight kinds the call is.
    kind: u32,
    /// The root as 0, or a number that an object may have.
    owner: u32,
    /// A number that an object may have.
    object: u32,
    /// The bytes of an object that is made.
    size: u32,
}

impl Model for Place {
    ghost use Rattle.tree_specs.specs.Texts.Load.{Place as PlaceValue};

    ghost Value = { PlaceValue };

    ghost view = { λ p. record { state = p.state; made = p.made } };
}

/// The state after this one.
fn state_after(state: u32) -> u32
    ensures { result ≡ next_state state }
{
    ((u64::from(state) * 1_103_515_245 + 12_345) % 2_147_483_648) as u32
}

impl Place {
    /// The place before the first call of the schedule that is made from this number.
    pub(crate) fn new(number: u32) -> Place
        ensures { result ≡ first_place number }
    {
        Place {
            state: number % 2_147_483_648,
            made: 0,
        }
    }

    /// Makes the next draw, below 32,768.
    fn draw(&mut self) -> u32
        ensures value { result ≡ drawn (next_state self.old.state) }
        ensures state { self.new.state ≡ next_state self.old.state }
        ensures made { self.new.made ≡ self.old.made }
        ensures small { result < 32768 }
    {
        self.state = state_after(self.state);
        self.state / 65_536
    }

    /// Makes the draws of the next call.
    fn draws(&mut self) -> Draws
        requires { self.old.made < u32.MAX }
        ensures kind { result.kind ≡ kind self.old }
        ensures owner { result.owner ≡ second_draw self.old % (self.old.made + 1) }
        ensures object { result.object ≡ 1 + third_draw self.old % (self.old.made + 1) }
        ensures size { result.size ≡ third_draw self.old % 1000 }
        ensures state { self.new.state ≡ (after_call self.old).state }
        ensures made { self.new.made ≡ self.old.made }
    {
        let among = self.made + 1;
        let kind = self.draw() % 8;
        let owner = self.draw() % among;
        let third = self.draw();
        Draws {
            kind,
            owner,
            object: 1 + third % among,
            size: third % 1000,
        }
    }

    /// Writes the line of the next call.
    pub(crate) fn next_line(&mut self, line: &mut Line)
        requires { self.old.made < u32.MAX }
        ensures line { line.new ≡ input_text One (inputs.Call (call_drawn self.old)) }
        ensures place { self.new ≡ after_call self.old }
        ensures made { self.new.made ≤ self.old.made + 1 }
    {
        let drawn = self.draws();
        match drawn.kind {
            0..=3 => {
                self.made += 1;
                line.write_new(drawn.owner, drawn.size);
            }
            4 => line.write_pair(b"call steal ", drawn.owner, drawn.object),
            5 => line.write_free(drawn.object),
            6 => line.write_pair(b"call reference ", drawn.owner, drawn.object),
            _ => line.write_pair(b"call unlink ", drawn.owner, drawn.object),
        }
    }
}
