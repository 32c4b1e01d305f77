//! Callers: each is asked, does a call, and is told the reply.
ghost use Rattle.std.specs.Prelude.{◌≡◌, ℕ};
ghost use Rattle.tree_specs.specs.declared.frame.CallFrame.TheVariants.{Asking, Telling};
ghost use Rattle.tree_specs.specs.declared.question.Ask.TheVariants.{Routine};
ghost use Rattle.tree_specs.specs.Tree.Pool.{row_of};
ghost use Rattle.tree_specs.specs.Invariants.Sound.{HasHook};
ghost use Rattle.tree_specs.specs.Rules.Answers.{later, hook_moment};
ghost use Rattle.tree_specs.specs.Events.Coming.{handler_moment};
ghost use Rattle.host_core.specs.Callers.{frame_of, after_telling, told_by, remembers};
ghost use Rattle.host_core.specs.Moves.{reply_of, telling, announcing};
ghost use Rattle.tree_specs.specs.Rules.Pieces.{notice_event};

use crate::short_reply::ShortReply;
use object_pool::ObjectPool;
use std::mem;
use tree_specs::{Ask, Event, Handler, Moment, Notice, Obj, Occasion, Reply, What};

/// A caller: it is asked for calls, and is told the reply to each. It is known by its question.
#[derive(Drop)]
pub struct Caller {
    pub ask: Ask,
    pub stage: Stage,
}

/// What comes next of a caller.
#[derive(Drop)]
pub enum Stage {
    /// Its question.
    Asking,
    /// The reply to its call, and then the question.
    Telling(Reply),
    /// The notice, and then the reply.
    Announcing(Notice, Reply),
}

/// The event by which a notice is told.
fn event_of(notice: Notice) -> Event
    ensures { result ≡ notice_event notice }
{
    match notice {
        Notice::Warned(x) => Event::Warned(x),
        Notice::Closed(fd) => Event::Closed(fd),
    }
}

/// Moves a moment on by one call, to which this was the reply.
fn note(moment: &mut Moment, last: Reply)
    ensures { Routine moment.new ≡ later (Routine moment.old) last }
{
    if moment.step < u32::MAX {
        moment.step += 1;
    }
    moment.last = Some(last);
}

/// Makes a routine remember the reply to its last call, and how many calls it has done. Any other caller remembers
/// nothing.
fn remember(ask: &mut Ask, last: ShortReply)
    ensures { ask.new ≡ later ask.old (reply_of last) }
{
    if let Ask::Routine(moment) = ask {
        note(moment, last.reply());
    }
}

/// Makes a routine remember a reply that owns memory, by the copy that was made of it.
fn remember_copy(ask: &mut Ask, copy: Option<Reply>)
    ensures { ask.new ≡ remembers ask.old copy }
{
    if let (Ask::Routine(moment), Some(last)) = (ask, copy) {
        note(moment, last);
    }
}

impl Caller {
    /// The run of this routine for an object, at its first moment.
    pub fn routine(what: What, object: Obj, handler: Handler, occasion: Occasion) -> Caller
        ensures { frame_of result ≡ Asking (Routine (handler_moment what object handler occasion)) }
    {
        let moment = Moment {
            what,
            object,
            routine: handler.routine,
            user: handler.user,
            now: occasion.now,
            flags: occasion.flags,
            step: 0,
            last: None,
        };
        Caller {
            ask: Ask::Routine(moment),
            stage: Stage::Asking,
        }
    }

    /// The run of an object's destructor, at its first moment.
    pub fn destructor(x: Obj, objects: &ObjectPool) -> Caller
        ensures { (h : ℕ) → HasHook (row_of objects.now.pool.rows x) h → frame_of result ≡ Asking (Routine (hook_moment x h)) }
    {
        let routine = objects.row(x).map_or(0, |row| row.hook);
        let handler = Handler {
            routine,
            user: 0,
            context: Obj::first_context(),
        };
        let plainly = Occasion { now: 0, flags: 0 };
        Caller::routine(What::Hook, x, handler, plainly)
    }

    /// Makes the reply to its call come next. A routine remembers it.
    #[inline(always)]
    pub fn reply(&mut self, reply: ShortReply)
        ensures { frame_of self.new ≡ telling self.old.ask reply }
    {
        remember(&mut self.ask, reply);
        self.stage = Stage::Telling(reply.reply());
    }

    /// Makes a notice come next, and then the reply, which a routine remembers.
    pub fn announce(&mut self, notice: Notice, reply: ShortReply)
        ensures { frame_of self.new ≡ announcing self.old.ask notice reply }
    {
        remember(&mut self.ask, reply);
        self.stage = Stage::Announcing(notice, reply.reply());
    }

    /// A caller whose turn is over, or that the outside has answered, with this reply.
    #[inline(always)]
    pub fn after(ask: Ask, reply: ShortReply) -> Caller
        ensures { frame_of result ≡ telling ask reply }
    {
        let mut caller = Caller {
            ask,
            stage: Stage::Asking,
        };
        caller.reply(reply);
        caller
    }

    /// A caller that is told a notice, and then this reply.
    pub fn announcing(ask: Ask, notice: Notice, reply: ShortReply) -> Caller
        ensures { frame_of result ≡ announcing ask notice reply }
    {
        let mut caller = Caller {
            ask,
            stage: Stage::Asking,
        };
        caller.announce(notice, reply);
        caller
    }

    /// Makes a reply that owns memory come next. A routine remembers the copy.
    pub fn reply_whole(&mut self, reply: Reply, copy: Option<Reply>)
        ensures { frame_of self.new ≡ Telling (remembers self.old.ask copy) reply }
    {
        remember_copy(&mut self.ask, copy);
        self.stage = Stage::Telling(reply);
    }

    /// Tells the event that comes next. None where the caller asks.
    pub fn tell(&mut self) -> Option<Event>
        ensures event { result ≡ told_by (frame_of self.old) }
        ensures frame { frame_of self.new ≡ after_telling (frame_of self.old) }
    {
        // After its reply each caller is looked at once more, and then there is nothing to move.
        if let Stage::Asking = self.stage {
            return None;
        }
        match mem::replace(&mut self.stage, Stage::Asking) {
            Stage::Asking => None,
            Stage::Telling(reply) => Some(Event::Replied(reply)),
            Stage::Announcing(notice, reply) => {
                self.stage = Stage::Telling(reply);
                Some(event_of(notice))
            }
        }
    }
}
