//! The service's own steps: a turn begins, what is due is found out, and it is done.
ghost use Rattle.std.specs.Prelude.{◌≡◌, ℕ, [], ◌∷◌, IsTrue, None, Some, true, false};
ghost use Rattle.tree_specs.specs.declared.question.Ask.TheVariants.{Quiet};
ghost use Rattle.tree_specs.specs.Machine.View.{question_of};
ghost use Rattle.tree_specs.specs.Tree.Pool.{Pool};
ghost use Rattle.tree_specs.specs.Words.Ranges.{is_sound_call};
ghost use Rattle.host_core.specs.Promises.{Waits};
ghost use Rattle.service_rules.specs.Knowledge.Setup.{Complete};
ghost use Rattle.service_rules.specs.Routines.{does};
ghost use Rattle.service_rules.specs.Routines.Next.{Does, Returns};
ghost use Rattle.service_rules.specs.Stations.{Shows};
ghost use Rattle.service_lines.specs.Orders.{is_sound_order};
ghost use Rattle.service_desk.specs.Desks.{are_lines};
ghost use Rattle.service_desk.specs.Fronts.{HasLine, HasOrder, NamesItsOwn, lines_of};
ghost use Rattle.line_service.specs.Steps.{is_own};

use crate::giving::give;
use crate::naming::strange_name;
use crate::station::Station;
use service_desk::Front;
use service_rules::{Order, Serving, Task};
use tree_specs::{Act, Ask, Call, Input, Memory, Obj};

impl Station {
    /// The next turn of the event loop begins.
    pub(crate) fn begin_turn(&mut self) -> Result<(), Memory>
        requires quiet { question_of self.old.host ≡ Some Quiet }
        requires waits { Waits self.old.host }
        requires complete { self.old.knows.setup ≡ Complete }
        ensures { Shows [] self.old self.new }
    {
        give(
            &mut self.host,
            &mut self.left,
            Input::Call(Call::Turn {
                context: Obj::first_context(),
            }),
        )
    }

    /// The own routine that is asked goes on by one step.
    pub(crate) fn go_on(&mut self, due: Option<Task>) -> Result<(), Memory>
        requires own { is_own (question_of self.old.host) ≡ true }
        requires waits { Waits self.old.host }
        requires due { due ≡ self.old.due }
        ensures { Shows [] self.old self.new }
    {
        match due {
            None => self.find_due(),
            Some(
                Task::Serve {
                    session,
                    at: Serving::Lines,
                },
            ) => self.do_line(session),
            Some(task) => self.do_task(task),
        }
    }

    /// What is due comes of the moment at which the own routine is asked.
    fn find_due(&mut self) -> Result<(), Memory>
        requires own { is_own (question_of self.old.host) ≡ true }
        requires waits { Waits self.old.host }
        requires none { self.old.due ≡ None }
        ensures { Shows [] self.old self.new }
    {
        match self.host.question() {
            Some(Ask::Routine(moment)) => self.desk.ask(moment),
            _ => Ok(()),
        }
    }

    /// The line in front of a session's connection is done, where a whole one came.
    fn do_line(&mut self, session: Obj) -> Result<(), Memory>
        requires own { is_own (question_of self.old.host) ≡ true }
        requires due { self.old.due ≡ Some (lines_of session) }
        ensures { Shows [] self.old self.new }
    {
        match self.desk.front(session)? {
            Front::Order { length, tag, order } => self.do_order(session, length, tag, order),
            Front::Done => Ok(()),
            Front::Missing => {
                self.desk.lines_done(session);
                Ok(())
            }
        }
    }

    /// What the line in front asks for is done, which has so many bytes. A line that names what isn't its session's is
    /// answered.
    fn do_order(
        &mut self,
        session: Obj,
        length: usize,
        tag: u32,
        order: Order,
    ) -> Result<(), Memory>
        requires own { is_own (question_of self.old.host) ≡ true }
        requires due { self.old.due ≡ Some (lines_of session) }
        requires line { HasLine session length self.old.knows }
        requires asks { HasOrder session length tag order self.old.knows }
        requires sound { is_sound_order order ≡ true }
        ensures { Shows [] self.old self.new }
    {
        match strange_name(&self.host, session, &order) {
            Some(x) => {
                drop(order);
                self.desk.refuse_name(session, length, tag, x)
            }
            None => self.do_own_order(session, length, tag, order),
        }
    }

    /// The call that the line in front asks for is done, which names nothing but what is its session's.
    fn do_own_order(
        &mut self,
        session: Obj,
        length: usize,
        tag: u32,
        order: Order,
    ) -> Result<(), Memory>
        requires own { is_own (question_of self.old.host) ≡ true }
        requires due { self.old.due ≡ Some (lines_of session) }
        requires line { HasLine session length self.old.knows }
        requires asks { HasOrder session length tag order self.old.knows }
        requires names { NamesItsOwn self.old.host.pool session order }
        requires sound { is_sound_order order ≡ true }
        ensures { Shows [] self.old self.new }
    {
        let (call, at) = self.desk.order_call(session, order);
        self.desk.reserve_run()?;
        give(&mut self.host, &mut self.left, Input::Act(Act::Do(call)))?;
        self.desk.line_called(session, length, tag, at);
        Ok(())
    }

    /// What is due is done: its call, where it has one, and otherwise the own routine returns.
    fn do_task(&mut self, due: Task) -> Result<(), Memory>
        requires own { is_own (question_of self.old.host) ≡ true }
        requires due { self.old.due ≡ Some due }
        requires calls { are_lines due ≡ false }
        ensures { Shows [] self.old self.new }
    {
        match self.desk.call(due)? {
            Some(call) => self.do_call(due, call),
            None => self.do_return(due),
        }
    }

    /// The call of what is due is done, and then its reply is waited for.
    fn do_call(&mut self, due: Task, call: Call) -> Result<(), Memory>
        requires own { is_own (question_of self.old.host) ≡ true }
        requires due { self.old.due ≡ Some due }
        requires calls { (p : Pool) → does self.old.knows p due ≡ Does call due self.old.knows }
        requires sound { IsTrue (is_sound_call call) }
        ensures { Shows [] self.old self.new }
    {
        self.desk.reserve_run()?;
        give(&mut self.host, &mut self.left, Input::Act(Act::Do(call)))?;
        self.desk.called(due);
        Ok(())
    }

    /// The own routine that is asked returns.
    fn do_return(&mut self, due: Task) -> Result<(), Memory>
        requires own { is_own (question_of self.old.host) ≡ true }
        requires due { self.old.due ≡ Some due }
        requires returns { (p : Pool) → does self.old.knows p due ≡ Returns self.old.knows }
        ensures { Shows [] self.old self.new }
    {
        give(&mut self.host, &mut self.left, Input::Act(Act::Ret(0)))?;
        self.desk.returned();
        Ok(())
    }
}
