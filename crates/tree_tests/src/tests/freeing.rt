ghost use Rattle.std.specs.Prelude.{◌≡◌, not, ◌&&◌, true};
ghost use Rattle.tree_specs.specs.Calls.Refusals.{is_plain_row};
ghost use Rattle.tree_specs.specs.Tree.Pool.{is_dying, row_of};
ghost use Rattle.references.specs.Rows.{AreRefsOf};
ghost use Rattle.destructors.specs.Frees.{frees_of};
ghost use Rattle.destructors.specs.Works.{IsAwaiting};
ghost use Rattle.destructors.specs.Engine.{AreKept, IsAtRest, IsFreeing};

use destructors::FreeEngine;
use references::Refs;
use std::alloc::Global;
use std::process::Abort;
use tree_links::{NewRow, Tree};
use tree_specs::{FreeReply, FreeStep, Kind, Mark, Name, Obj, Owner};

mod steps;

// Whether it is a plain object that has not left its owner.
fn may_have_hook(tree: &Tree, x: Obj) -> bool
    ensures { result ≡ (is_plain_row (row_of tree.now.rows x) && not (is_dying tree.now.rows x)) }
{
    match tree.row(x) {
        Some(row) => matches!(row.kind, Kind::Plain) && !matches!(row.mark, Mark::Dying(_)),
        None => false,
    }
}

// A tree with its references, and an engine that frees its objects.
#[derive(Drop)]
struct World {
    tree: Tree,
    refs: Refs,
    engine: FreeEngine,
}

impl World {
    fn new(alloc: Global) -> World
        ensures { IsAtRest result.tree result.refs }
    {
        World {
            tree: Tree::new(alloc, 1),
            refs: Refs::new(alloc),
            engine: FreeEngine::new(),
        }
    }

    // Adds a plain object of the name a, while nothing is going on.
    fn add(&mut self, rt: &impl Abort, owner: Owner) -> Obj
        requires { IsAtRest self.old.tree self.old.refs }
        ensures { IsAtRest self.new.tree self.new.refs }
    {
        self.tree.reserve(1).expect(rt, "memory");
        let row = NewRow {
            kind: Kind::Plain,
            name: Name::fixed(b"a"),
            size: 0,
        };
        assert!(rt; self.tree.len() < 1_048_576);
        assert!(rt; self.tree.next_number() < u64::MAX);
        assert!(rt; self.tree.is_owner(owner));
        self.tree.add(row, owner)
    }

    // Gives an object a destructor, while nothing is going on.
    fn hook(&mut self, rt: &impl Abort, x: Obj)
        requires { IsAtRest self.old.tree self.old.refs }
        ensures { IsAtRest self.new.tree self.new.refs }
    {
        assert!(rt; may_have_hook(&self.tree, x));
        self.tree.set_hook(x, 16);
    }

    // The freeing of an object begins, while nothing is going on.
    fn free(&mut self, rt: &impl Abort, x: Obj)
        requires { IsAtRest self.old.tree self.old.refs }
        ensures { IsFreeing self.new.engine self.new.tree self.new.refs }
    {
        self.tree.reserve(0).expect(rt, "memory");
        assert!(rt; self.refs.target(x).is_none());
        assert!(rt; self.refs.newest(&self.tree, x).is_none());
        self.engine = FreeEngine::new();
        self.engine.begin_free(&mut self.tree, &mut self.refs, x);
    }

    fn announces(&self) -> bool
        requires { IsFreeing self.now.engine self.now.tree self.now.refs }
    {
        self.engine.announces(&self.tree, &self.refs)
    }

    fn lets_go(&self) -> Option<Obj>
        requires { IsFreeing self.now.engine self.now.tree self.now.refs }
    {
        self.engine.lets_go(&self.tree, &self.refs)
    }

    // A step that is neither a question nor the end of a free.
    fn event(&mut self, rt: &impl Abort) -> FreeStep
        requires { IsFreeing self.old.engine self.old.tree self.old.refs }
        ensures { IsFreeing self.new.engine self.new.tree self.new.refs }
    {
        let told = self.engine.step(&mut self.tree, &mut self.refs);
        match told {
            FreeStep::Ask(_) | FreeStep::Prepare(_) | FreeStep::Drain(_) | FreeStep::Done(_) => {
                panic!(rt; "no event")
            }
            FreeStep::Dropped { .. } => told,
            FreeStep::Refused { .. } => told,
            FreeStep::Accepted(_) => told,
            FreeStep::Doom(_) => told,
            FreeStep::Left { .. } => told,
            FreeStep::Moved { .. } => told,
            FreeStep::Gone { .. } => told,
        }
    }

    // A step that asks for the run of a destructor, which returns this number. It gives the object.
    fn ask(&mut self, rt: &impl Abort, value: u32) -> Obj
        requires { IsFreeing self.old.engine self.old.tree self.old.refs }
        ensures { IsFreeing self.new.engine self.new.tree self.new.refs }
    {
        let FreeStep::Ask(x) = self.engine.step(&mut self.tree, &mut self.refs) else {
            panic!(rt; "no question")
        };
        self.engine.answer(&self.tree, value);
        x
    }

    // A step that asks for the run of a destructor, in which the freeing of this object begins.
    fn nest(&mut self, rt: &impl Abort, x: Obj)
        requires { IsFreeing self.old.engine self.old.tree self.old.refs }
        ensures { IsFreeing self.new.engine self.new.tree self.new.refs }
    {
        let FreeStep::Ask(_) = self.engine.step(&mut self.tree, &mut self.refs) else {
            panic!(rt; "no question")
        };
        self.tree.reserve(0).expect(rt, "memory");
        assert!(rt; self.refs.target(x).is_none());
        assert!(rt; self.refs.newest(&self.tree, x).is_none());
        self.engine.begin_free(&mut self.tree, &mut self.refs, x);
    }

    // A step that ends a free. It gives what the free answers.
    fn done(&mut self, rt: &impl Abort) -> FreeReply
        requires { IsFreeing self.old.engine self.old.tree self.old.refs }
        ensures refs { AreRefsOf self.new.refs.pairs self.new.tree.rows }
        ensures awaiting { IsAwaiting (frees_of self.new.engine self.new.tree) }
        ensures kept { AreKept self.new.engine self.new.tree }
    {
        let FreeStep::Done(answer) = self.engine.step(&mut self.tree, &mut self.refs) else {
            panic!(rt; "the free goes on")
        };
        answer
    }
}
