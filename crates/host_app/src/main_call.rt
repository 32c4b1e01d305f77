//! `host_main`: what the program does, from its words to its status.
ghost use Rattle.std.specs.Prelude.{◌≡◌, ◌≢◌, ◌≤◌, ◌⊎◌, ℕ, List, None, Some, IfSome};
ghost use Rattle.tree_specs.specs.declared.schedule.Reason.{Reason};
ghost use Rattle.service_rules.specs.Schedules.{judge};
ghost use Rattle.audit_rules.specs.Flaws.{flaw};
ghost use Rattle.outside.specs.Causes.{Rose};
ghost use Rattle.schedule_replay.specs.Runs.{IsDone, IsBad, IsCutShort, IsFrontOf};
ghost use Rattle.schedule_replay.specs.Stories.{WritesStory};
ghost use Rattle.host_app.specs.Statuses.{status_text};
ghost use Rattle.serving.specs.Stations.{ends};
ghost use Rattle.command_words.specs.CommandLine.Asked.{Replay, Convert, Audit, Serve, Load};
ghost use Rattle.transcript_audit.specs.Outcomes.{HasFlaw};
ghost use Rattle.host_app.specs.Audits.{WritesOrderly, WritesOrderlyFront};
ghost use Rattle.schedule_versions.specs.Conversions.{converted, shape};
ghost use Rattle.schedule_versions.specs.Judging.{IsJudgedAlike};
ghost use Rattle.host_app.specs.Mains.{ConvertsTo, names, Loads, Says};
ghost use Rattle.host_app.specs.Serves.{Serves};

use crate::auditing::audit_transcript;
use crate::saying::say;
use crate::status::Status;
use command_words::{Command, WordsError, read_words};
use load_schedule::load;
use outside::{Clock, Link, Routines, Sink, Source, put_all};
use schedule_replay::{convert, replay};
use serving::serve_lines;
use std::alloc::Global;

/// Does what the words say, and says on `err` what the status means.
///
/// The word `replay` replays the schedule that `input` gives into its transcript, which goes to `out`. The word `convert`
/// puts that schedule to `out` in version 2. The word `audit` says of the transcript that `input` gives whether its story
/// is orderly: on `out`, with the number of its lines, or on `err`, with the first line that has a flaw. The words `serve
/// PATH ANSWERS` serve lines at a Unix socket until ANSWERS answers of the link, the clock and the routines were given,
/// and put the schedule of these answers to `out`. The words `load NUMBER COUNT` make a schedule of COUNT calls from a
/// number and put five lines on its transcript to `out`. Where words aren't taken the status is 2, and a person is told
/// what to type. A fault of `err`, or running out of memory there, changes no status.
pub fn host_main<S: Source, K: Sink, E: Sink, L: Link, C: Clock, R: Routines>(
    alloc: Global,
    words: &[String],
    input: &mut S,
    out: &mut K,
    err: &mut E,
    link: &mut L,
    clock: &mut C,
    routines: &mut R,
) -> Status
    // The status is 2 exactly where the words aren't taken, unless memory ran out.
    ensures usage { result ≡ Status.Usage → names words.now ≡ None }
    ensures not_taken { names words.now ≡ None → (result ≡ Status.Usage) ⊎ (result ≡ Status.NoMemory) }
    ensures usage_input { result ≡ Status.Usage → input.new ≡ input.old }
    ensures usage_out { result ≡ Status.Usage → out.new ≡ out.old }

    // Of the word `replay`: all is read, no line is rejected, and the transcript of the story over the schedule's
    // inputs has been written.
    ensures done { names words.now ≡ Some Replay → result ≡ Status.Done → IfSome (S.left input.old) (λ bytes. IsDone bytes (S.left input.new) (K.held out.old) (K.held out.new)) }

    // The first rejected line, after the transcript of the lines before it. Of the words `replay` and `convert` alone a
    // line is rejected.
    ensures bad { names words.now ≡ Some Replay → (line : ℕ) (reason : Reason) → result ≡ Status.BadSchedule line reason → IfSome (S.left input.old) (λ bytes. IsBad bytes line reason (K.held out.old) (K.held out.new)) }
    ensures bad_words { (line : ℕ) (reason : Reason) → result ≡ Status.BadSchedule line reason → (names words.now ≡ Some Replay) ⊎ (names words.now ≡ Some Convert) }

    // The story whose transcript that is, of a host or of a line service, as the first line says: a destructor accepts at
    // most once in it, every freed object with a destructor had it accept, nothing starts for a freed object, and to free
    // a live object is refused only while it is held, running or refused.
    ensures story { names words.now ≡ Some Replay → result ≡ Status.Done → IfSome (S.left input.old) (λ bytes. WritesStory bytes (K.held out.old) (K.held out.new)) }
    ensures story_before { names words.now ≡ Some Replay → (line : ℕ) (reason : Reason) → result ≡ Status.BadSchedule line reason → line ≢ 1 → IfSome (S.left input.old) (λ bytes. WritesStory bytes (K.held out.old) (K.held out.new)) }

    // After a fault, and when memory runs out, a prefix of the transcript has been written. A service that would give
    // more answers than it may is without memory, and its schedule has no transcript.
    ensures read_fault { result ≡ Status.ReadFault → Rose (S.faults input.old) (S.faults input.new) }
    ensures read_cut { names words.now ≡ Some Replay → result ≡ Status.ReadFault → IfSome (S.left input.old) (λ bytes. IsCutShort bytes (S.left input.new) (K.held out.old) (K.held out.new)) }
    ensures write_fault { result ≡ Status.WriteFault → Rose (K.faults out.old) (K.faults out.new) }
    ensures write_front { names words.now ≡ Some Replay → result ≡ Status.WriteFault → IfSome (S.left input.old) (λ bytes. IsFrontOf bytes (K.held out.old) (K.held out.new)) }
    ensures memory_front { names words.now ≡ Some Replay → result ≡ Status.NoMemory → IfSome (S.left input.old) (λ bytes. IsFrontOf bytes (K.held out.old) (K.held out.new)) }

    // Where no line is to be rejected and no fault was counted, all is done, or memory ran out.
    ensures complete { names words.now ≡ Some Replay → IfSome (S.left input.old) (λ bytes. judge bytes ≡ None →
        (Rose (S.faults input.old) (S.faults input.new) → ⊥) → (Rose (K.faults out.old) (K.faults out.new) → ⊥) → (result ≡ Status.Done) ⊎ (result ≡ Status.NoMemory)) }

    // Of the word `convert`: the schedule in version 2 has been written, up to the first line that is over a limit or isn't
    // in the grammar. Where a read failed, the whole lines that were taken have been; at another fault, and when memory
    // runs out, a prefix.
    ensures converts { names words.now ≡ Some Convert → IfSome (S.left input.old) (λ bytes. ConvertsTo bytes (S.left input.new) (K.held out.old) (K.held out.new) result) }

    // Where all is converted, what was written is judged as the schedule that was read, has its inputs and gives its
    // transcript.
    ensures converts_same { names words.now ≡ Some Convert → result ≡ Status.Done → IfSome (S.left input.old) (λ bytes. IsJudgedAlike bytes (converted bytes)) }
    ensures converts_complete { names words.now ≡ Some Convert → IfSome (S.left input.old) (λ bytes. shape bytes ≡ None →
        (Rose (S.faults input.old) (S.faults input.new) → ⊥) → (Rose (K.faults out.old) (K.faults out.new) → ⊥) → (result ≡ Status.Done) ⊎ (result ≡ Status.NoMemory)) }

    // Of the word `audit`: the bytes are the transcript of an orderly story, and the line with the number of their lines
    // has been written.
    ensures orderly { names words.now ≡ Some Audit → result ≡ Status.Done → IfSome (S.left input.old) (λ bytes. WritesOrderly bytes (K.held out.old) (K.held out.new)) }

    // The first line that has a flaw, and which: the lines before it begin the transcript of an orderly story. Nothing is
    // written, and it comes of no other words.
    ensures broken { (line rule : ℕ) → result ≡ Status.Broken line rule → IfSome (S.left input.old) (λ bytes. HasFlaw bytes line rule) }
    ensures broken_out { (line rule : ℕ) → result ≡ Status.Broken line rule → out.new ≡ out.old }
    ensures broken_words { (line rule : ℕ) → result ≡ Status.Broken line rule → names words.now ≡ Some Audit }

    // After a failed read nothing is written, after a fault of `out` a prefix of the line, and one of both where memory
    // runs out. Where no line has a flaw and no fault was counted, all is done, or memory ran out. Where one has and no
    // failed read was counted, that is said, or memory ran out.
    ensures audit_read { names words.now ≡ Some Audit → result ≡ Status.ReadFault → out.new ≡ out.old }
    ensures audit_front { names words.now ≡ Some Audit → result ≡ Status.WriteFault → IfSome (S.left input.old) (λ bytes. WritesOrderlyFront bytes (K.held out.old) (K.held out.new)) }
    ensures audit_memory { names words.now ≡ Some Audit → result ≡ Status.NoMemory → IfSome (S.left input.old) (λ bytes.
        (K.held out.new ≡ K.held out.old) ⊎ WritesOrderlyFront bytes (K.held out.old) (K.held out.new)) }
    ensures audit_complete { names words.now ≡ Some Audit → IfSome (S.left input.old) (λ bytes. flaw bytes ≡ None →
        (Rose (S.faults input.old) (S.faults input.new) → ⊥) → (Rose (K.faults out.old) (K.faults out.new) → ⊥) → (result ≡ Status.Done) ⊎ (result ≡ Status.NoMemory)) }
    ensures audit_flawed { names words.now ≡ Some Audit → IfSome (S.left input.old) (λ bytes. (line rule : ℕ) → flaw bytes ≡ Some (line, rule) →
        (Rose (S.faults input.old) (S.faults input.new) → ⊥) → (result ≡ Status.Broken line rule) ⊎ (result ≡ Status.NoMemory)) }

    // Of the words `serve PATH ANSWERS`: so many answers were given to the service, over this path, and are on record. The
    // link, the clock and the routines were asked what its story over them prescribes. Where no answer names more than
    // 20,164 ready descriptors, the record is a schedule of which no line is refused and that has these inputs, so its
    // replay writes the transcript of this very run. After a fault, and when memory runs out, so many answers at most
    // were given and are on record, with a part of one more line at most, and a question that was put after them is the
    // one with which the story over them ends. Nothing is read.
    ensures serves { (path : List ℕ) (answers : ℕ) → names words.now ≡ Some (Serve path answers) → Serves path answers result
        (ends (L.told link.old) (C.told clock.old) (R.told routines.old) (K.held out.old))
        (ends (L.told link.new) (C.told clock.new) (R.told routines.new) (K.held out.new)) }
    ensures serves_input { (path : List ℕ) (answers : ℕ) → names words.now ≡ Some (Serve path answers) → input.new ≡ input.old }
    ensures serves_complete { (path : List ℕ) (answers : ℕ) → names words.now ≡ Some (Serve path answers) →
        (Rose (L.faults link.old) (L.faults link.new) → ⊥) → (Rose (K.faults out.old) (K.faults out.new) → ⊥) → (result ≡ Status.Done) ⊎ (result ≡ Status.NoMemory) }
    ensures link_fault { result ≡ Status.LinkFault → Rose (L.faults link.old) (L.faults link.new) }

    // No other words have to do with the link, the clock or the routines.
    ensures link_idle { ((path : List ℕ) (answers : ℕ) → names words.now ≢ Some (Serve path answers)) → link.new ≡ link.old }
    ensures clock_idle { ((path : List ℕ) (answers : ℕ) → names words.now ≢ Some (Serve path answers)) → clock.new ≡ clock.old }
    ensures routines_idle { ((path : List ℕ) (answers : ℕ) → names words.now ≢ Some (Serve path answers)) → routines.new ≡ routines.old }

    // Of the words `load NUMBER COUNT`: the five lines of the transcript of that schedule have been written, and after
    // a fault, and when memory runs out, a prefix of them. Nothing is read.
    ensures loads { (number count : ℕ) → names words.now ≡ Some (Load number count) → Loads number count (K.held out.old) (K.held out.new) result }
    ensures loads_input { (number count : ℕ) → names words.now ≡ Some (Load number count) → input.new ≡ input.old }
    ensures loads_complete { (number count : ℕ) → names words.now ≡ Some (Load number count) →
        (Rose (K.faults out.old) (K.faults out.new) → ⊥) → (result ≡ Status.Done) ⊎ (result ≡ Status.NoMemory) }
    ensures said { result ≢ Status.Usage → Says (E.held err.old) (E.held err.new) (E.room err.old) (E.faults err.old) (E.faults err.new) (status_text result) }
{
    let status = match read_words(alloc, words) {
        Ok(Command::Replay) => Status::from(replay(alloc, input, out)),
        Ok(Command::Convert) => Status::from(convert(alloc, input, out)),
        Ok(Command::Audit) => audit_transcript(alloc, input, out),
        Ok(Command::Serve { path, answers }) => Status::from(serve_lines(
            alloc,
            path,
            u64::from(answers),
            link,
            clock,
            routines,
            out,
        )),
        Ok(Command::Load { number, count }) => Status::from(load(alloc, number, count, out)),
        Err(WordsError::Usage(text)) => {
            let _ = put_all(err, text.as_bytes());
            Status::Usage
        }
        Err(WordsError::Memory) => Status::NoMemory,
    };
    let _ = say(err, status);
    status
}
